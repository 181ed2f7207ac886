//! How a device uses its journal.

ghost use Rattle.std.specs.Prelude.{◌≡◌, ◌≤◌, OnErr, OnOk, IfErr, IfOk, drop, false, length, take};
ghost use Rattle.tpm_image_text.specs.Saving.{PutsFront};
ghost use Rattle.tpm_journal.specs.Replay.{Replays};
ghost use Rattle.tpm_journal_text.specs.Head.{head_text};
ghost use Rattle.tpm_journal_text.specs.declared.head.HeadKind.TheVariants.{Image};
ghost use Rattle.tpm_types_common.specs.Locality.{locality_number};
ghost use Rattle.tpmsim_web.specs.Journal.{BeginsIfRoom, CheckpointsIfFits, HasFault, IsOfJournal};
ghost use Rattle.tpmsim_web.specs.Journal.{Records, checkpoint_clock, checkpoint_head, command_by};
ghost use Rattle.tpmsim_web.specs.Journal.{image_at_power};
ghost use Rattle.tpmsim_web.specs.State.{record_of};

use crate::device::{Answered, Device, new_machine, tell};
use std::alloc::Global;
use tpm_journal::opening::open;
use tpm_journal::{Followed, OpenFault};
use tpm_step::Outcome;
use tpm_types_common::Locality;

impl Device {
    /// Power-cycles the device, and writes the head of its new journal to the start of a buffer.
    /// Returns the size of the head. If the buffer is too small, the call has no effect.
    pub fn begin_journal(&mut self, now_ms: u64, buffer: &mut [u8]) -> usize
        ensures head { PutsFront (head_text Image now_ms (image_at_power self.old)) buffer.old
            result buffer.new }
        ensures begins { BeginsIfRoom self.old now_ms (length buffer.old) result self.new }
    {
        self.journal
            .begin(&mut self.machine, now_ms, &mut self.outcome, buffer)
    }

    /// Returns the clock that a checkpoint stores: the journal's clock, or `now_ms` if no journal
    /// has been started yet.
    fn checkpoint_clock(&self, now_ms: u64) -> u64
        ensures { result ≡ checkpoint_clock self.now now_ms }
    {
        if self.journal.sum == 0 {
            now_ms
        } else {
            self.journal.time
        }
    }

    /// Restarts the device's journal with a checkpoint, and writes its head to the start of a
    /// buffer. Returns the size of the head. If the buffer is too small, the call has no effect.
    pub fn checkpoint(&mut self, now_ms: u64, buffer: &mut [u8]) -> usize
        ensures head { PutsFront (checkpoint_head self.old now_ms) buffer.old result buffer.new }
        ensures checkpoints { CheckpointsIfFits self.old now_ms (length buffer.old) result
            self.new }
    {
        let clock_ms = self.checkpoint_clock(now_ms);
        self.journal.checkpoint(&self.machine, clock_ms, buffer)
    }

    /// Replaces this device with a journal's device. Returns the size of the journal's head and
    /// entries. On error, the device is unchanged.
    pub fn open_journal(&mut self, alloc: Global, text: &[u8]) -> Result<usize, OpenFault>
        ensures opens { IfOk result (λ taken. IsOfJournal text.now taken self.new) }
        ensures fault { IfErr result (λ fault. HasFault text.now fault) }
        ensures kept { OnErr result (self.new ≡ self.old) }
    {
        let mut machine = new_machine(alloc, &[0; 256]);
        let mut outcome = Outcome::empty();
        let opened = open(&mut machine, text, &mut outcome)?;
        self.machine = machine;
        self.journal = opened.journal;
        Ok(opened.taken)
    }

    /// Executes further entries of the device's journal.
    pub fn follow(&mut self, text: &[u8]) -> Followed
        ensures { Replays false self.old.journal (record_of self.old) text.now result
            self.new.journal (record_of self.new) }
    {
        self.journal
            .follow(&mut self.machine, text, &mut self.outcome)
    }

    /// Executes a command at the time `now_ms` of the host's clock, with or without the completing
    /// layer. Writes the response to the start of `response`, whose remaining bytes are unchanged.
    /// Writes the entry to the start of `entry`, and returns the size of the entry.
    pub fn execute_recorded(
        &mut self,
        buffer: &[u8],
        locality: Locality,
        now_ms: u64,
        completes: bool,
        random: &[u8; 256],
        response: &mut [u8; 4096],
        answered: &mut Answered,
        entry: &mut [u8; 9216],
    ) -> usize
        ensures records { Records self.old
            (command_by self.old buffer.now (locality_number locality) now_ms completes random.now)
            response.new answered.new result entry.new self.new }
        ensures rest { drop answered.new.size response.new ≡ drop answered.new.size response.old }
        ensures untraced { answered.new.traced ≡ 0 }
    {
        let size = self.journal.execute(
            &mut self.machine,
            buffer,
            locality,
            now_ms,
            completes,
            random,
            &mut self.outcome,
            entry,
        );
        *answered = tell(&self.outcome, self.machine.drawn(), 0, response);
        size
    }
}
