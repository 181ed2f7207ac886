//! The keeper of a device, in the form that the exports use.

ghost use Rattle.std.specs.Prelude.{◌≡◌, ◌∷◌, OnErr, OnOk, false, true};
ghost use Rattle.tpm_image_text.specs.Saving.{PutsFront};
ghost use Rattle.tpm_keeping.specs.Cutting.{idle};
ghost use Rattle.tpm_keeping.specs.Holder.{newborn};
ghost use Rattle.tpm_keeping.specs.View.{ask_of};
ghost use Rattle.tpm_keeping.specs.declared.holder.Job.TheVariants.{Begin, Execute};
ghost use Rattle.tpm_kept_device.specs.Texts.{cycle_text, seed_text, text_at};
ghost use Rattle.tpm_types_common.specs.Locality.{locality_number};
ghost use Rattle.tpmsim_library.specs.Keeping.{Begins, GoesOn, call_of, content_at, executed_by};
ghost use Rattle.tpmsim_library.specs.Keeping.{request_of, response_of, shown_by, text_of, told_by};
ghost use Rattle.tpmsim_library.specs.Keeping.{view_of};

use crate::request::{Request, told_by};
use crate::shown::{put_content, put_whole};
use std::alloc::Global;
use tpm_keeping::caller::CuttingKeeper;
use tpm_keeping::device::Exhausted;
use tpm_keeping::holder::{End, Force, Job};
use tpm_keeping::keeper::Ask;
use tpm_kept_device::KeptDevice;
use tpm_kept_device::writing::{beginning, command_at, power_cycle, seed};
use tpm_types_common::Locality;

/// The keeper of a device.
#[derive(Drop)]
pub struct DeviceKeeper {
    keeper: CuttingKeeper<KeptDevice>,
    /// Whether calls cut off damage in the journal.
    cuts: bool,
}

impl DeviceKeeper {
    /// Creates a keeper that refuses a damaged journal.
    pub fn new(alloc: Global, force: Force, limit: u64) -> DeviceKeeper
        ensures made { call_of result ≡ idle (newborn force limit) }
        ensures cuts { result.cuts ≡ false }
    {
        DeviceKeeper {
            keeper: CuttingKeeper::new(alloc, force, limit),
            cuts: false,
        }
    }

    /// Sets whether later calls cut off damage in the journal, or refuse a damaged journal.
    pub fn set_cuts(&mut self, cuts: bool)
        ensures { self.new ≡ record self.old { cuts = cuts } }
    {
        self.cuts = cuts;
    }

    /// Begins a call for this job.
    pub fn begin(&mut self, alloc: Global, job: Job, text: &[u8]) -> Result<(), Exhausted>
        ensures ok { OnOk result (Begins self.old.cuts job text.now self.old self.new) }
        ensures err { OnErr result (self.new ≡ self.old) }
    {
        let Ok(text) = Vec::from_slice(alloc, text) else {
            return Err(Exhausted);
        };
        self.keeper.begin(self.cuts, job, text)
    }

    /// Begins the execution of a TPM command. `now_ms` is the time of the host's clock.
    pub fn execute(
        &mut self,
        alloc: Global,
        now_ms: u64,
        locality: Locality,
        completes: bool,
        random: &[u8; 256],
        buffer: &[u8],
    ) -> Result<(), Exhausted>
        ensures ok { OnOk result (Begins self.old.cuts Execute
            (text_at now_ms (locality_number locality) completes random.now buffer.now)
            self.old self.new) }
        ensures err { OnErr result (self.new ≡ self.old) }
    {
        let Ok(text) = command_at(alloc, now_ms, locality, completes, random, buffer) else {
            return Err(Exhausted);
        };
        self.keeper.begin(self.cuts, Job::Execute, text)
    }

    /// Begins a power cycle. `now_ms` is the time of the host's clock, and `start` has no effect.
    pub fn cycle_power(&mut self, alloc: Global, now_ms: u64, start: u64) -> Result<(), Exhausted>
        ensures ok { OnOk result (Begins self.old.cuts Execute (cycle_text now_ms start)
            self.old self.new) }
        ensures err { OnErr result (self.new ≡ self.old) }
    {
        let Ok(text) = power_cycle(alloc, now_ms, start) else {
            return Err(Exhausted);
        };
        self.keeper.begin(self.cuts, Job::Execute, text)
    }

    /// Begins a call that opens the device. If there is no device, the call creates one from the
    /// seed.
    pub fn begin_device(
        &mut self,
        alloc: Global,
        kind: u8,
        now_ms: u64,
        start: u64,
        content: &[u8],
    ) -> Result<(), Exhausted>
        ensures ok { OnOk result (Begins self.old.cuts Begin
            (seed_text kind now_ms start content.now) self.old self.new) }
        ensures err { OnErr result (self.new ≡ self.old) }
    {
        let Ok(text) = seed(alloc, kind, now_ms, start, content) else {
            return Err(Exhausted);
        };
        self.keeper.begin(self.cuts, Job::Begin, text)
    }

    /// Begins to restore a state text. Because the state replaces the device, damage in the old
    /// journal is cut off.
    pub fn restore(
        &mut self,
        alloc: Global,
        now_ms: u64,
        start: u64,
        state: &[u8],
    ) -> Result<(), Exhausted>
        ensures ok { OnOk result (Begins true Execute
            (2 ∷ seed_text 2 now_ms start state.now) self.old self.new) }
        ensures err { OnErr result (self.new ≡ self.old) }
    {
        let Ok(content) = seed(alloc, 2, now_ms, start, state) else {
            return Err(Exhausted);
        };
        let Ok(text) = beginning(alloc, &content) else {
            return Err(Exhausted);
        };
        self.keeper.begin(true, Job::Execute, text)
    }

    /// Returns the bytes that the host must write.
    fn text(&self) -> &[u8]
        ensures { result.now ≡ text_of (view_of self.now) }
    {
        match self.keeper.ask() {
            Ask::Put { .. } | Ask::Make { .. } => self.keeper.out(),
            _ => &[],
        }
    }

    /// Returns the response that may be sent.
    fn response(&self) -> &[u8]
        ensures { result.now ≡ response_of (view_of self.now) }
    {
        match self.keeper.ask() {
            Ask::Nothing(End::Done) => self.keeper.response(),
            _ => &[],
        }
    }

    /// Returns what the keeper requests of its host.
    pub fn request(&self) -> Request
        ensures { result ≡ request_of (view_of self.now) }
    {
        let drops = matches!(self.keeper.job(), Job::Cut);
        Request::of(
            self.keeper.ask(),
            drops,
            self.text().len(),
            self.response().len(),
        )
    }

    /// Copies the bytes that the host must write, if they fit, to the start of a buffer. Returns
    /// the number of these bytes.
    pub fn text_into(&self, buffer: &mut [u8]) -> usize
        ensures { PutsFront (text_of (view_of self.now)) buffer.old result buffer.new }
    {
        put_whole(self.text(), buffer)
    }

    /// Copies the response that may be sent, if it fits, to the start of a buffer. Returns the size
    /// of the response.
    pub fn response_into(&self, buffer: &mut [u8]) -> usize
        ensures { PutsFront (response_of (view_of self.now)) buffer.old result buffer.new }
    {
        put_whole(self.response(), buffer)
    }

    /// Returns the response to a command, if the latest call executed a command and is done.
    /// Otherwise, returns an empty slice.
    pub fn executed(&self) -> &[u8]
        ensures { result.now ≡ executed_by self.now }
    {
        match self.keeper.job() {
            Job::Execute => self.response(),
            _ => &[],
        }
    }

    /// Writes the state text from the latest call to the start of a buffer, if it fits. Returns its
    /// size, or 0 if that call returned no state text.
    pub fn state_into(&self, buffer: &mut [u8]) -> usize
        ensures { PutsFront (content_at (shown_by self.now)) buffer.old result buffer.new }
    {
        let shown = match self.keeper.job() {
            Job::Show => self.response(),
            _ => &[],
        };
        put_content(shown, buffer)
    }

    /// Continues the call with the host's report. If an allocation fails, the call ends for this
    /// reason.
    pub fn next(&mut self, got: u8, file: u64, size: u64, bytes: &[u8])
        ensures goes_on { GoesOn (call_of self.old)
            (told_by got (ask_of (view_of self.old)) file size bytes.now) (call_of self.new) }
        ensures cuts { self.new.cuts ≡ self.old.cuts }
    {
        let told = told_by(got, self.keeper.ask(), file, size, bytes);
        let _is_starved = self.keeper.next(told).is_err();
    }
}
