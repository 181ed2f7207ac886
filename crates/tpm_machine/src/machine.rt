//! The device itself: how it is manufactured, and how it executes one event or a run of events. The
//! definitions of tpm_step specify the effect of each event.

ghost use Rattle.tpm_types_common.specs.Limits.{buffer_limit, response_limit};
ghost use Rattle.std.specs.Prelude.{◌≡◌, ◌≤◌, [], IfOk, OnErr, false, length, map, true};
ghost use Rattle.std.specs.Borrow.{Lends, sem};
ghost use Rattle.tpm_record.specs.IsRecord.{IsRecord};
ghost use Rattle.tpm_record.specs.Record.{manufactured, manufactured_as};
ghost use Rattle.tpm_step.specs.step.Events.{IsEvent, plain_event};
ghost use Rattle.tpm_step.specs.step.Run.{Runs, after_all};
ghost use Rattle.tpm_step.specs.step.Execution.{Executes};
ghost use Rattle.tpm_step.specs.step.Safe.{IsModestIfAccepted};
ghost use Rattle.tpm_machine.specs.State.{state_of};
ghost use Rattle.tpm_step.specs.step.Step.{Steps, outcome_step};
ghost use Rattle.tpm_step.specs.history.Follows.{Follows, FollowsOn, RunFollows};
ghost use Rattle.tpm_step.specs.history.History.{History};

mod placing;

use crate::authorization::{Authorization, authorize_command};
use crate::response::{write_refusal, write_success};
use crate::table::accept;
use arrayvec::ArrayVec;
use std::alloc::Global;
use tpm_auth::Cache;
use tpm_bytes::NoMemory;
use tpm_commands::{CommandCode, Profile};
use tpm_record::rows::answer::Answer;
use tpm_record::tick::tick;
use tpm_record::{Fixed, Keep, power_cycle, read_widths};
use tpm_step::{Event, Outcome, RefusedCommand, Response, Row};
use tpm_types_common::{Counted, Locality};

/// The device, generic in the type that stores its state.
#[derive(Drop)]
pub struct Machine<K: Keep> {
    keep: K,
    /// The buffer of a command's answer, which is cleared for each command. It is not part of the
    /// state.
    answer: Answer,
    /// The key of the latest HMAC, and the latest Name. Both are cached; neither is part of the
    /// state.
    cache: Cache,
    /// The number of random bytes that the latest event drew, which is not part of the state.
    drawn: usize,
}

impl<K: Keep> Machine<K> {
    ghost use Rattle.tpm_machine.specs.Drawn.{drawn_by};
    ghost use Rattle.tpm_machine.specs.State.{latest_drawn, with_keep};
    ghost use Rattle.tpm_machine.specs.contracts.machine.Machine.{the_row as machine_row};

    /// Manufactures a device. Allocates its memory from `alloc`, and takes the secrets of its
    /// hierarchies from the random bytes.
    pub fn manufacture(alloc: Global, random: &[u8; 256]) -> Result<Machine<K>, NoMemory>
        // An error is possible only if an allocation for an empty state can fail.
        ensures refused { OnErr result (K.empty_can_refuse ≡ true) }
        ensures state { IfOk result (λ machine. state_of K.record_of machine
            ≡ manufactured random.now) }
        ensures is_record { IfOk result (λ machine. IsRecord (state_of K.record_of machine)) }

        // The history of a new device is empty.
        ensures history { IfOk result (λ machine. Follows (state_of K.record_of machine) []) }
    {
        Machine::manufacture_as(alloc, Profile::Symmetric, random)
    }

    /// Manufactures a device of this profile. Allocates its memory from `alloc`, and takes the
    /// secrets of its hierarchies from the random bytes.
    #[inline(always)]
    pub fn manufacture_as(
        alloc: Global,
        profile: Profile,
        random: &[u8; 256],
    ) -> Result<Machine<K>, NoMemory>
        // An error is possible only if an allocation for an empty state can fail.
        ensures refused { OnErr result (K.empty_can_refuse ≡ true) }
        ensures state { IfOk result (λ machine. state_of K.record_of machine
            ≡ manufactured_as profile random.now) }
        ensures is_record { IfOk result (λ machine. IsRecord (state_of K.record_of machine)) }

        // The history of a new device is empty.
        ensures history { IfOk result (λ machine. Follows (state_of K.record_of machine) []) }
    {
        let mut keep = K::empty(alloc)?;
        *keep.fixed_mut() = Fixed::manufactured_as(profile, random);
        read_widths(&keep);
        Ok(Machine::from_keep(keep))
    }

    /// Creates a device with this state.
    pub fn from_keep(keep: K) -> Machine<K>
        ensures { state_of K.record_of result ≡ K.record_of keep }
    {
        Machine {
            keep,
            answer: Answer::empty(),
            cache: Cache::new(),
            drawn: 0,
        }
    }

    /// Returns the state of the device.
    pub fn keep(&self) -> &K
        ensures state { K.record_of result.now ≡ state_of K.record_of self.now }
        ensures is_record { IsRecord (state_of K.record_of self.now) }
    {
        read_widths(&self.keep);
        &self.keep
    }

    /// Gives mutable access to the device's state, so that it can be filled in place.
    pub fn keep_mut(&mut self) -> &mut K
        ensures* writes_back { sem 𝓛 (Lends (machine_row K.row K.Se.row
            K.ObjectSlots.row K.PersistentMap.row K.Nv.row) K.row self.entry result
            (with_keep self.entry.now)) }
        ensures value { K.record_of result.now ≡ state_of K.record_of self.old }
    {
        &mut self.keep
    }

    /// Returns the number of random bytes that the latest event drew, for the command itself and
    /// for new session nonces. An event draws its random bytes in order, starting with the first. A
    /// refused command or a power cycle draws none.
    pub fn drawn(&self) -> usize
        ensures { result ≡ latest_drawn self.now }
    {
        self.drawn
    }

    /// Executes one event. The event's step defines the response, the row and the new state, except
    /// that a command that may allocate can return MEMORY instead of succeeding. `Executes` also
    /// states facts about every outcome and every record.
    pub fn execute(&mut self, event: &Event) -> Outcome
        ensures executes { Executes K.can_refuse (state_of K.record_of self.old)
            (plain_event event.now) (outcome_step (state_of K.record_of self.new) result) }

        // If the device followed a history, it now follows that history, extended by this event if
        // it was accepted. `FollowsOn` lists what the history then determines, and what holds for
        // each replay and for each use of a handle in this history.
        ensures follows { FollowsOn (state_of K.record_of self.old) (plain_event event.now)
            (outcome_step (state_of K.record_of self.new) result) }
    {
        let mut outcome = Outcome::empty();
        self.execute_into(event, &mut outcome);
        outcome
    }

    /// Executes one event and overwrites `outcome`, so that a run of events can reuse one response
    /// buffer.
    pub fn execute_into(&mut self, event: &Event, outcome: &mut Outcome)
        ensures executes { Executes K.can_refuse (state_of K.record_of self.old)
            (plain_event event.now) (outcome_step (state_of K.record_of self.new) outcome.new) }

        // Afterwards, `drawn` returns how many of the event's random bytes were drawn.
        ensures drawn { latest_drawn self.new ≡ drawn_by (state_of K.record_of self.old)
            (plain_event event.now) outcome.new.row.check }

        // If the device followed a history, it now follows that history, extended by this event if
        // it was accepted.
        ensures follows { FollowsOn (state_of K.record_of self.old) (plain_event event.now)
            (outcome_step (state_of K.record_of self.new) outcome.new) }
    {
        outcome.response.clear();
        outcome.row = self.advance(event, &mut outcome.response);
        read_widths(&self.keep);
    }

    /// Executes an event, writes its response, and returns its row.
    #[tactic(auto, using(crate::proofs::Refusals::steps_exactly))]
    fn advance(&mut self, event: &Event, text: &mut Response) -> Row
        requires { text.old.items ≡ [] }
        ensures steps { Steps K.can_refuse (state_of K.record_of self.old) (plain_event event.now)
            (record {
              response = text.new.items;
              row = result;
              after = state_of K.record_of self.new;
            }) }
        ensures modest { result.check ≡ 0
            → IsModestIfAccepted (state_of K.record_of self.old) (plain_event event.now) }
        ensures fits { length text.new.items ≤ response_limit }
        ensures drawn { latest_drawn self.new ≡ drawn_by (state_of K.record_of self.old)
            (plain_event event.now) result.check }
        ensures event { IsEvent (plain_event event.now) }
    {
        self.drawn = 0;
        match event {
            Event::PowerCycle => {
                power_cycle(&mut self.keep);
                Row { code: 0, check: 0 }
            }
            Event::Command {
                buffer,
                locality,
                elapsed_ms,
                random,
            } => self.command(buffer, *locality, *elapsed_ms, random, text),
        }
    }

    /// Executes the events in order, and calls `tell` once with each outcome.
    #[tactic(auto, using(crate::proofs::Running::runs_lead, crate::proofs::Histories::runs_follow))]
    pub fn run<F: FnMut(&Outcome)>(&mut self, events: &[Event], tell: &mut F)
        requires { F.IsAlwaysCallable tell.old }
        ensures runs { Runs F.FnMut K.can_refuse (state_of K.record_of self.old) tell.old
            (map plain_event events.now) (state_of K.record_of self.new) tell.new }

        // If no allocation can fail, the final record is the record after the steps of the events.
        ensures after { K.can_refuse ≡ false → state_of K.record_of self.new
            ≡ after_all (state_of K.record_of self.old) (map plain_event events.now) }

        // If the device followed a history, it now follows that history, extended by the accepted
        // events of the run. No NV counter that stayed defined went down, the number of failed
        // tries is bounded. If a buffer with an HMAC of one HMAC session is accepted twice while the
        // session lives, the session had one nonceTPM twice, or two different texts have the same
        // HMAC.
        ensures history { (history : History) → Follows (state_of K.record_of self.old) history
            → RunFollows F.FnMut K.can_refuse (state_of K.record_of self.old) tell.old
            (map plain_event events.now) (state_of K.record_of self.new) tell.new history }
    {
        self.execute_all(events, tell);
    }

    fn execute_all<F: FnMut(&Outcome)>(&mut self, events: &[Event], tell: &mut F)
        requires { F.IsAlwaysCallable tell.old }
        ensures { Runs F.FnMut K.can_refuse (state_of K.record_of self.old) tell.old
            (map plain_event events.now) (state_of K.record_of self.new) tell.new }
    {
        let mut outcome = Outcome::empty();
        for event in events {
            self.execute_into(event, &mut outcome);
            tell(&outcome);
        }
    }

    ghost use Rattle.tpm_types_common.specs.Locality.{locality_number};
    ghost use Rattle.tpm_step.specs.step.Events.{Given};

    /// Adds a command's elapsed time to the clock. Then executes the command in the buffer, writes
    /// the response, and returns the row.
    #[tactic(auto, unfolding(tpm_step::specs::step::Step::acceptance_in))]
    fn command(
        &mut self,
        buffer: &[u8],
        locality: Locality,
        elapsed_ms: u32,
        random: &[u8; 256],
        text: &mut Response,
    ) -> Row
        requires empty { text.old.items ≡ [] }
        requires none { latest_drawn self.old ≡ 0 }
        ensures steps { Steps K.can_refuse (state_of K.record_of self.old)
            (Given buffer.now (locality_number locality) elapsed_ms random.now)
            (record {
              response = text.new.items;
              row = result;
              after = state_of K.record_of self.new;
            }) }
        ensures modest { result.check ≡ 0 → IsModestIfAccepted (state_of K.record_of self.old)
            (Given buffer.now (locality_number locality) elapsed_ms random.now) }
        ensures fits { length text.new.items ≤ response_limit }
        ensures drawn { latest_drawn self.new ≡ drawn_by (state_of K.record_of self.old)
            (Given buffer.now (locality_number locality) elapsed_ms random.now) result.check }

        // The event of every command can occur, because of the types of its arguments.
        ensures event { IsEvent
            (Given buffer.now (locality_number locality) elapsed_ms random.now) }
    {
        tick(&mut self.keep, elapsed_ms);
        let mut entries = ArrayVec::new();
        match authorize_command(&self.keep, buffer, locality, &mut self.cache, &mut entries) {
            Ok(authorization) => self.perform(&authorization, locality, random, text),
            Err(refusal) => refuse(&mut self.keep, refusal, text),
        }
    }

    ghost use Rattle.std.specs.Prelude.{Ok};
    ghost use Rattle.tpm_auth.specs.Grant.{authorize};
    ghost use Rattle.tpm_machine.specs.Authorization.{command_in, grants_in};
    ghost use Rattle.tpm_machine.specs.Drawn.{drawn_by_command};
    ghost use Rattle.tpm_step.specs.step.General.{in_command};
    ghost use Rattle.tpm_step.specs.step.Safe.{IsModest};
    ghost use Rattle.tpm_step.specs.step.Step.{Answers, acceptance};

    /// Executes an authorized command.
    #[inline(always)]
    #[tactic(auto, using(crate::proofs::Accepting::acting))]
    fn perform(
        &mut self,
        authorization: &Authorization,
        locality: Locality,
        random: &[u8; 256],
        text: &mut Response,
    ) -> Row
        requires empty { text.old.items ≡ [] }
        requires size { length authorization.now.command.parameters.now ≤ buffer_limit }
        requires granted { authorize (state_of K.record_of self.old) (command_in authorization.now)
            (locality_number locality) ≡ Ok (grants_in authorization.now) }
        requires none { latest_drawn self.old ≡ 0 }
        ensures answer { Answers K.can_refuse (state_of K.record_of self.old) random.now
            (in_command authorization.now.command.code (acceptance (state_of K.record_of self.old)
            (command_in authorization.now) (locality_number locality) random.now))
            (record {
              response = text.new.items;
              row = result;
              after = state_of K.record_of self.new;
            }) }
        ensures modest { result.check ≡ 0 → IfOk (acceptance (state_of K.record_of self.old)
            (command_in authorization.now) (locality_number locality) random.now)
            (IsModest random.now) }
        ensures fits { length text.new.items ≤ response_limit }
        ensures drawn { latest_drawn self.new ≡ drawn_by_command random.now
            (in_command authorization.now.command.code (acceptance (state_of K.record_of self.old)
            (command_in authorization.now) (locality_number locality) random.now)) result.check }
    {
        let (keep, answer) = (&mut self.keep, &mut self.answer);
        let cache = &mut self.cache;
        let code = authorization.command.code;
        match accept(keep, authorization, locality, random, answer) {
            Ok(()) => {
                self.drawn = write_success(keep, authorization, answer, random, cache, text);
                settle(keep, code);
                Row {
                    code: code.number(),
                    check: 0,
                }
            }
            Err(refused) => refuse(keep, RefusedCommand::of(code, refused), text),
        }
    }
}

ghost use Rattle.tpm_types_common.specs.Check.{check_number};
ghost use Rattle.tpm_step.specs.step.Step.{counted_in, settled_record};
ghost use Rattle.tpm_step.specs.step.Answer.{refusal_text};

/// Discards the state that TPM2_Shutdown saved, unless this successful command preserves it.
fn settle<K: Keep>(keep: &mut K, code: CommandCode)
    ensures { K.record_of keep.new ≡ settled_record code (K.record_of keep.old) }
{
    if !code.shape().keeps_shutdown {
        keep.fixed_mut().saved.cancel();
    }
}

/// Updates the dictionary-attack state after a refusal.
fn count<K: Keep>(keep: &mut K, counted: Counted)
    ensures { K.record_of keep.new ≡ counted_in counted (K.record_of keep.old) }
{
    let lockout = &mut keep.fixed_mut().lockout;
    match counted {
        Counted::None => {}
        Counted::Try => lockout.failed(),
        Counted::Lockout => lockout.lockout_failed(),
    }
}

/// Updates the dictionary-attack state after a refusal, writes the response, and returns the row.
fn refuse<K: Keep>(keep: &mut K, refusal: RefusedCommand, text: &mut Response) -> Row
    requires { text.old.items ≡ [] }
    ensures counted { K.record_of keep.new
        ≡ counted_in refusal.refused.counted (K.record_of keep.old) }
    ensures text { text.new.items ≡ refusal_text refusal.refused }
    ensures row { result ≡
        record { code = refusal.code; check = check_number refusal.refused.check } }
    ensures size { length text.new.items ≡ 10 }
{
    count(keep, refusal.refused.counted);
    write_refusal(refusal.refused, text);
    Row {
        code: refusal.code,
        check: refusal.refused.check.number(),
    }
}
