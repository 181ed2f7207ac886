//! A keeper that cuts off damage. If a call finds a damaged journal, the keeper cuts off the damage
//! and begins the call again.

ghost use Rattle.std.specs.Prelude.{◌≡◌, OnErr, OnOk};
ghost use Rattle.tpm_keeping.specs.Cutting.{caller_after_ask, caller_of, goes_on, idle, next_call};
ghost use Rattle.tpm_keeping.specs.Holder.{Starved, newborn};
ghost use Rattle.tpm_keeping.specs.View.{ask_of, told_of};

use crate::device::{Device, Exhausted};
use crate::holder::{End, Fault, Force, Job, Phase};
use crate::keeper::{Ask, Got, Keeper};
use std::alloc::Global;
use std::mem;

/// What happens if a call finds damage.
#[derive(Clone, Copy, PartialEq, Eq)]
pub enum OnDamage {
    /// The call ends with the fault.
    Ends,
    /// The damage is cut off, and then the call begins again.
    IsCut,
    /// The damage is being cut off. Then the call begins again.
    BeginsAgain,
}

/// A keeper, and the call that begins again after damage was cut off.
#[derive(Drop)]
pub struct CuttingKeeper<D: Device> {
    pub(crate) keeper: Keeper<D>,
    pub(crate) alloc: Global,
    pub(crate) on_damage: OnDamage,
    pub(crate) job: Job,
    pub(crate) command: Vec<u8>,
}

impl<D: Device> CuttingKeeper<D> {
    /// Creates a keeper that has not looked at any file yet. The keeper restarts a journal when the
    /// journal's size has reached both `limit` and twice the size of a new journal's head.
    pub fn new(alloc: Global, force: Force, limit: u64) -> CuttingKeeper<D>
        ensures { caller_of D.spot result ≡ idle (newborn force limit) }
    {
        CuttingKeeper {
            keeper: Keeper::new(alloc, force, limit),
            alloc,
            on_damage: OnDamage::Ends,
            job: Job::Show,
            command: Vec::new(alloc),
        }
    }

    /// Begins a call. If the call finds damage and `cuts` is true, the damage is cut off and the
    /// call begins again; if `cuts` is false, the call ends with the fault. On `Err`, nothing has
    /// changed.
    pub fn begin(&mut self, cuts: bool, job: Job, command: Vec<u8>) -> Result<(), Exhausted>
        ensures ok { OnOk result (caller_of D.spot self.new
            ≡ caller_after_ask cuts job command.items (caller_of D.spot self.old).holder) }
        ensures err { OnErr result (self.new ≡ self.old) }
    {
        if cuts {
            let Ok(again) = Vec::from_slice(self.alloc, &command) else {
                return Err(Exhausted);
            };
            self.command = again;
            self.on_damage = OnDamage::IsCut;
        } else {
            self.command = Vec::new(self.alloc);
            self.on_damage = OnDamage::Ends;
        }
        self.job = job;
        self.keeper.begin_with(job, command);
        Ok(())
    }

    /// Returns what the host has to do next.
    pub fn ask(&self) -> Ask
        ensures { result ≡ ask_of (caller_of D.spot self.now).holder }
    {
        self.keeper.ask()
    }

    /// Returns the keeper's current or last job: either the job of the call, or `Cut`.
    pub fn job(&self) -> Job
        ensures { result ≡ (caller_of D.spot self.now).holder.job }
    {
        self.keeper.job
    }

    /// Returns the bytes that the host has to write for a `Put` or a `Make`.
    pub fn out(&self) -> &[u8]
        ensures { result.now ≡ (caller_of D.spot self.now).holder.out }
    {
        self.keeper.out()
    }

    /// Returns the response of the last call, if that call succeeded.
    pub fn response(&self) -> &[u8]
        ensures { result.now ≡ (caller_of D.spot self.now).holder.response }
    {
        self.keeper.response()
    }

    /// Accepts the host's report and does the next step. On `Err`, an allocation failed, and the
    /// keeper's call ends.
    pub fn next(&mut self, got: Got<'_>) -> Result<(), Exhausted>
        ensures ok { OnOk result (caller_of D.spot self.new
            ≡ next_call D.journal (caller_of D.spot self.old) (told_of got.entry)) }
        ensures err { OnErr result (caller_of D.spot self.new
            ≡ next_call D.journal (caller_of D.spot self.old) Starved) }
    {
        let next = self.keeper.next(got);
        self.goes_on();
        next
    }

    /// If the call that ended found damage that has to be cut off, begins the job `Cut`. If this
    /// job succeeded, begins the original call again.
    fn goes_on(&mut self)
        ensures { caller_of D.spot self.new ≡ goes_on (caller_of D.spot self.old) }
    {
        match (self.on_damage, self.keeper.phase) {
            (OnDamage::IsCut, Phase::Ended(End::Failed(Fault::Damaged))) => {
                self.on_damage = OnDamage::BeginsAgain;
                self.keeper.begin_with(Job::Cut, Vec::new(self.alloc));
            }
            (OnDamage::BeginsAgain, Phase::Ended(End::Done)) => {
                self.on_damage = OnDamage::Ends;
                let command = mem::replace(&mut self.command, Vec::new(self.alloc));
                self.keeper.begin_with(self.job, command);
            }
            _ => {}
        }
    }
}
