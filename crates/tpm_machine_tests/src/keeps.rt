//! Trials: each test is written once for all types that implement `Keep`, and runs with two of
//! these types.

use std::alloc::Global;
use std::process::Abort;
use std::test::Fail;
use tpm_lists::{Task, run_over_lists};
use tpm_record::Keep;
use tpm_slots::SlotKeep;

/// A test that can run with any type that implements `Keep`.
pub trait Trial {
    fn run<K: Keep, R: Abort>(rt: &R, alloc: Global) -> Result<(), Fail>;
}

/// A trial and its input.
#[derive(Drop)]
struct Given<'a, T, R> {
    trial: T,
    rt: &'a R,
    alloc: Global,
}

impl<T: Trial + Drop, R: Abort> Task<Fail> for Given<'_, T, R> {
    ghost may_give = { λ _ _. Unit {0} };

    fn run<K: Keep>(self) -> Result<(), Fail> {
        T::run::<K, R>(self.rt, self.alloc)
    }
}

/// Runs a trial twice: with the state in fixed slots, and with the state in lists.
pub fn run_over_both<T: Trial + Drop, R: Abort>(
    trial: T,
    rt: &R,
    alloc: Global,
) -> Result<(), Fail> {
    T::run::<SlotKeep, R>(rt, alloc)?;
    run_over_lists(Given { trial, rt, alloc })
}
