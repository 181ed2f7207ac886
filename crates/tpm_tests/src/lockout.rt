//! Failed tries and lockoutAuth, tested to the millisecond and near the largest possible values.

use super::comparison::check;
use tpm_lockout::{Lockout, LockoutFields};

/// A lockout state with this number of failed tries and a maxTries of 3. Both recoveryTime and
/// lockoutRecovery are `seconds`, and lockoutAuth is disabled.
fn locked(failed_tries: u32, seconds: u32) -> Lockout {
    Lockout::restore(LockoutFields {
        failed_tries,
        max_tries: 3,
        recovery_time: seconds,
        lockout_recovery: seconds,
        closed: true,
    })
}

fn tries(lockout: &Lockout) -> u32 {
    lockout.fields().failed_tries
}

#[test]
fn three_tries_lock_for_a_thousand_seconds(rt: HostRuntime) {
    let mut lockout = Lockout::new();
    lockout.failed();
    lockout.failed();
    check(&rt, lockout.is_locked(), false);
    lockout.failed();
    check(&rt, lockout.is_locked(), true);
    lockout.failed();
    check(&rt, tries(&lockout), 3);
    lockout.tick(999_999);
    check(&rt, lockout.is_locked(), true);
    lockout.tick(1);
    check(&rt, (tries(&lockout), lockout.is_locked()), (2, false));
}

#[test]
fn lockout_auth_closes_for_a_thousand_seconds(rt: HostRuntime) {
    let mut lockout = Lockout::new();
    lockout.lockout_failed();
    lockout.tick(999_999);
    lockout.lockout_failed();
    check(&rt, lockout.lockout_closed(), true);
    lockout.tick(1);
    check(&rt, lockout.lockout_closed(), false);
}

#[test]
fn times_begin_anew(rt: HostRuntime) {
    let mut lockout = locked(2, 1);
    lockout.tick(999);
    lockout.power_cycle();
    lockout.tick(999);
    check(&rt, (tries(&lockout), lockout.lockout_closed()), (2, true));
    lockout.set_parameters(3, 1, 1);
    lockout.tick(999);
    check(&rt, (tries(&lockout), lockout.lockout_closed()), (2, true));
    lockout.reset();
    lockout.lockout_open();
    check(&rt, (tries(&lockout), lockout.lockout_closed()), (0, false));
}

#[test]
fn the_longest_elapsed_time_forgives_many(rt: HostRuntime) {
    let mut lockout = locked(5_000_000, 1);
    // 4,294,967 seconds elapse, and 295 milliseconds remain
    lockout.tick(u32::MAX);
    check(&rt, tries(&lockout), 705_033);
    lockout.tick(704);
    check(&rt, tries(&lockout), 705_033);
    lockout.tick(1);
    check(&rt, tries(&lockout), 705_032);
}

#[test]
fn the_longest_times_end(rt: HostRuntime) {
    let mut lockout = locked(u32::MAX, u32::MAX);
    for _ in 0..999 {
        lockout.tick(u32::MAX);
    }
    check(
        &rt,
        (tries(&lockout), lockout.lockout_closed()),
        (u32::MAX, true),
    );
    lockout.tick(u32::MAX);
    check(
        &rt,
        (tries(&lockout), lockout.lockout_closed()),
        (u32::MAX - 1, false),
    );
}
