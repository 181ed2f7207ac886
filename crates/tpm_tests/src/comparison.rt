//! The comparison that every test uses. The prover proves an `assert!` again at each use. Proving a
//! call of this function takes a tenth of the time.

use std::process::Abort;

/// Aborts the test if the actual value is not the expected value.
pub fn check<R: Abort, T: PartialEq + Drop>(rt: &R, found: T, wanted: T) {
    assert!(rt; found == wanted);
}
