//! Checks a script without running it.

use crate::fault::Fault;
use std::io::Read;
use std::{fs, io};
use tpmsim_image::Subject;
use tpmsim_script::report_of;

/// Prints the fault of each bad line of a script, which is in a file or on standard input. Then
/// returns the result that a run of the script would have.
pub fn check_script(rt: &HostRuntime, script: &str) -> Result<(), Fault> {
    let text = Fault::file(Subject::Script).unless(read(rt, script))?;
    let report = report_of(rt.alloc(), text.as_slice())?;
    let told = report.text.as_str();
    Fault::file(Subject::Output).unless(print!(rt; "{told}"))?;
    Ok(report.end?)
}

/// The bytes of a script.
fn read(rt: &HostRuntime, script: &str) -> io::Result<Vec<u8>> {
    if script == "-" {
        let mut text = Vec::new(rt.alloc());
        rt.stdin().read_to_end(&mut text)?;
        Ok(text)
    } else {
        fs::read(rt, script)
    }
}
