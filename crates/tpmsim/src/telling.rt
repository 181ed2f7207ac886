//! Prints commands, in hex and in words, and the meaning of response codes.

use crate::fault::Fault;
use hex::FromHexError;
use tpm_commands::{CommandCode, Profile};
use tpm_help::{example_of, form_of, hex_number, meaning_of};
use tpm_line::line_of;
use tpm_text::assemble_for;
use tpmsim_image::Subject;

/// Prints, in hex, the command of a profile that a line in words encodes.
pub fn print_assembled(rt: &HostRuntime, profile: Profile, line: &str) -> Result<(), Fault> {
    let buffer = assemble_for(rt.alloc(), profile, line)?;
    let text = hex::encode(rt.alloc(), buffer)?;
    Fault::file(Subject::Output).unless(println!(rt; "{text}"))
}

/// Prints the line in words that encodes the same command as these hex digits.
pub fn print_spelled(rt: &HostRuntime, digits: &str) -> Result<(), Fault> {
    let buffer = buffer_of(rt, digits)?;
    let text = line_of(rt.alloc(), buffer.as_slice())?;
    Fault::file(Subject::Output).unless(println!(rt; "{text}"))
}

/// Returns the buffer that hex digits of either case encode.
fn buffer_of(rt: &HostRuntime, digits: &str) -> Result<Vec<u8>, Fault> {
    match hex::decode(rt.alloc(), digits) {
        Ok(buffer) => Ok(buffer),
        Err(FromHexError::OutOfMemory) => Err(Fault::Memory),
        Err(_) => Err(Fault::Usage),
    }
}

/// Prints the form of a command in words, and an example; without a name, prints these for every
/// command of the symmetric profile. A name that is not the name of a command is a usage fault.
pub fn print_forms(rt: &HostRuntime, name: Option<&str>) -> Result<(), Fault> {
    match name {
        Some(name) => {
            let code = CommandCode::called(name.as_bytes()).ok_or(Fault::Usage)?;
            print_form(rt, code)
        }
        None => print_all_forms(rt),
    }
}

fn print_all_forms(rt: &HostRuntime) -> Result<(), Fault> {
    for code in CommandCode::ALL {
        if Profile::Symmetric.serves(*code) {
            print_form(rt, *code)?;
        }
    }
    Ok(())
}

/// Prints the form of a command, and on the next line, indented, its example.
fn print_form(rt: &HostRuntime, code: CommandCode) -> Result<(), Fault> {
    let form = form_of(rt.alloc(), code)?;
    let name = code.name();
    let example = example_of(code);
    let space = if example.is_empty() { "" } else { " " };
    Fault::file(Subject::Output).unless(println!(rt; "{form}\n    {name}{space}{example}"))
}

/// Prints the name of the response code with these hex digits, and the handle, parameter or session
/// that it identifies. A number that is not a response code is a usage fault.
pub fn print_code(rt: &HostRuntime, digits: &str) -> Result<(), Fault> {
    let number = hex_number(digits.as_bytes()).ok_or(Fault::Usage)?;
    let meaning = meaning_of(number).ok_or(Fault::Usage)?;
    Fault::file(Subject::Output).unless(println!(rt; "{meaning}"))
}
