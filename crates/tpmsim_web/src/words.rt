//! The exports that convert commands and response codes to and from words. None of them needs a
//! device.

ghost use Rattle.std.specs.Prelude.{◌≡◌, ◌≢◌, ℕ, Err, List, Ok, take};
ghost use Rattle.std.specs.Option.{MatchOption, option_or};
ghost use Rattle.std.specs.Prelude.{option_map, unwrap_or};
ghost use Rattle.tpm_commands.specs.CommandCode.{code_called, code_number};
ghost use Rattle.tpm_help.specs.Form.{form_of};
ghost use Rattle.tpm_help.specs.ResponseCode.{told_of};
ghost use Rattle.tpm_help.specs.Wanted.{word_at};
ghost use Rattle.tpm_image_text.specs.Saving.{PutsFront};
ghost use Rattle.tpm_text.specs.Line.{assembled_bytes};
ghost use Rattle.tpm_text.specs.declared.fault.AsmFault.{AsmFault as Fault};
ghost use Rattle.tpmsim_web.specs.Place.{place_number};
ghost use Rattle.tpmsim_web.specs.Reading.{TellsFault};
ghost use Rattle.tpmsim_web.specs.Words.{symmetric_named};

use crate::front::put_front;
use crate::read_line::{ReadLine, WORDS};
use arrayvec::ArrayString;
use tpm_commands::{CommandCode, Profile};
use tpm_help::{example_of, form_text, meaning_of, word_at};
use tpm_line::{LINE_LIMIT, write_line};
use tpm_text::{Draft, assemble_in};
use tpm_types_common::rc::Place;

/// Assembles a command in words, and writes the result to the start of a buffer. Returns 0 on
/// success. Otherwise, returns the number of the first error, and also writes what was expected.
#[unsafe(no_mangle)]
pub extern "C" fn line_assemble(
    words: &[u8],
    command: &mut [u8; 4096],
    wanted: &mut [u8; 64],
    read: &mut ReadLine,
) -> u8
    ensures told { result ≡ read.new.fault }
    ensures good { result ≡ 0 → (read.new.kind ≡ 2)
        × (assembled_bytes words.now ≡ Ok (take read.new.size command.new)) }
    ensures bad { result ≢ 0 → (fault : Fault) × (assembled_bytes words.now ≡ Err fault)
        × TellsFault fault (word_at words.now fault) read.new wanted.old wanted.new
        × (command.new ≡ command.old) }
{
    let mut draft = Draft::new();
    match assemble_in(Profile::Symmetric, words, &mut draft) {
        Ok(bytes) => {
            let (front, _) = command.split_at_mut(bytes.len());
            front.copy_from_slice(bytes);
            *read = ReadLine::good(WORDS, 0, bytes.len());
        }
        Err(fault) => *read = ReadLine::bad(fault, word_at(words, fault), wanted),
    }
    read.fault
}

/// Finds a line in words that assembles to this command, and writes it to the start of a buffer, if
/// it fits. Returns the size of the line, even if it does not fit, or 0 if no line is found. The
/// contract does not specify when no line is found.
#[unsafe(no_mangle)]
pub extern "C" fn line_spell(command: &[u8], buffer: &mut [u8]) -> usize
    ensures spells { result ≢ 0 → (line : List ℕ) × (assembled_bytes line ≡ Ok command.now)
        × PutsFront line buffer.old result buffer.new }
    ensures none { result ≡ 0 → buffer.new ≡ buffer.old }
{
    let mut line: ArrayString<LINE_LIMIT> = ArrayString::new();
    match write_line(command, &mut line) {
        Ok(()) => put_front(line.as_str().as_bytes(), buffer),
        Err(_) => 0,
    }
}

/// Returns the code of the command with this name, or 0 if no command has this name.
#[unsafe(no_mangle)]
pub extern "C" fn command_number(name: &[u8]) -> u32
    ensures { result ≡ unwrap_or (option_map code_number (code_called name.now)) 0 }
{
    match CommandCode::called(name) {
        Some(code) => code.number(),
        None => 0,
    }
}

/// Returns the command of the symmetric profile with this code.
fn symmetric_named(number: u32) -> Option<CommandCode>
    ensures { result ≡ symmetric_named number }
{
    let code = CommandCode::named(number)?;
    if Profile::Symmetric.serves(code) {
        Some(code)
    } else {
        None
    }
}

/// Writes the syntax of the command of the symmetric profile with this code, in words, to the start
/// of a buffer, if it fits. Returns the size of the syntax, even if it does not fit, or 0 if there is
/// no such command.
#[unsafe(no_mangle)]
pub extern "C" fn command_form(number: u32, form: &mut [u8; 256]) -> usize
    ensures { MatchOption (symmetric_named number) ((result ≡ 0) × (form.new ≡ form.old))
        (λ code. PutsFront (form_of code) form.old result form.new) }
{
    match symmetric_named(number) {
        Some(code) => put_front(form_text(code).as_str().as_bytes(), form),
        None => 0,
    }
}

/// Writes an example for the command of the symmetric profile with this code (the words after the
/// command's name) to the start of a buffer, if it fits. Returns the size of the example, even if it
/// does not fit, or 0 if there is no such command.
#[unsafe(no_mangle)]
pub extern "C" fn command_example(number: u32, example: &mut [u8; 256]) -> usize
    ensures { MatchOption (symmetric_named number)
        ((result ≡ 0) × (example.new ≡ example.old))
        (λ code. (text : List ℕ) × PutsFront text example.old result example.new) }
{
    match symmetric_named(number) {
        Some(code) => put_front(example_of(code).as_bytes(), example),
        None => 0,
    }
}

/// Writes the name of a response code to the start of a buffer, if it fits. Reports the handle,
/// parameter or session to which the code refers. Returns the size of the name, even if it does not
/// fit. If there is no such code, returns 0 and writes nothing.
#[unsafe(no_mangle)]
pub extern "C" fn code_meaning(code: u32, name: &mut [u8; 64], place: &mut u32) -> usize
    ensures { MatchOption (told_of code)
        ((result ≡ 0) × (name.new ≡ name.old) × (place.new ≡ place.old))
        (λ told. PutsFront told.0 name.old result name.new
        × (place.new ≡ place_number told.1)) }
{
    match meaning_of(code) {
        Some(meaning) => {
            *place = place_number(meaning.place);
            put_front(meaning.name.as_bytes(), name)
        }
        None => 0,
    }
}

/// Returns one number for the handle, parameter or session to which a response code refers.
fn place_number(place: Place) -> u32
    ensures { result ≡ place_number place }
{
    match place {
        Place::Nowhere => 0,
        Place::Handle(number) => 0x100 + u32::from(number),
        Place::Parameter(number) => 0x200 + u32::from(number),
        Place::Session(number) => 0x300 + u32::from(number),
    }
}
