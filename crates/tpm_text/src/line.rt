//! Assembles a line in words into the buffer of a command. Parsing the buffer yields the command
//! that the line encodes.

ghost use Rattle.tpm_types_common.specs.Limits.{buffer_limit};
ghost use Rattle.std.specs.Prelude.{◌≡◌, ◌≤◌, ℕ, List, [], length, IfOk, Ok};
ghost use Rattle.std.specs.List.{flat_map};
ghost use Rattle.tpm_types_command.specs.AuthArea.{entries_text};
ghost use Rattle.tpm_types_command.specs.Command.{Whole, command_size, command_text, handles_text, served_command_at};
ghost use Rattle.tpm_commands.specs.declared.profile.Profile.{Profile};
ghost use Rattle.tpm_text.specs.Draft.{Finishes, drafted_bytes};
ghost use Rattle.tpm_bytes.specs.Reading.{Gives};
ghost use Rattle.tpm_text.specs.TokenReading.{DraftsRead, DraftsSessions, ReadsTokens};
ghost use Rattle.tpm_text.specs.Line.{Assembles, assembled_bytes, assembled_for, end_of_line, entry_tokens_in, handles_in, name_in, parameters_in, spelled_for};
ghost use Rattle.tpm_text.specs.Tokens.{tokens_left};

use crate::draft::Draft;
use crate::entry::{handle_in, put_entry};
use crate::fault::AsmFault;
use crate::parameter::put_parameter;
use crate::token::Tokens;
use std::alloc::Global;
use tpm_commands::{CommandCode, ParameterKind, Profile};
use tpm_types_command::Tag;

/// Writes `count` handles, each from one token.
fn put_handles(count: usize, tokens: &mut Tokens, draft: &mut Draft) -> Result<(), AsmFault>
    ensures { DraftsRead handles_text (handles_in count (tokens_left tokens.old))
        (drafted_bytes draft.old) result (drafted_bytes draft.new) (tokens_left tokens.new) }
{
    if count == 0 {
        return Ok(());
    }
    let token = tokens.wanted()?;
    let handle = token.told(handle_in(token.text))?;
    draft.put(&handle.number.to_be_bytes());
    put_handles(count - 1, tokens, draft)
}

/// Writes at most `most` entries, as long as the next token begins like an entry.
fn put_entries(most: usize, tokens: &mut Tokens, draft: &mut Draft) -> Result<(), AsmFault>
    ensures { DraftsRead entries_text (entry_tokens_in most (tokens_left tokens.old))
        (drafted_bytes draft.old) result (drafted_bytes draft.new) (tokens_left tokens.new) }
{
    if most == 0 {
        return Ok(());
    }
    let Some(token) = tokens.next_entry() else {
        return Ok(());
    };
    token.told(put_entry(token.text, draft))?;
    put_entries(most - 1, tokens, draft)
}

/// Writes one parameter of each of these kinds, each from one token.
fn put_parameters(
    kinds: &[ParameterKind],
    tokens: &mut Tokens,
    draft: &mut Draft,
) -> Result<(), AsmFault>
    ensures { DraftsRead (λ text. text) (parameters_in kinds.now (tokens_left tokens.old))
        (drafted_bytes draft.old) result (drafted_bytes draft.new) (tokens_left tokens.new) }
{
    let Some((kind, others)) = kinds.split_first() else {
        return Ok(());
    };
    let token = tokens.wanted()?;
    token.told(put_parameter(*kind, token.text, draft))?;
    put_parameters(others, tokens, draft)
}

/// Writes the authorization area if the next token begins like an entry. Returns the command's tag,
/// which says whether there is an authorization area.
fn put_authorization(tokens: &mut Tokens, draft: &mut Draft) -> Result<Tag, AsmFault>
    ensures { DraftsSessions (entry_tokens_in 3 (tokens_left tokens.old)) (drafted_bytes draft.old)
        result (drafted_bytes draft.new) (tokens_left tokens.new) }
{
    if !tokens.begins_entry() {
        return Ok(Tag::NoSessions);
    }
    let mut area = Draft::new();
    put_entries(3, tokens, &mut area)?;
    draft.put_area(&area);
    Ok(Tag::Sessions)
}

/// Parses the first token, which names a command that a device of this profile serves.
fn read_name(profile: Profile, tokens: &mut Tokens) -> Result<CommandCode, AsmFault>
    ensures { ReadsTokens (λ code. code) (name_in profile (tokens_left tokens.old)) result
        (tokens_left tokens.new) }
{
    let Some(token) = tokens.next() else {
        return Err(AsmFault::BadName);
    };
    let Some(code) = CommandCode::called(token.text) else {
        return Err(AsmFault::BadName);
    };
    if !profile.serves(code) {
        return Err(AsmFault::BadName);
    }
    Ok(code)
}

/// Checks that no token remains.
fn check_end(tokens: &mut Tokens) -> Result<(), AsmFault>
    ensures { Gives (λ done. done) (end_of_line (tokens_left tokens.old)) result }
{
    match tokens.next() {
        Some(token) => Err(AsmFault::BadField {
            column: token.column,
        }),
        None => Ok(()),
    }
}

/// Returns the buffer of the command of a profile that a line encodes, or the first fault of the line
/// from the left.
pub fn assemble_in<'a>(
    profile: Profile,
    line: &[u8],
    draft: &'a mut Draft,
) -> Result<&'a [u8], AsmFault>
    ensures value { Gives (λ bytes. bytes.now) (assembled_for profile line.now) result }
    ensures fits { IfOk result (λ bytes. length bytes.now ≤ buffer_limit) }
{
    write_command(profile, line, draft)?;
    Ok(draft.as_slice())
}

/// Writes the command of a profile that a line encodes.
fn write_command(profile: Profile, line: &[u8], draft: &mut Draft) -> Result<(), AsmFault>
    ensures { Finishes (assembled_for profile line.now) result (drafted_bytes draft.new) }
{
    let mut tokens = Tokens::of(line);
    let code = read_name(profile, &mut tokens)?;
    let shape = code.shape();
    draft.begin();
    put_handles(shape.handles.len(), &mut tokens, draft)?;
    let tag = put_authorization(&mut tokens, draft)?;
    put_parameters(shape.parameters, &mut tokens, draft)?;
    check_end(&mut tokens)?;
    draft.finish(tag, code)
}

/// Returns the buffer of the command of the symmetric profile that a line encodes. Like
/// [`assemble_for`] with this profile.
pub fn assemble(alloc: Global, line: &str) -> Result<Vec<u8>, AsmFault>
    ensures { Assembles (λ buffer. buffer.items) (assembled_bytes line.now) result }
{
    assemble_for(alloc, Profile::Symmetric, line)
}

/// Returns the buffer of the command of a profile that a line encodes, or the first fault of the line
/// from the left. NoMemory occurs only if the line encodes a command that fits in a buffer.
pub fn assemble_for(alloc: Global, profile: Profile, line: &str) -> Result<Vec<u8>, AsmFault>
    ensures { Assembles (λ buffer. buffer.items) (assembled_for profile line.now) result }
{
    let mut draft = Draft::new();
    let bytes = assemble_in(profile, line.as_bytes(), &mut draft)?;
    let mut buffer = Vec::new(alloc);
    buffer.extend_from_slice(bytes)?;
    Ok(buffer)
}

/// Parsing the buffer of a line yields the command that the line encodes.
pub fn read_back_laws()
    ensures { (profile : Profile) (line : List ℕ) (c : Whole)
        → spelled_for profile line ≡ Ok c → command_size c ≤ buffer_limit
        → served_command_at profile (command_text c) ≡ Ok (c, []) }
{}
