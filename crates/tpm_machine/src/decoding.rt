//! Decodes a command's buffer, with the general checks that precede authorization. The first failed
//! check determines the refusal.

ghost use Rattle.tpm_types_common.specs.Limits.{buffer_limit};
ghost use Rattle.tpm_bytes.specs.Reading.{AreBytes, Gives};
ghost use Rattle.std.specs.Prelude.{◌≡◌, ◌≤◌, [], Ok, IfOk, length};
ghost use Rattle.tpm_bytes.specs.Reading.{Reads};
ghost use Rattle.tpm_commands.specs.CommandCode.{code_number, handle_count};
ghost use Rattle.tpm_record.specs.Resolved.{AreFound, found_at, found_by};
ghost use Rattle.tpm_types_command.specs.Command.{command_at, whole_of};
ghost use Rattle.tpm_types_common.specs.Refused.{refusal};
ghost use Rattle.tpm_step.specs.step.General.{body_of, general, header_check, header_refusal, in_command, present_handle_at, present_handles_at, sessions_pass};

use arrayvec::ArrayVec;
use tpm_bytes::{Cursor, ReadableBy};
use tpm_commands::{CommandCode, HandleRule};
use tpm_record::{Keep, Resolved, absence_rc, resolve};
use tpm_step::RefusedCommand;
use tpm_types_command::{AuthEntry, CommandRef, Header, HeaderFault, Tag, read_sessions};
use tpm_types_common::{Check, Handle, Rc, Refused, ResponseCode};

fn header_check(fault: HeaderFault) -> Check
    ensures { result ≡ header_check fault }
{
    match fault {
        HeaderFault::Length => Check::Length,
        HeaderFault::Tag => Check::Tag,
        HeaderFault::Size => Check::Size,
        HeaderFault::Code => Check::Code,
    }
}

fn header_refusal(fault: HeaderFault) -> RefusedCommand
    ensures { result ≡ header_refusal fault }
{
    RefusedCommand {
        code: 0,
        refused: Refused::by(header_check(fault), fault.rc()),
    }
}

/// Builds the refusal of a command from the failed check and the response code.
fn refusal_by(code: CommandCode, check: Check, rc: Rc) -> RefusedCommand
    ensures { result
        ≡ record { code = code_number code; refused = refusal check rc } }
{
    RefusedCommand::of(code, Refused::by(check, rc))
}

/// Refuses a command with sessions if the command must not have any, and a command without sessions
/// if one of its handles needs authorization.
#[tactic(auto, unfolding(tpm_step::specs::step::General::sessions_pass))]
fn check_tag(code: CommandCode, tag: Tag) -> Result<(), Refused>
    ensures { result ≡ sessions_pass code tag }
{
    let has_sessions = tag == Tag::Sessions;
    if has_sessions && code.shape().forbids_sessions {
        let rc = ResponseCode::AuthContext.anywhere();
        return Err(Refused::by(Check::Sessions, rc));
    }
    if !has_sessions && code.authorized_handles() > 0 {
        let rc = ResponseCode::AuthMissing.anywhere();
        return Err(Refused::by(Check::Sessions, rc));
    }
    Ok(())
}

/// Reads the handle with this number, counted from 1, and looks up its entity. The rule must allow
/// the handle, and the entity must exist.
#[tactic(auto, unfolding(tpm_step::specs::step::General::present_handle_at, tpm_record::specs::Entity::is_present))]
fn read_handle<'k, K: Keep>(
    keep: &'k K,
    number: u8,
    rule: &HandleRule,
    text: &mut Cursor,
) -> Result<Resolved<'k>, Rc>
    ensures exact { Reads (λ resolved. resolved.handle)
        (present_handle_at (K.record_of keep.now) number rule.now text.old)
        text.old result text.new }
    ensures found { IfOk result (λ resolved. found_by resolved
        ≡ found_at (K.record_of keep.now) resolved.handle) }
{
    let mut ahead = Cursor::new(text.rest());
    let handle = Handle::read(number, rule, &mut ahead)?;
    let resolved = resolve(keep, handle);
    if !resolved.is_present(keep) {
        return Err(absence_rc(number, handle));
    }
    *text = ahead;
    Ok(resolved)
}

/// Reads the handles of a command, and looks up their entities.
fn read_handles<'k, K: Keep>(
    keep: &'k K,
    code: CommandCode,
    text: &mut Cursor,
    entities: &mut ArrayVec<Resolved<'k>, 3>,
) -> Result<ArrayVec<Handle, 3>, Rc>
    requires { entities.old.items ≡ [] }
    ensures exact { Reads (λ handles. handles.items)
        (present_handles_at (K.record_of keep.now) code text.old) text.old result text.new }
    ensures all { IfOk result (λ handles. length handles.items ≡ handle_count code) }
    ensures found { IfOk result (λ handles. AreFound (K.record_of keep.now) entities.new.items
        handles.items) }
{
    let mut ahead = Cursor::new(text.rest());
    let mut handles = ArrayVec::new();
    let mut number = 1;
    let rules = code.shape().handles;
    for rule in rules {
        let resolved = read_handle(keep, number, rule, &mut ahead)?;
        handles.push(resolved.handle);
        entities.push(resolved);
        number += 1;
    }
    *text = ahead;
    Ok(handles)
}

/// Decodes the bytes after a command's header, or returns the refusal of the first check that
/// fails.
#[tactic(auto, unfolding(tpm_step::specs::step::General::body_of))]
fn decode_body<'a, 'b, 'k, K: Keep>(
    keep: &'k K,
    header: Header,
    mut text: Cursor<'b>,
    entries: &'a mut ArrayVec<AuthEntry<'b>, 3>,
    entities: &mut ArrayVec<Resolved<'k>, 3>,
) -> Result<CommandRef<'a, 'b>, RefusedCommand>
    requires entries { entries.old.items ≡ [] }
    requires entities { entities.old.items ≡ [] }
    ensures decoded { Gives whole_of (in_command header.code
        (body_of (K.record_of keep.now) header text.entry)) result }
    ensures found { IfOk result (λ command. AreFound (K.record_of keep.now) entities.new.items
        (whole_of command).handles) }
{
    let code = header.code;
    let is_startup = code.number() == CommandCode::Startup.number();
    if keep.fixed().started == is_startup {
        let rc = ResponseCode::Initialize.anywhere();
        return Err(refusal_by(code, Check::Started, rc));
    }
    let handles = match read_handles(keep, code, &mut text, entities) {
        Ok(handles) => handles,
        Err(rc) => return Err(refusal_by(code, Check::Handles, rc)),
    };
    if let Err(refused) = check_tag(code, header.tag) {
        return Err(RefusedCommand::of(code, refused));
    }
    match read_sessions(&mut text, header.tag, entries) {
        Ok(()) => Ok(CommandRef {
            code,
            handles,
            entries: entries.as_slice(),
            parameters: text.rest(),
        }),
        Err(rc) => Err(refusal_by(code, Check::Entries, rc)),
    }
}

#[inline(always)]
#[tactic(auto, unfolding(tpm_step::specs::step::General::general))]
fn decode_whole<'a, 'b, 'k, K: Keep>(
    keep: &'k K,
    buffer: &'b [u8],
    entries: &'a mut ArrayVec<AuthEntry<'b>, 3>,
    entities: &mut ArrayVec<Resolved<'k>, 3>,
) -> Result<CommandRef<'a, 'b>, RefusedCommand>
    requires entries { entries.old.items ≡ [] }
    requires entities { entities.old.items ≡ [] }
    ensures decoded { Gives whole_of (general (K.record_of keep.now) buffer.now) result }
    ensures found { IfOk result (λ command. AreFound (K.record_of keep.now) entities.new.items
        (whole_of command).handles) }
    ensures bytes { AreBytes buffer.now }
{
    let mut text = Cursor::new(buffer);
    match Header::read(&mut text) {
        Ok(header) => {
            if !keep.fixed().profile.serves(header.code) {
                return Err(header_refusal(HeaderFault::Code));
            }
            decode_body(keep, header, text, entries, entities)
        }
        Err(fault) => Err(header_refusal(fault)),
    }
}

/// Decodes a command's buffer, or returns the refusal of the first general check that fails. The
/// command borrows its entries from the array `entries`, which must be empty. Adds the entities of
/// the command's handles, each of which is looked up once.
#[tactic(auto, using(crate::proofs::DecodingLaws::decodes_reads, crate::proofs::DecodingLaws::decodes_short))]
pub fn decode<'a, 'b, 'k, K: Keep>(
    keep: &'k K,
    buffer: &'b [u8],
    entries: &'a mut ArrayVec<AuthEntry<'b>, 3>,
    entities: &mut ArrayVec<Resolved<'k>, 3>,
) -> Result<CommandRef<'a, 'b>, RefusedCommand>
    requires entries { entries.old.items ≡ [] }
    requires entities { entities.old.items ≡ [] }
    ensures decoded { Gives whole_of (general (K.record_of keep.now) buffer.now) result }
    ensures found { IfOk result (λ command. AreFound (K.record_of keep.now) entities.new.items
        (whole_of command).handles) }

    // The whole buffer encodes the decoded command.
    ensures read { IfOk result (λ command. command_at buffer.now ≡ Ok (whole_of command, [])) }
    ensures short { IfOk result (λ command. length command.parameters.now ≤ buffer_limit) }
{
    decode_whole(keep, buffer, entries, entities)
}
