//! Writes the responses to refused commands, and to successful commands with or without entries.

ghost use Rattle.tpm_types_common.specs.Limits.{answer_limit, buffer_limit, response_limit};
ghost use Rattle.std.specs.Prelude.{◌≡◌, ◌+◌, ◌≤◌, ◌++◌, [], length, map};
ghost use Rattle.std.specs.Int.{w16, w32, to_be_bytes};
ghost use Rattle.std.specs.List.{zip};
ghost use Rattle.tpm_types_command.specs.AuthEntry.{entry_of};
ghost use Rattle.tpm_machine.specs.Authorization.{command_in, grants_in};
ghost use Rattle.tpm_machine.specs.Drawn.{bytes_drawn};
ghost use Rattle.tpm_step.specs.step.Answer.{answer_to, framed_message, handle_answer, refusal_tag, refusal_text, text_of};
ghost use Rattle.tpm_step.specs.step.Entries.{DrawsFew};
ghost use Rattle.tpm_step.specs.step.Parameters.{encrypted_answer};

use crate::authorization::Authorization;
use crate::draws::Draws;
use crate::entries::{ENTRY_ANSWERS_LIMIT, answer_entries, end_entries, roll_entries};
use crate::parameters::pass_parameters;
use tpm_auth::{Cache, Grant};
use tpm_bytes::{Sink, append};
use tpm_record::Keep;
use tpm_record::rows::answer::{Answer, Parameters};
use tpm_session::{HashedParameters, ParameterHashes};
use tpm_step::{Direction, Response};
use tpm_types_command::{AuthEntry, HEADER_SIZE, Tag};
use tpm_types_common::{ANSWER_LIMIT, Check, Handle, Refused};

/// The tag of the response to a command with an unknown tag (TPM_ST_RSP_COMMAND, TPM 2.0 Library,
/// Part 2, section 6.9).
const BAD_TAG_RESPONSE: u16 = 0x00c4;

fn write_header(tag: u16, size: usize, code: u32, text: &mut Response)
    requires size { size ≤ buffer_limit }
    requires empty { text.old.items ≡ [] }
    ensures { text.new.items ≡ to_be_bytes w16 tag ++ to_be_bytes w32 size ++ to_be_bytes w32 code }
{
    append(text, &tag.to_be_bytes());
    append(text, &(size as u32).to_be_bytes());
    append(text, &code.to_be_bytes());
}

fn refusal_tag(check: Check) -> u16
    ensures { result ≡ refusal_tag check }
{
    match check {
        Check::Tag => BAD_TAG_RESPONSE,
        _ => Tag::NoSessions.number(),
    }
}

/// Writes the response to a refused command.
#[tactic(auto, using(crate::proofs::Answering::framed_alone))]
pub fn write_refusal(refused: Refused, text: &mut Response)
    requires { text.old.items ≡ [] }
    ensures text { text.new.items ≡ refusal_text refused }
    ensures size { length text.new.items ≡ 10 }
{
    write_header(
        refusal_tag(refused.check),
        HEADER_SIZE,
        refused.rc.number(),
        text,
    );
}

fn handle_size(handle: Option<Handle>) -> usize
    ensures size { result ≡ length (handle_answer handle) }
    ensures small { result ≤ 4 }
{
    match handle {
        None => 0,
        Some(_) => 4,
    }
}

fn write_handle(handle: Option<Handle>, text: &mut Response)
    requires { length text.old.items ≤ 10 }
    ensures { text.new.items ≡ text.old.items ++ handle_answer handle }
{
    if let Some(handle) = handle {
        append(text, &handle.number.to_be_bytes());
    }
}

/// Writes the response to a successful command without entries.
fn write_plain(handle: Option<Handle>, parameters: &[u8], text: &mut Response)
    requires empty { text.old.items ≡ [] }
    requires parameters { length parameters.now ≤ ANSWER_LIMIT }
    ensures text { text.new.items ≡ framed_message 0x8001 0
        (handle_answer handle ++ parameters.now) }
    ensures fits { length text.new.items ≤ 10 + 4 + answer_limit }
{
    let size = HEADER_SIZE + handle_size(handle) + parameters.len();
    write_header(Tag::NoSessions.number(), size, 0, text);
    write_handle(handle, text);
    append(text, parameters);
}

/// Writes the response to a successful command with entries. `area` contains the answers to the
/// entries.
fn write_with_area(handle: Option<Handle>, parameters: &[u8], area: &[u8], text: &mut Response)
    requires empty { text.old.items ≡ [] }
    requires parameters { length parameters.now ≤ ANSWER_LIMIT }
    requires area { length area.now ≤ ENTRY_ANSWERS_LIMIT }
    ensures text { text.new.items ≡ framed_message 0x8002 0 (handle_answer handle
        ++ to_be_bytes w32 (length parameters.now) ++ parameters.now ++ area.now) }
    ensures fits { length text.new.items ≤ response_limit }
{
    let size = HEADER_SIZE + handle_size(handle) + 4 + parameters.len() + area.len();
    write_header(Tag::Sessions.number(), size, 0, text);
    write_handle(handle, text);
    append(text, &(parameters.len() as u32).to_be_bytes());
    append(text, parameters);
    append(text, area);
}

/// Encrypts the first parameter of an answer in place, if the attributes of an entry ask for
/// encryption.
fn encrypt_answer<K: Keep>(
    keep: &K,
    entries: &[AuthEntry],
    grants: &[Option<Grant>],
    parameters: &mut Parameters,
)
    ensures encrypted { parameters.new ≡ encrypted_answer (K.record_of keep.now)
        (zip (map entry_of entries.now) grants.now) parameters.old }
    // The parameters always fit the buffer of an answer.
    ensures room { length parameters.old ≤ ANSWER_LIMIT }
{
    let text = parameters.as_mut_slice();
    pass_parameters(Direction::Encrypt, keep, entries, grants, text);
}

/// Writes the response to a successful command with entries. Renews the nonces of the entries'
/// sessions, and ends the sessions that do not continue. Returns how many random bytes the command
/// drew.
#[inline(never)]
fn write_with_sessions<K: Keep>(
    keep: &mut K,
    authorization: &Authorization,
    answer: &mut Answer,
    random: &[u8; 256],
    cache: &mut Cache,
    text: &mut Response,
) -> usize
    requires empty { text.old.items ≡ [] }
    requires some { 1 ≤ length (map entry_of authorization.now.command.entries.now) }
    ensures answer { record { response = text.new.items; after = K.record_of keep.new }
        ≡ answer_to (command_in authorization.now) (grants_in authorization.now)
        (text_of answer.old) (K.record_of keep.old) random.now }
    ensures drawn { DrawsFew random.now (K.record_of keep.old)
        (command_in authorization.now).entries answer.old.drawn }
    ensures count { result ≡ bytes_drawn random.now (K.record_of keep.old)
        (command_in authorization.now).entries answer.old.drawn }
    ensures room { length answer.old.parameters ≤ ANSWER_LIMIT }
    ensures fits { length text.new.items ≤ response_limit }
{
    let command = &authorization.command;
    let entries = command.entries;
    let grants = authorization.grants.grants.as_slice();
    let mut draws = Draws::new(&random[answer.drawn..]);
    roll_entries(keep, entries, &mut draws);
    let drawn = random.len() - draws.len();
    encrypt_answer(keep, entries, grants, &mut answer.parameters);
    let parameters = answer.parameters.as_slice();
    let hashed = HashedParameters::Response(command.code.number(), parameters);
    let mut hashes = ParameterHashes::new(hashed);
    let mut area = Sink::new();
    answer_entries(keep, &mut hashes, cache, entries, grants, &mut area);
    write_with_area(answer.handle, parameters, area.as_slice(), text);
    end_entries(keep, entries, grants);
    drawn
}

/// Writes the response to a successful command, and returns how many random bytes the command drew.
#[tactic(auto, unfolding(tpm_step::specs::step::Answer::success_text, tpm_step::specs::step::Answer::answer_to))]
pub fn write_success<K: Keep>(
    keep: &mut K,
    authorization: &Authorization,
    answer: &mut Answer,
    random: &[u8; 256],
    cache: &mut Cache,
    text: &mut Response,
) -> usize
    requires empty { text.old.items ≡ [] }
    ensures answer { record { response = text.new.items; after = K.record_of keep.new }
        ≡ answer_to (command_in authorization.now) (grants_in authorization.now)
        (text_of answer.old) (K.record_of keep.old) random.now }
    ensures drawn { DrawsFew random.now (K.record_of keep.old)
        (command_in authorization.now).entries answer.old.drawn }
    ensures count { result ≡ bytes_drawn random.now (K.record_of keep.old)
        (command_in authorization.now).entries answer.old.drawn }
    // The parameters of an answer always fit its buffer, which has this size.
    ensures room { length answer.old.parameters ≤ ANSWER_LIMIT }
    ensures fits { length text.new.items ≤ response_limit }
{
    if authorization.command.entries.is_empty() {
        write_plain(answer.handle, answer.parameters.as_slice(), text);
        answer.drawn
    } else {
        write_with_sessions(keep, authorization, answer, random, cache, text)
    }
}
