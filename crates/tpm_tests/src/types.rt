//! Tests structures byte by byte, as TPM 2.0 Library, Part 1, section 18, and Part 2 define them.
//! The scripts under `tests/` test what the device reads and writes.

use super::comparison::check;
use arrayvec::ArrayVec;
use tpm_bytes::{Cursor, Sink};
use tpm_commands::{CommandCode, HandleKind, ParameterKind, Profile, read_handles};
use tpm_mac::HashAlg;
use tpm_types_command::{AuthEntry, Command};
use tpm_types_common::{
    BankSelection, DigestList, DigestValue, DigestValues, Handle, PcrSelect, PcrSelection, Rc,
    ResponseCode, SessionAttributes, SessionType, StartupType, read_buffer, read_yes_no,
};
use tpm_types_name::Name;

/// The buffer of TPM2_PCR_Reset for PCR 16, with a nonce of two bytes and the password "abc": the
/// header, the handle, the size of the authorization area, and its entry.
const PCR_RESET: &[u8] = b"\x80\x02\x00\x00\x00\x20\x00\x00\x01\x3d\
    \x00\x00\x00\x10\
    \x00\x00\x00\x0e\
    \x40\x00\x00\x09\x00\x02\xaa\xbb\x01\x00\x03abc";

/// A PCR selection with PCRs 0, 10 and 23 in the SHA-256 bank.
const SELECTION: &[u8] = b"\x00\x00\x00\x01\x00\x0b\x03\x01\x04\x80";

/// A list of two digests: a SHA-1 digest of twenty bytes 01, and a SHA-256 digest of thirty-two
/// bytes 02.
const DIGESTS: &[u8] = b"\x00\x00\x00\x02\
    \x00\x04\x01\x01\x01\x01\x01\x01\x01\x01\x01\x01\x01\x01\x01\x01\x01\x01\x01\x01\x01\x01\
    \x00\x0b\x02\x02\x02\x02\x02\x02\x02\x02\x02\x02\x02\x02\x02\x02\x02\x02\
    \x02\x02\x02\x02\x02\x02\x02\x02\x02\x02\x02\x02\x02\x02\x02\x02";

/// Response codes: five contain the number of a parameter, session or handle, and the last does
/// not.
fn placed_codes() -> [(Rc, u32); 6] {
    [
        (ResponseCode::Value.anywhere().at_parameter(1), 0x1c4),
        (ResponseCode::Insufficient.anywhere().at_parameter(1), 0x1da),
        (ResponseCode::Handle.anywhere().at_session(1), 0x98b),
        (ResponseCode::AuthFail.anywhere().at_session(1), 0x98e),
        (ResponseCode::Handle.anywhere().at_handle(2), 0x28b),
        (ResponseCode::BadTag.anywhere(), 0x01e),
    ]
}

#[test]
fn response_codes_have_places(rt: HostRuntime) {
    for (rc, number) in placed_codes() {
        check(&rt, rc.number(), number);
    }
}

fn is_numbered(code: CommandCode, number: u32) -> bool {
    code.number() == number && CommandCode::named(number) == Some(code)
}

const NUMBERS: [(CommandCode, u32); 10] = [
    (CommandCode::EvictControl, 0x120),
    (CommandCode::ClearControl, 0x127),
    (CommandCode::PcrEvent, 0x13c),
    (CommandCode::PcrReset, 0x13d),
    (CommandCode::Startup, 0x144),
    (CommandCode::GetRandom, 0x17b),
    (CommandCode::PcrRead, 0x17e),
    (CommandCode::PcrExtend, 0x182),
    (CommandCode::PolicyPassword, 0x18c),
    (CommandCode::Shutdown, 0x145),
];

#[test]
fn commands_have_numbers(rt: HostRuntime) {
    for (code, number) in &NUMBERS {
        check(&rt, is_numbered(*code, *number), true);
    }
    check(&rt, CommandCode::named(0x158), None);
}

#[test]
fn pcr_event_has_its_shape(rt: HostRuntime) {
    let event = CommandCode::PcrEvent.shape();
    let allowed = (event.forbids_sessions, event.sized_answer);
    check(&rt, allowed, (false, false));
    let is_sized = matches!(event.parameters, [kind] if kind.is_sized());
    check(&rt, is_sized, true);
    let takes_null = matches!(event.handles, [rule] if rule.kind.allows(Handle::NULL));
    check(&rt, takes_null, true);
}

#[test]
fn startup_has_its_shape(rt: HostRuntime) {
    let startup = CommandCode::Startup.shape();
    let told = (startup.handles.is_empty(), startup.forbids_sessions);
    check(&rt, told, (true, true));
}

#[test]
fn handles_and_parameters_have_kinds(rt: HostRuntime) {
    check(&rt, CommandCode::PcrEvent.handle_count(), 1);
    check(&rt, CommandCode::PcrEvent.authorized_handles(), 1);
    check(&rt, HandleKind::Pcr.allows(Handle::NULL), false);
    check(&rt, ParameterKind::U16.is_sized(), false);
}

#[test]
fn handles_are_read_by_their_rules(rt: HostRuntime) {
    let mut text = Cursor::new(b"\x40\x00\x00\x07;");
    check(
        &rt,
        read_handles(CommandCode::PcrReset, &mut text).is_err(),
        true,
    );
    check(
        &rt,
        read_handles(CommandCode::PcrEvent, &mut text).is_ok(),
        true,
    );
    check(&rt, text.rest(), b";".as_slice());
}

#[test]
fn parameters_are_read(rt: HostRuntime) {
    let mut text = Cursor::new(b"\x00\x01\x00\x02ab\x01;");
    check(&rt, StartupType::read(&mut text), Ok(StartupType::State));
    check(&rt, read_buffer(&mut text, 2), Ok(b"ab".as_slice()));
    check(&rt, read_yes_no(&mut text), Ok(true));
    check(&rt, text.rest(), b";".as_slice());
}

#[test]
fn a_hierarchy_has_its_handle_as_its_name(rt: HostRuntime) {
    let name = Name::of_handle(Handle::ENDORSEMENT);
    check(&rt, name.as_slice(), b"\x40\x00\x00\x0b".as_slice());
    check(&rt, name.is_same(&name.copy()), true);
    check(&rt, name.is_same(&Name::of_handle(Handle::PLATFORM)), false);
}

/// The response code for the error in a command buffer, or 0 if there is no error.
fn fault_of(buffer: &[u8]) -> u32 {
    match Command::read(&mut Cursor::new(buffer)) {
        Ok(_) => 0,
        Err(fault) => fault.number(),
    }
}

/// Buffers, each with the response code of its first error.
const FAULTS: [(&[u8], u32); 7] = [
    (b"\x00\xc1\x00\x00\x00\x0b\x00\x00\x01", 0x142),
    (b"\x00\xc1\x00\x00\x00\x0b\x00\x00\x01\x46", 0x01e),
    (b"\x80\x02\x00\x00\x00\x0b\x00\x00\x01\x46", 0x142),
    (b"\x80\x02\x00\x00\x00\x0a\x00\x00\x01\x46", 0x143),
    (b"\x80\x02\x00\x00\x00\x0c\x00\x00\x01\x3d\x00\x00", 0x19a),
    (
        b"\x80\x02\x00\x00\x00\x0e\x00\x00\x01\x3d\x00\x00\x00\x10",
        0x144,
    ),
    (PCR_RESET, 0),
];

#[test]
fn a_command_has_a_first_fault(rt: HostRuntime) {
    for (buffer, fault) in &FAULTS {
        check(&rt, (*buffer, fault_of(buffer)), (*buffer, *fault));
    }
}

/// The tag and the code of a command.
fn header_of(buffer: &[u8]) -> Option<(u16, u32)> {
    match Command::read(&mut Cursor::new(buffer)) {
        Ok(command) => Some((command.tag().number(), command.code.number())),
        Err(_) => None,
    }
}

/// The number of a command's handles, the number of its entries, and its size.
fn counts_of(buffer: &[u8]) -> Option<(usize, usize, Option<usize>)> {
    match Command::read(&mut Cursor::new(buffer)) {
        Ok(command) => {
            let (handles, entries) = (command.handles.len(), command.entries.len());
            Some((handles, entries, command.text_len()))
        }
        Err(_) => None,
    }
}

#[test]
fn a_command_has_parts(rt: HostRuntime) {
    check(&rt, header_of(PCR_RESET), Some((0x8002, 0x13d)));
    check(&rt, counts_of(PCR_RESET), Some((1, 1, Some(32))));
}

/// The command decoded from a buffer, and encoded again.
fn rewritten_command(buffer: &[u8]) -> Option<ArrayVec<u8, 32>> {
    let Ok(command) = Command::read(&mut Cursor::new(buffer)) else {
        return None;
    };
    let mut sink = Sink::new();
    let Ok(()) = command.write(&mut sink) else {
        return None;
    };
    Some(sink.into_bytes())
}

/// The PCR selection decoded from these bytes, and encoded again.
fn rewritten_selection(text: &[u8]) -> Option<ArrayVec<u8, 10>> {
    let Ok(selection) = PcrSelection::read(&mut Cursor::new(text)) else {
        return None;
    };
    let mut sink = Sink::new();
    let Ok(()) = selection.write(&mut sink) else {
        return None;
    };
    Some(sink.into_bytes())
}

/// The digests decoded from these bytes, and encoded again.
fn rewritten_digests(text: &[u8]) -> Option<ArrayVec<u8, 62>> {
    let Ok(digests) = DigestValues::read(&mut Cursor::new(text)) else {
        return None;
    };
    let mut sink = Sink::new();
    let Ok(()) = digests.write(&mut sink) else {
        return None;
    };
    Some(sink.into_bytes())
}

/// Whether `bytes` is present and equals `text`.
fn is_text<const N: usize>(bytes: Option<ArrayVec<u8, N>>, text: &[u8]) -> bool {
    match bytes {
        Some(bytes) => bytes.as_slice() == text,
        None => false,
    }
}

#[test]
fn what_is_read_is_written_so(rt: HostRuntime) {
    check(&rt, is_text(rewritten_command(PCR_RESET), PCR_RESET), true);
    check(
        &rt,
        is_text(rewritten_selection(SELECTION), SELECTION),
        true,
    );
    check(&rt, is_text(rewritten_digests(DIGESTS), DIGESTS), true);
}

/// Whether these bytes encode a PCR selection with these banks.
fn has_banks(text: &[u8], banks: &[BankSelection]) -> bool {
    match PcrSelection::read(&mut Cursor::new(text)) {
        Ok(selection) => selection.banks.as_slice() == banks,
        Err(_) => false,
    }
}

/// Whether these bytes encode these digests.
fn has_digests(text: &[u8], values: &[DigestValue]) -> bool {
    match DigestValues::read(&mut Cursor::new(text)) {
        Ok(digests) => digests.values.as_slice() == values,
        Err(_) => false,
    }
}

#[test]
fn fields_are_where_they_stand(rt: HostRuntime) {
    let bank = BankSelection {
        hash: HashAlg::Sha256,
        select: PcrSelect::from_octets([1, 4, 128]),
    };
    check(&rt, has_banks(SELECTION, &[bank]), true);
    let values = [DigestValue::Sha1([1; 20]), DigestValue::Sha256([2; 32])];
    check(&rt, has_digests(DIGESTS, &values), true);
}

/// The attributes of an entry, and its size.
fn entry_of(text: &[u8]) -> Option<(u8, Option<usize>)> {
    match AuthEntry::read(&mut Cursor::new(text)) {
        Ok(entry) => Some((entry.attributes.octet, entry.text_len())),
        Err(_) => None,
    }
}

#[test]
fn an_entry_has_its_length(rt: HostRuntime) {
    let entry = b"\x02\x00\x00\x01\x00\x02\xaa\xbb\x20\x00\x03abc;";
    check(&rt, entry_of(entry), Some((0x20, Some(14))));
    let attributes = SessionAttributes { octet: 0x20 };
    check(
        &rt,
        (attributes.decrypts(), attributes.continues_session()),
        (true, false),
    );
}

#[test]
fn a_list_of_no_digests_is_written(rt: HostRuntime) {
    let digests = ArrayVec::new();
    let mut sink: Sink<4> = Sink::new();
    check(&rt, DigestList { digests }.write(&mut sink), Ok(()));
    check(&rt, sink.as_slice(), b"\x00\x00\x00\x00".as_slice());
}

#[test]
fn policies_are_asked_for(rt: HostRuntime) {
    let mut text = Cursor::new(b"\x01\x02");
    check(&rt, SessionType::read(&mut text), Ok(SessionType::Policy));
    let refused = SessionType::read(&mut text);
    check(&rt, refused, Err(ResponseCode::Value.anywhere()));
    check(&rt, Profile::Symmetric.serves_number(0x17b), true);
    check(&rt, Profile::Symmetric.serves_number(0x17c), false);
    check(&rt, Profile::Complete.serves_number(0x17c), true);
    check(&rt, Profile::Complete.serves_number(0x158), false);
}
