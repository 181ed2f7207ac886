//! Tests of the calls that access a session by its handle, with both kinds of slots. Python's
//! `hmac` and `hashlib` computed the expected HMACs and hashes, and OpenSSL computed the expected
//! encrypted parameter.

ghost use Rattle.std.specs.Prelude.{◌≡◌, ◌≤◌, length};

use super::comparison::check;
use std::alloc::Global;
use std::process::Abort;
use tpm_bytes::Sink;
use tpm_containers::{ListSlots, Slots};
use tpm_mac::HashAlg;
use tpm_policy::PolicyState;
use tpm_session::{
    Binding, CommandText, Nonce, ParameterFault, Protection, Session, SessionKey, Sessions, Start,
    StartFault, command_hash, is_nonce_size, response_hash,
};
use tpm_slots::SessionPlaces;
use tpm_types_common::{
    AuthValue, Handle, SESSION_LIMIT, SessionAttributes, SessionType, SymmetricDefinition,
};
use tpm_types_name::Name;

type InList = ListSlots<Session, SESSION_LIMIT>;

const NONCE_CALLER: &[u8] = &[0xaa; 16];

const NONCE_TPM: &[u8] = &[0xbb; 16];

/// The command code of TPM2_PCR_Event.
const CODE: u32 = 0x13c;

/// The expected result of `command_hash`.
const COMMAND_HASH: &[u8] = b"\x3c\x31\x76\x2c\x00\x6e\x41\xf9\x21\xdc\x4a\xd8\xac\x22\xff\x90\
    \x93\xac\x6b\xdd\xe5\xf6\xed\x09\xd4\xcc\x24\xef\xf7\x08\x8e\xcb";

/// The expected result of `response_hash`.
const RESPONSE_HASH: &[u8] = b"\xf1\x3a\x65\xc8\x44\x28\xe6\x4a\x87\x2d\x9d\x4d\xe4\x53\xb9\x3f\
    \x44\x0a\x92\x38\x60\x94\x71\x3e\x28\xd1\xa5\x87\x7e\x2d\x7d\x46";

const COMMAND_MAC: &[u8] = b"\xea\x31\xad\x5c\x72\x53\x58\x27\x25\xbb\x9d\x3b\x24\xfd\x7b\x8c\
    \xd1\x6e\xca\xe2\xa9\x96\xa8\x40\x27\x99\xa9\x39\xcd\xd2\x90\xa8";

const RESPONSE_MAC: &[u8] = b"\x71\x5d\x77\x87\x81\x6b\xb5\xff\x1b\x4a\x59\xf4\x30\x93\xab\xcf\
    \x92\xb7\x0a\x94\xfa\x36\x81\x12\x92\xb8\xc6\x57\xa8\x9d\x78\xd6";

const PLAIN: &[u8] = b"a parameter of 25 bytes..";

const ENCRYPTED: &[u8] = b"\xa2\x50\xc0\xbe\x24\xaf\x83\xc1\xd4\x33\x10\xe8\x13\x7b\x2c\x2f\
    \xe5\x90\xfe\x91\xcb\x85\x69\xf0\x12";

/// The parameter after XOR encryption with the bytes that KDFa derives for "XOR".
const MASKED: &[u8] = b"\xb9\xa7\x60\x5e\xe4\x00\x34\x4b\xa2\xa5\x9c\x4f\x9c\x9d\xc9\x93\
    \x3c\xd9\x6c\x50\x40\xb3\xcc\x47\x08";

/// Returns its argument. The contract states only the size of the result. Therefore the prover does
/// not compute with the bytes.
fn short(bytes: &[u8]) -> &[u8]
    requires { length bytes.now ≤ 32 }
    ensures { length result.now ≡ length bytes.now }
{
    bytes
}

/// A binding to the owner, with the authorization value "owner".
fn owner() -> Binding {
    Binding {
        name: Name::of_handle(Handle::OWNER),
        auth_value: AuthValue::of(short(b"owner")),
        protection: Protection::None,
    }
}

fn start(kind: SessionType, binding: Option<Binding>) -> Start<'static> {
    Start {
        kind,
        hash: HashAlg::Sha256,
        symmetric: SymmetricDefinition::Aes128Cfb,
        nonce_caller: NONCE_CALLER,
        nonce_tpm: Nonce::of(short(NONCE_TPM)),
        binding,
    }
}

/// Starts a session, and returns the number in its handle.
fn started<S: Slots<Session, SESSION_LIMIT>>(
    sessions: &mut Sessions<S>,
    kind: SessionType,
) -> Result<u32, StartFault> {
    sessions
        .start(start(kind, None))
        .map(|handle| handle.number)
}

/// The nonceTPM of a session.
fn nonce_of<S: Slots<Session, SESSION_LIMIT>>(
    sessions: &Sessions<S>,
    number: u32,
) -> Option<&[u8]> {
    let session = sessions.get(Handle { number })?;
    Some(session.nonce_tpm().as_slice())
}

#[test]
fn sessions_are_found_by_their_handles(rt: HostRuntime) {
    find_sessions::<InList, HostRuntime>(&rt, rt.alloc());
    find_sessions::<SessionPlaces, HostRuntime>(&rt, rt.alloc());
}

fn find_sessions<S: Slots<Session, SESSION_LIMIT>, R: Abort>(rt: &R, alloc: Global) {
    let mut sessions: Sessions<S> = Sessions::new(alloc);
    start_three(rt, &mut sessions);
    look_up(rt, &sessions);
    roll_policy(rt, &mut sessions);
    set_policy(rt, &mut sessions);
    flush_policy(rt, &mut sessions);
}

/// Starts a session of each type. The sessions get the lowest free numbers.
fn start_three<S: Slots<Session, SESSION_LIMIT>, R: Abort>(rt: &R, sessions: &mut Sessions<S>) {
    for (kind, number) in [
        (SessionType::Hmac, 0x0200_0000),
        (SessionType::Policy, 0x0300_0001),
        (SessionType::Trial, 0x0300_0002),
    ] {
        check(rt, started(sessions, kind), Ok(number));
    }
}

fn look_up<S: Slots<Session, SESSION_LIMIT>, R: Abort>(rt: &R, sessions: &Sessions<S>) {
    for (number, there) in [
        (0x0200_0000, true),
        (0x0300_0000, false),
        (0x0300_0001, true),
        (0x0200_0003, false),
        (1, false),
    ] {
        let found = sessions.get(Handle { number }).is_some();
        check(rt, (number, found), (number, there));
    }
}

/// The handle of the policy session.
const POLICY: Handle = Handle {
    number: 0x0300_0001,
};

/// A nonce of 20 bytes, of which the first 16 are those of `NONCE_CALLER`.
const LONG_NONCE: &[u8] = b"\xaa\xaa\xaa\xaa\xaa\xaa\xaa\xaa\xaa\xaa\xaa\xaa\xaa\xaa\xaa\xaalong";

/// A nonce of two bytes, and the same with the zeros that a session adds to it.
const SHORT_NONCE: &[u8] = b"ab";

const FILLED_NONCE: &[u8] = b"ab\0\0\0\0\0\0\0\0\0\0\0\0\0\0";

/// Replaces the nonceTPM of the policy session. A nonce of another size gets the session's size.
fn roll_policy<S: Slots<Session, SESSION_LIMIT>, R: Abort>(rt: &R, sessions: &mut Sessions<S>) {
    for (nonce, stored) in [
        (SHORT_NONCE, FILLED_NONCE),
        (LONG_NONCE, NONCE_CALLER),
        (NONCE_TPM, NONCE_TPM),
        (NONCE_CALLER, NONCE_CALLER),
    ] {
        check(rt, sessions.roll(POLICY, Nonce::of(short(nonce))), true);
        check(rt, nonce_of(sessions, 0x0300_0001), Some(stored));
    }
    check(rt, nonce_of(sessions, 0x0300_0002), Some(NONCE_TPM));
}

/// The size of the policy digest of a session.
fn digest_size_of<S: Slots<Session, SESSION_LIMIT>>(sessions: &Sessions<S>) -> Option<usize> {
    Some(sessions.get(POLICY)?.policy().digest().len())
}

/// Replaces the policy of the policy session by that of a session with another hash algorithm.
fn set_policy<S: Slots<Session, SESSION_LIMIT>, R: Abort>(rt: &R, sessions: &mut Sessions<S>) {
    let set = sessions.set_policy(POLICY, PolicyState::new(HashAlg::Sha1));
    check(rt, set, true);
    check(rt, digest_size_of(sessions), Some(32));
    let none = sessions.set_policy(Handle::OWNER, PolicyState::new(HashAlg::Sha256));
    check(rt, none, false);
}

/// Flushes the policy session. Then starts a session, which gets the number of the flushed session.
fn flush_policy<S: Slots<Session, SESSION_LIMIT>, R: Abort>(rt: &R, sessions: &mut Sessions<S>) {
    check(rt, sessions.flush(POLICY), true);
    check(rt, sessions.flush(POLICY), false);
    check(rt, sessions.roll(POLICY, Nonce::of(b"")), false);
    let next = started(sessions, SessionType::Hmac);
    check(rt, next, Ok(0x0200_0001));
}

#[test]
fn sixteen_sessions_start(rt: HostRuntime) {
    fill_sessions::<InList, HostRuntime>(&rt, rt.alloc());
    fill_sessions::<SessionPlaces, HostRuntime>(&rt, rt.alloc());
}

fn fill_sessions<S: Slots<Session, SESSION_LIMIT>, R: Abort>(rt: &R, alloc: Global) {
    let mut sessions: Sessions<S> = Sessions::new(alloc);
    for number in 0x0300_0000..0x0300_0010u32 {
        check(rt, started(&mut sessions, SessionType::Policy), Ok(number));
    }
    let full = started(&mut sessions, SessionType::Policy);
    check(rt, full, Err(StartFault::SessionMemory));
    let mut short = start(SessionType::Policy, None);
    short.nonce_caller = b"fifteen bytes..";
    short.nonce_tpm = Nonce::of(short.nonce_caller);
    check(rt, sessions.start(short).err(), Some(StartFault::Size));
    let mut other = start(SessionType::Policy, None);
    other.nonce_tpm = Nonce::of(b"fifteen bytes..");
    check(rt, sessions.start(other).err(), Some(StartFault::Size));
    for (size, fits) in [(15, false), (16, true), (20, true), (21, false)] {
        check(rt, (size, is_nonce_size(HashAlg::Sha1, size)), (size, fits));
    }
}

#[test]
fn session_types_have_numbers(rt: HostRuntime) {
    for (kind, number) in [
        (SessionType::Hmac, 0),
        (SessionType::Policy, 1),
        (SessionType::Trial, 3),
    ] {
        check(&rt, kind.number(), number);
        check(&rt, SessionType::named(number), Some(kind));
    }
    check(&rt, SessionType::named(2), None);
}

#[test]
fn hashes_are_those_of_the_standard(rt: HostRuntime) {
    let names = [
        Name::of_handle(Handle::OWNER),
        Name::of_handle(Handle { number: 3 }),
    ];
    let command = command_hash(HashAlg::Sha256, CODE, &names, b"parameters");
    check(&rt, command.as_slice(), COMMAND_HASH);
    let response = response_hash(HashAlg::Sha256, CODE, b"answer");
    check(&rt, response.as_slice(), RESPONSE_HASH);
}

/// A session that is bound to the owner.
fn bound_session<R: Abort>(rt: &R, symmetric: SymmetricDefinition) -> Session {
    let binding = Some(owner());
    let nonce = Nonce::of(short(NONCE_TPM));
    let key = SessionKey::derived(HashAlg::Sha256, &binding, NONCE_TPM, NONCE_CALLER);
    let policy = PolicyState::new(HashAlg::Sha256);
    let kind = SessionType::Hmac;
    Session::of(
        kind,
        HashAlg::Sha256,
        symmetric,
        nonce,
        key,
        binding,
        policy,
    )
    .expect(rt, "the sizes are those of SHA-256")
}

/// The handle of the session in [`with_bound`].
const BOUND: Handle = Handle {
    number: 0x0200_0000,
};

/// The sessions with one session, which is bound to the owner.
fn with_bound<R: Abort>(rt: &R, alloc: Global, symmetric: SymmetricDefinition) -> Sessions<InList> {
    let mut sessions = Sessions::new(alloc);
    let put = sessions.put(0, bound_session(rt, symmetric));
    check(rt, put.is_ok(), true);
    sessions
}

/// The authorization value of the entity that an entry authorizes.
fn entity() -> AuthValue {
    AuthValue::of(short(b"entity"))
}

/// An unbound session with SHA-256, or None if the size of the nonce or the key is not allowed.
fn unbound_session(nonce: usize, key: SessionKey) -> Option<Session>
    requires { nonce ≤ 32 }
{
    let nonce = Nonce::of(&[0; 32][..nonce]);
    let (kind, hash) = (SessionType::Hmac, HashAlg::Sha256);
    Session::of(
        kind,
        hash,
        SymmetricDefinition::Null,
        nonce,
        key,
        None,
        PolicyState::new(hash),
    )
}

#[test]
fn a_session_has_the_sizes_of_its_hash(rt: HostRuntime) {
    for (size, fits) in [(15, false), (16, true), (32, true)] {
        let made = unbound_session(size, SessionKey::empty());
        check(&rt, (size, made.is_some()), (size, fits));
    }
    let binding = Some(owner());
    let key = SessionKey::derived(HashAlg::Sha256, &binding, NONCE_TPM, NONCE_CALLER);
    check(&rt, unbound_session(16, key).is_some(), false);
}

const ATTRIBUTES: SessionAttributes = SessionAttributes { octet: 0x21 };

/// The data that the HMAC of a command's entry covers, including the nonces of the decrypt session
/// and of the encrypt session.
fn command_text() -> CommandText<'static> {
    CommandText {
        hash: COMMAND_HASH,
        nonce_caller: NONCE_CALLER,
        decrypt_nonce: b"dec",
        encrypt_nonce: b"en",
        attributes: ATTRIBUTES,
    }
}

#[test]
fn an_entry_has_an_hmac(rt: HostRuntime) {
    let sessions = with_bound(&rt, rt.alloc(), SymmetricDefinition::Null);
    let command = sessions.command_mac(BOUND, &entity(), &command_text());
    check(
        &rt,
        command.is_some_and(|mac| mac.as_slice() == COMMAND_MAC),
        true,
    );
    let response = sessions.response_mac(BOUND, &entity(), RESPONSE_HASH, NONCE_CALLER, ATTRIBUTES);
    check(
        &rt,
        response.is_some_and(|mac| mac.as_slice() == RESPONSE_MAC),
        true,
    );
    let none = sessions.command_mac(POLICY, &entity(), &command_text());
    check(&rt, none.is_none(), true);
}

#[test]
fn an_entry_s_text_is_written(rt: HostRuntime) {
    let sessions = with_bound(&rt, rt.alloc(), SymmetricDefinition::Null);
    let mut bytes: Sink<161> = Sink::new();
    let text = command_text();
    let Some(text) = sessions.entry_text(BOUND, &text) else {
        return check(&rt, "a session", "no session");
    };
    check(&rt, text.write(&mut bytes).is_ok(), true);
    check(&rt, bytes.len(), 70);
    check(&rt, bytes.as_slice().ends_with(b"\xbbdecen\x21"), true);
    let mut short: Sink<64> = Sink::new();
    check(&rt, text.write(&mut short).is_err(), true);
    let text = sessions.response_text(BOUND, RESPONSE_HASH, NONCE_CALLER, ATTRIBUTES);
    let fits = text.is_some_and(|text| text.write(&mut short).is_ok());
    check(&rt, fits, false);
    check(&rt, short.len(), 0);
}

/// Encrypts the plaintext parameter, compares the result with the expected ciphertext, and decrypts
/// it again.
fn close_and_open<R: Abort>(
    rt: &R,
    alloc: Global,
    symmetric: SymmetricDefinition,
    encrypted: &[u8],
) {
    let sessions = with_bound(rt, alloc, symmetric);
    let (value, newer, older) = (entity(), NONCE_CALLER, NONCE_TPM);
    let mut parameter = [0; 25];
    parameter.copy_from_slice(PLAIN);
    let closed = sessions.close_parameter(BOUND, &value, newer, older, &mut parameter);
    check(rt, closed, Some(Ok(())));
    check(rt, parameter.as_slice(), encrypted);
    let opened = sessions.open_parameter(BOUND, &value, newer, older, &mut parameter);
    check(rt, opened, Some(Ok(())));
    check(rt, parameter.as_slice(), PLAIN);
}

#[test]
fn a_parameter_is_encrypted(rt: HostRuntime) {
    let xor = SymmetricDefinition::Xor(HashAlg::Sha256);
    close_and_open(&rt, rt.alloc(), SymmetricDefinition::Aes128Cfb, ENCRYPTED);
    close_and_open(&rt, rt.alloc(), xor, MASKED);
    let mut parameter = [0; 25];
    parameter.copy_from_slice(PLAIN);
    let bare = with_bound(&rt, rt.alloc(), SymmetricDefinition::Null);
    let refused = bare.close_parameter(BOUND, &entity(), b"", b"", &mut parameter);
    check(&rt, refused, Some(Err(ParameterFault::Symmetric)));
    let none = bare.open_parameter(POLICY, &entity(), b"", b"", &mut parameter);
    check(&rt, none, None);
    check(&rt, parameter.as_slice(), PLAIN);
    let mut long = [0; 4097];
    let refused = bare.open_parameter(BOUND, &entity(), b"", b"", &mut long);
    check(&rt, refused, Some(Err(ParameterFault::Size)));
}
