//! Hides saved sessions from the device: in the buffer that the device gets, the handle of a saved
//! session names nothing.

ghost use Rattle.std.specs.Prelude.{◌≡◌, ◌≤◌, ◌<◌, ◌+◌, ◌^◌, ◌++◌, [], IfSome, length, true};
ghost use Rattle.std.specs.List.{find};
ghost use Rattle.tpm_types_common.specs.Limits.{buffer_limit};
ghost use Rattle.tpm_completion.specs.Hiding.{after_entry, entries_after, entry_places, handle_places, handles_of, hidden_at, is_saved_at, long_at, names_saved, place_if, places_before, saved_place, session_places, short_at};

use crate::codes::{EVENT_SEQUENCE_COMPLETE, HMAC_START, SEQUENCE_COMPLETE, SEQUENCE_UPDATE};
use crate::completion::Completion;
use crate::saving::place_named;
use arrayvec::ArrayVec;
use tpm_commands::CommandCode;
use tpm_types_common::{BUFFER_LIMIT, Handle};

/// The offsets at which a command may have the handle of a session.
type Places = ArrayVec<usize, 6>;

/// The number of two bytes at an offset; 0 if the buffer ends before.
#[tactic(auto, unfolding(crate::specs::Hiding::short_at))]
fn short_at(buffer: &[u8], place: usize) -> usize
    requires { place < 2 ^ 32 }
    ensures value { result ≡ short_at buffer.now place }
    ensures small { result < 65536 }
{
    if place + 2 <= buffer.len() {
        let (_, back) = buffer.split_at(place);
        usize::from(u16::from_be_bytes([back[0], back[1]]))
    } else {
        0
    }
}

/// The number of four bytes at an offset; 0 if the buffer ends before.
#[tactic(auto, unfolding(crate::specs::Hiding::long_at))]
fn long_at(buffer: &[u8], place: usize) -> u32
    requires { place < 2 ^ 32 }
    ensures { result ≡ long_at buffer.now place }
{
    if place + 4 <= buffer.len() {
        let (_, back) = buffer.split_at(place);
        u32::from_be_bytes([back[0], back[1], back[2], back[3]])
    } else {
        0
    }
}

/// The number of handles of the command with this code.
#[tactic(auto, unfolding(crate::specs::Hiding::handles_of))]
fn handles_of(code: u32) -> usize
    ensures value { result ≡ handles_of code }
    ensures few { result ≤ 3 }
{
    match code {
        EVENT_SEQUENCE_COMPLETE => 2,
        SEQUENCE_COMPLETE | HMAC_START | SEQUENCE_UPDATE => 1,
        _ => match CommandCode::named(code) {
            Some(command) => command.handle_count(),
            None => 0,
        },
    }
}

/// Adds an offset if the test holds.
fn push_if(test: bool, place: usize, places: &mut Places)
    requires { length places.old.items < 6 }
    ensures added { places.new.items ≡ places.old.items ++ place_if test place }
    ensures few { length places.new.items ≤ length places.old.items + 1 }
{
    if test {
        places.push(place);
    }
}

/// Adds the offsets of a command's handles.
fn push_handles(count: usize, places: &mut Places)
    requires { places.old.items ≡ [] }
    ensures added { places.new.items ≡ handle_places count }
    ensures few { length places.new.items ≤ 3 }
{
    push_if(count > 0, 10, places);
    push_if(count > 1, 14, places);
    push_if(count > 2, 18, places);
}

/// The offset after the entry at an offset.
fn after_entry(buffer: &[u8], place: usize) -> usize
    requires { place < 2 ^ 20 }
    ensures value { result ≡ after_entry buffer.now place }
    ensures near { result ≤ place + 131079 }
{
    let nonce = short_at(buffer, place + 4);
    place + 9 + nonce + short_at(buffer, place + 7 + nonce)
}

/// Adds the offsets of at most three entries before `end`.
fn push_entries(buffer: &[u8], end: usize, place: usize, places: &mut Places)
    requires room { length places.old.items ≤ 3 }
    requires near { place < 2 ^ 16 }
    ensures { places.new.items ≡ places.old.items ++ places_before buffer.now end place }
{
    let second = after_entry(buffer, place);
    let third = after_entry(buffer, second);
    push_if(place < end, place, places);
    push_if(second < end, second, places);
    push_if(third < end, third, places);
}

/// Adds the offsets of the entries of a command with this many handles.
fn push_area(buffer: &[u8], count: usize, places: &mut Places)
    requires room { length places.old.items ≤ 3 }
    requires few { count ≤ 3 }
    ensures { places.new.items ≡ places.old.items ++ entries_after buffer.now count }
{
    if short_at(buffer, 0) != 0x8002 {
        return;
    }
    let place = 10 + 4 * count;
    let size = long_at(buffer, place) as usize;
    push_entries(buffer, place + 4 + size, place + 4, places);
}

/// Lists the offsets at which a command may have the handle of a session.
#[tactic(auto, unfolding(crate::specs::Hiding::session_places))]
fn session_places(buffer: &[u8]) -> Places
    ensures { result.items ≡ session_places buffer.now }
{
    let count = handles_of(long_at(buffer, 6));
    let mut places = ArrayVec::new();
    push_handles(count, &mut places);
    push_area(buffer, count, &mut places);
    places
}

/// Hides the handle at an offset: afterwards, it names nothing.
pub(crate) fn hide(buffer: &mut [u8], place: usize)
    requires { place + 4 ≤ length buffer.old }
    ensures hidden { buffer.new ≡ hidden_at buffer.old place }
    ensures size { length buffer.new ≡ length buffer.old }
{
    buffer[place + 1] = 255;
    buffer[place + 2] = 255;
    buffer[place + 3] = 255;
}

impl Completion {
    /// Whether a handle is that of a saved session.
    fn names_saved(&self, handle: Handle) -> bool
        ensures { result ≡ names_saved self.now handle }
    {
        handle.is_session() && self.session(place_named(handle)) != 0
    }

    /// Whether the handle at an offset is that of a saved session.
    #[tactic(auto, unfolding(crate::specs::Hiding::is_saved_at))]
    fn is_saved_at(&self, buffer: &[u8], place: usize) -> bool
        ensures value { result ≡ is_saved_at self.now buffer.now place }
        ensures small { result ≡ true → length buffer.now ≤ buffer_limit }
        ensures within { result ≡ true → place + 4 ≤ length buffer.now }
    {
        if buffer.len() > BUFFER_LIMIT || place > BUFFER_LIMIT || place + 4 > buffer.len() {
            return false;
        }
        let handle = Handle {
            number: long_at(buffer, place),
        };
        self.names_saved(handle)
    }

    /// The offset of the first of these handles that is that of a saved session.
    fn first_saved(&self, buffer: &[u8], places: &[usize]) -> Option<usize>
        ensures value { result ≡ find (is_saved_at self.now buffer.now) places.now }
        ensures small { IfSome result (λ place. length buffer.now ≤ buffer_limit) }
        ensures within { IfSome result (λ place. place + 4 ≤ length buffer.now) }
    {
        for place in places {
            if self.is_saved_at(buffer, *place) {
                return Some(*place);
            }
        }
        None
    }

    /// The offset of the first handle in a command that is that of a saved session.
    pub(crate) fn saved_place(&self, buffer: &[u8]) -> Option<usize>
        ensures value { result ≡ saved_place self.now buffer.now }
        ensures small { IfSome result (λ place. length buffer.now ≤ buffer_limit) }
        ensures within { IfSome result (λ place. place + 4 ≤ length buffer.now) }
    {
        let places = session_places(buffer);
        self.first_saved(buffer, places.as_slice())
    }
}
