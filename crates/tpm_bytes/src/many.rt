//! Reads several items in sequence: a given number of them, or one for each key in a list. A read
//! that fails consumes nothing.

ghost use Rattle.std.specs.Prelude.{◌≡◌, ◌≤◌, ◌<◌, ℕ, List, Result, IfOk, length, map};
ghost use Rattle.tpm_bytes.specs.Many.{each_at, many_at};
ghost use Rattle.tpm_bytes.specs.Reading.{Reads};

use crate::cursor::Cursor;
use arrayvec::ArrayVec;

/// An item that can be read from bytes.
pub trait Readable<'a>: Sized {
    type Fault;

    /// The item as it appears in contracts.
    ghost Seen: { Type 0 };

    ghost seen: { Self → Seen };

    /// The item at the start of the bytes, and the remaining bytes.
    ghost at: { List ℕ → Result (Seen × List ℕ) Self.Fault };

    fn read(text: &mut Cursor<'a>) -> Result<Self, Self::Fault>
        ensures { Reads seen (at text.old) text.old result text.new };
}

/// Reads `count` items in sequence.
pub fn read_many<'a, T: Readable<'a> + Default + Drop, const N: usize>(
    text: &mut Cursor<'a>,
    count: usize,
) -> Result<ArrayVec<T, N>, T::Fault>
    requires { count ≤ N }
    ensures { Reads (λ things. map T.seen things.items) (many_at T.at count text.old) text.old
        result text.new }
{
    let mut ahead = Cursor::new(text.rest());
    let mut things = ArrayVec::new();
    for _ in 0..count {
        things.push(T::read(&mut ahead)?);
    }
    *text = ahead;
    Ok(things)
}

/// An item that can be read from bytes, given a key and a number. The key determines which items
/// are allowed, and a fault reports the number.
pub trait ReadableBy<'a, K>: Sized {
    type Fault;

    /// The item as it appears in contracts.
    ghost Seen: { Type 0 };

    ghost seen: { Self → Seen };

    /// The item with this number at the start of the bytes, and the remaining bytes.
    ghost at: { ℕ → K → List ℕ → Result (Seen × List ℕ) Self.Fault };

    fn read(number: u8, key: &K, text: &mut Cursor<'a>) -> Result<Self, Self::Fault>
        ensures { Reads seen (at number key.now text.old) text.old result text.new };
}

/// Reads one item for each key. The items are numbered from 1.
pub fn read_each<'a, K, T: ReadableBy<'a, K> + Default + Drop, const N: usize>(
    keys: &[K],
    text: &mut Cursor<'a>,
) -> Result<ArrayVec<T, N>, T::Fault>
    requires fits { length keys.now ≤ N }
    requires few { length keys.now < 255 }
    ensures exact { Reads (λ things. map T.seen things.items) (each_at T.at 1 keys.now text.old)
        text.old result text.new }
    ensures all { IfOk result (λ things. length things.items ≡ length keys.now) }
{
    let mut ahead = Cursor::new(text.rest());
    let mut things = ArrayVec::new();
    let mut number = 1;
    for key in keys {
        things.push(T::read(number, key, &mut ahead)?);
        number += 1;
    }
    *text = ahead;
    Ok(things)
}
