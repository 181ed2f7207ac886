//! Encodes a hash in progress, and decodes it again.

ghost use Rattle.std.specs.Prelude.{◌≡◌, ◌+◌, ◌*◌, ◌++◌, ◌≤◌, length};
ghost use Rattle.std.specs.Int.{to_be_bytes, w32};
ghost use Rattle.std.specs.List.{flat_map};
ghost use Rattle.tpm_bytes.specs.Many.{many_at};
ghost use Rattle.tpm_bytes.specs.Reading.{Reads};
ghost use Rattle.tpm_image_text.specs.Fields.{in_body, number_in};
ghost use Rattle.tpm_types_common.specs.Algorithm.{hash_at};
ghost use Rattle.tpm_sequence_text.specs.HashState.{hash_state_in, hash_state_text, value_after, value_in, value_text};
ghost use Rattle.tpm_sequence_text.specs.Sizes.{hash_state_size, value_size};

use tpm_bytes::{Cursor, Sink};
use tpm_hash_state::{ChainingValue, HashState};
use tpm_image_text::{Malformed, read_array, read_u32, read_u64};
use tpm_mac::HashAlg;
use tpm_types_common::{hash_number, read_hash};

fn read_algorithm(text: &mut Cursor) -> Result<HashAlg, Malformed>
    ensures { Reads (λ hash. hash) (in_body hash_at text.old) text.old result text.new }
{
    match read_hash(text) {
        Ok(hash) => Ok(hash),
        Err(_) => Err(Malformed),
    }
}

/// Reads N words.
#[tactic(auto, using(crate::proofs::Words::left_laws))]
fn read_words<const N: usize>(text: &mut Cursor) -> Result<[u32; N], Malformed>
    ensures { Reads (λ words. words) (many_at (number_in w32) N text.old) text.old
        result text.new }
{
    let mut ahead = Cursor::new(text.rest());
    let mut words = [0; N];
    for place in 0..N {
        words[place] = read_u32(&mut ahead)?;
    }
    *text = ahead;
    Ok(words)
}

/// Reads the words of a hash value with this algorithm.
fn read_value_after(hash: HashAlg, text: &mut Cursor) -> Result<ChainingValue, Malformed>
    ensures { Reads (λ value. value) (value_after hash text.old) text.old result text.new }
{
    match hash {
        HashAlg::Sha1 => Ok(ChainingValue::Sha1(read_words(text)?)),
        HashAlg::Sha256 => Ok(ChainingValue::Sha256(read_words(text)?)),
    }
}

#[tactic(auto, unfolding(crate::specs::HashState::value_in))]
fn read_value(text: &mut Cursor) -> Result<ChainingValue, Malformed>
    ensures { Reads (λ value. value) (value_in text.old) text.old result text.new }
{
    let mut ahead = Cursor::new(text.rest());
    let hash = read_algorithm(&mut ahead)?;
    let value = read_value_after(hash, &mut ahead)?;
    *text = ahead;
    Ok(value)
}

/// Reads a hash in progress.
#[tactic(auto, unfolding(crate::specs::HashState::hash_state_in))]
pub(crate) fn read_hash_state(text: &mut Cursor) -> Result<HashState, Malformed>
    ensures { Reads (λ state. state) (hash_state_in text.old) text.old result text.new }
{
    let mut ahead = Cursor::new(text.rest());
    let chaining = read_value(&mut ahead)?;
    let block = read_array(&mut ahead)?;
    let length = read_u64(&mut ahead)?;
    *text = ahead;
    Ok(HashState {
        chaining,
        block,
        length,
    })
}

fn write_words<const M: usize, const N: usize>(words: &[u32; M], text: &mut Sink<N>)
    requires few { M ≤ 8 }
    requires room { length text.old + 4 * M ≤ N }
    ensures written { text.new ≡ text.old ++ flat_map (to_be_bytes w32) words.now }
    ensures small { length text.new ≡ length text.old + 4 * M }
{
    for word in words {
        text.append_u32(*word);
    }
}

#[tactic(auto, unfolding(crate::specs::HashState::value_text))]
fn write_value<const N: usize>(value: &ChainingValue, text: &mut Sink<N>)
    requires { length text.old + value_size ≤ N }
    ensures written { text.new ≡ text.old ++ value_text value.now }
    ensures small { length text.new ≤ length text.old + value_size }
{
    match value {
        ChainingValue::Sha1(words) => {
            text.append_u16(hash_number(HashAlg::Sha1));
            write_words(words, text);
        }
        ChainingValue::Sha256(words) => {
            text.append_u16(hash_number(HashAlg::Sha256));
            write_words(words, text);
        }
    }
}

/// Writes a hash in progress.
#[tactic(auto, unfolding(crate::specs::HashState::hash_state_text))]
pub(crate) fn write_hash_state<const N: usize>(state: &HashState, text: &mut Sink<N>)
    requires { length text.old + hash_state_size ≤ N }
    ensures written { text.new ≡ text.old ++ hash_state_text state.now }
    ensures small { length text.new ≤ length text.old + hash_state_size }
{
    write_value(&state.chaining, text);
    text.append(&state.block);
    text.append_u64(state.length);
}
