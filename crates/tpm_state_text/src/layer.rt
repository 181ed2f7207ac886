//! The state of the completing layer in a state text.

ghost use Rattle.std.specs.Prelude.{◌≡◌, ◌≤◌, ◌+◌, ◌++◌, length, option_copied};
ghost use Rattle.std.specs.Int.{w64, to_be_bytes};
ghost use Rattle.std.specs.List.{flat_map};
ghost use Rattle.tpm_bytes.specs.Many.{many_at};
ghost use Rattle.tpm_bytes.specs.Reading.{Reads};
ghost use Rattle.tpm_image_text.specs.Fields.{number_in};
ghost use Rattle.tpm_image_text.specs.Sizes.{text_size};
ghost use Rattle.tpm_state_text.specs.Layer.{kind_in, kind_named, kind_number, kind_of, layer_in, layer_part_in, layer_part_text, layer_text};
ghost use Rattle.tpm_state_text.specs.Sizes.{layer_size};

use crate::sequences::{has_sequence, read_sequences, write_sequences};
use tpm_bytes::Cursor;
use tpm_image_text::{Malformed, Text, read_u8, read_u64, write_u64};
use tpm_sequence::SequenceObject;
use tpm_types_common::SESSION_LIMIT;

/// The state of the completing layer.
#[derive(Clone, Copy, PartialEq, Eq)]
pub struct Layer {
    /// The layer's start number.
    pub start: u64,
    /// The sequence number of the latest context.
    pub count: u64,
    /// The number of the context in which each session was saved, by slot; 0 if the session is
    /// loaded.
    pub sessions: [u64; 16],
    /// The sequence objects, by slot.
    pub sequences: [Option<SequenceObject>; 3],
}

/// What a state text contains about the completing layer.
#[derive(Clone, Copy, PartialEq, Eq)]
pub enum LayerKind {
    /// The device has no layer.
    Absent,
    /// The layer has no sequence object.
    Plain,
    /// The layer has a sequence object.
    WithSequences,
}

fn kind_number(kind: LayerKind) -> u8
    ensures { result ≡ kind_number kind }
{
    match kind {
        LayerKind::Absent => 0,
        LayerKind::Plain => 1,
        LayerKind::WithSequences => 2,
    }
}

fn kind_named(number: u8) -> Option<LayerKind>
    ensures { result ≡ kind_named number }
{
    match number {
        0 => Some(LayerKind::Absent),
        1 => Some(LayerKind::Plain),
        2 => Some(LayerKind::WithSequences),
        _ => None,
    }
}

#[tactic(auto, unfolding(crate::specs::Layer::kind_in))]
fn read_kind(text: &mut Cursor) -> Result<LayerKind, Malformed>
    ensures { Reads (λ kind. kind) (kind_in text.old) text.old result text.new }
{
    let mut ahead = Cursor::new(text.rest());
    let Some(kind) = kind_named(read_u8(&mut ahead)?) else {
        return Err(Malformed);
    };
    *text = ahead;
    Ok(kind)
}

fn kind_of(layer: Option<&Layer>) -> LayerKind
    ensures { result ≡ kind_of (option_copied layer.entry) }
{
    let Some(layer) = layer else {
        return LayerKind::Absent;
    };
    if has_sequence(&layer.sequences) {
        LayerKind::WithSequences
    } else {
        LayerKind::Plain
    }
}

/// Reads the context numbers of all sessions.
#[tactic(auto, using(crate::proofs::Loops::left_laws))]
pub fn read_sessions(text: &mut Cursor) -> Result<[u64; 16], Malformed>
    ensures { Reads (λ sessions. sessions) (many_at (number_in w64) 16 text.old) text.old
        result text.new }
{
    let mut ahead = Cursor::new(text.rest());
    let mut sessions = [0; 16];
    for place in 0..SESSION_LIMIT {
        sessions[place] = read_u64(&mut ahead)?;
    }
    *text = ahead;
    Ok(sessions)
}

/// Reads a layer, with sequence objects if `is_used` is true.
#[tactic(auto, unfolding(crate::specs::Layer::layer_in))]
fn read_layer(is_used: bool, text: &mut Cursor) -> Result<Layer, Malformed>
    ensures { Reads (λ layer. layer) (layer_in is_used text.old) text.old result text.new }
{
    let mut ahead = Cursor::new(text.rest());
    let start = read_u64(&mut ahead)?;
    let count = read_u64(&mut ahead)?;
    let sessions = read_sessions(&mut ahead)?;
    let sequences = read_sequences(is_used, &mut ahead)?;
    *text = ahead;
    Ok(Layer {
        start,
        count,
        sessions,
        sequences,
    })
}

/// Reads the state of the layer, if the device has the layer.
#[tactic(auto, unfolding(crate::specs::Layer::layer_part_in))]
pub fn read_layer_part(text: &mut Cursor) -> Result<Option<Layer>, Malformed>
    ensures { Reads (λ layer. layer) (layer_part_in text.old) text.old result text.new }
{
    let mut ahead = Cursor::new(text.rest());
    let layer = match read_kind(&mut ahead)? {
        LayerKind::Absent => None,
        LayerKind::Plain => Some(read_layer(false, &mut ahead)?),
        LayerKind::WithSequences => Some(read_layer(true, &mut ahead)?),
    };
    *text = ahead;
    Ok(layer)
}

fn write_sessions(sessions: &[u64; 16], text: &mut Text)
    requires { length text.old + 128 ≤ text_size }
    ensures written { text.new ≡ text.old ++ flat_map (to_be_bytes w64) sessions.now }
    ensures small { length text.new ≡ length text.old + 128 }
{
    for context in sessions {
        write_u64(*context, text);
    }
}

#[tactic(auto, unfolding(crate::specs::Layer::layer_text))]
fn write_layer(layer: &Layer, text: &mut Text)
    requires { length text.old + layer_size ≤ text_size }
    ensures written { text.new ≡ text.old ++ layer_text layer.now }
    ensures small { length text.new ≤ length text.old + layer_size }
{
    write_u64(layer.start, text);
    write_u64(layer.count, text);
    write_sessions(&layer.sessions, text);
    write_sequences(&layer.sequences, text);
}

/// Writes the state of the layer, if the device has the layer.
#[tactic(auto, unfolding(crate::specs::Layer::layer_part_text))]
pub fn write_layer_part(layer: Option<&Layer>, text: &mut Text)
    requires { length text.old + (1 + layer_size) ≤ text_size }
    ensures written { text.new ≡ text.old ++ layer_part_text (option_copied layer.entry) }
    ensures small { length text.new ≤ length text.old + (1 + layer_size) }
{
    text.append_u8(kind_number(kind_of(layer)));
    if let Some(layer) = layer {
        write_layer(layer, text);
    }
}
