//! Converts between the completing layer and its part of a state text.

ghost use Rattle.std.specs.Prelude.{◌≡◌, ◌<◌, ◌^◌, length, option_copied};
ghost use Rattle.std.specs.List.{All};
ghost use Rattle.tpm_state_text.specs.Layer.{IsLayer};
ghost use Rattle.tpm_snapshot.specs.Layer.{completion_of, layer_of};

use crate::sequences::{sequences_of, with_width};
use tpm_completion::Completion;
use tpm_state_text::Layer;
use tpm_types_common::SESSION_LIMIT;

fn sessions_of(sessions: &[u64; 16]) -> [u64; 16]
    ensures value { result ≡ sessions.now }
    ensures size { length result ≡ 16 }
    ensures fits { All (λ context. context < 2 ^ 64) result }
{
    let mut saved = [0; 16];
    for place in 0..SESSION_LIMIT {
        saved[place] = with_width(sessions[place]);
    }
    saved
}

/// Returns the part of a state text that encodes the layer.
pub fn layer_of(completion: &Completion) -> Layer
    ensures value { result ≡ layer_of completion.now }
    ensures is_layer { IsLayer result }
{
    let sessions = sessions_of(&completion.sessions);
    let sequences = sequences_of(&completion.sequences);
    Layer {
        start: with_width(completion.start),
        count: with_width(completion.count),
        sessions,
        sequences,
    }
}

/// Returns the layer that a state text encodes, or a new layer with start number 0 if the state
/// text encodes no layer.
pub fn completion_of(layer: Option<&Layer>) -> Completion
    ensures { result ≡ completion_of (option_copied layer.entry) }
{
    let Some(layer) = layer else {
        return Completion::new();
    };
    let sessions = layer.sessions;
    let sequences = layer.sequences;
    Completion {
        start: layer.start,
        count: layer.count,
        sessions,
        sequences,
    }
}
