//! Encodes commands to a kept device, and the seeds from which a device is created.

ghost use Rattle.std.specs.Prelude.{◌≡◌, ◌++◌, ◌∷◌, IfOk, Ok, OnOk};
ghost use Rattle.tpm_kept_journal.specs.Command.{After, At, Begins, Cycles, Executes, command_of};
ghost use Rattle.tpm_kept_journal.specs.Seed.{seed_in};
ghost use Rattle.tpm_kept_device.specs.Texts.{cycle_text, given_text, seed_text, text_after, text_at};
ghost use Rattle.tpm_types_common.specs.Locality.{locality_number};

use std::alloc::{AllocError, Global};
use tpm_types_common::Locality;

/// Encodes a TPM command that arrives at this time of the host's clock, in milliseconds.
#[tactic(auto, using(crate::proofs::Texts::at_read))]
pub fn command_at(
    alloc: Global,
    now_ms: u64,
    locality: Locality,
    completes: bool,
    random: &[u8; 256],
    buffer: &[u8],
) -> Result<Vec<u8>, AllocError>
    ensures text { IfOk result (λ text. text.items
        ≡ text_at now_ms (locality_number locality) completes random.now buffer.now) }
    ensures read { IfOk result (λ text. command_of text.items
        ≡ Ok (Executes (At now_ms) (locality_number locality) completes random.now buffer.now)) }
{
    let mut text = Vec::new(alloc);
    text.push(0)?;
    text.extend_from_slice(&now_ms.to_be_bytes())?;
    put_given(&mut text, locality, completes, random, buffer)?;
    Ok(text)
}

/// Encodes a TPM command that arrives this many milliseconds after the previous command.
#[tactic(auto, using(crate::proofs::Texts::after_read))]
pub fn command_after(
    alloc: Global,
    elapsed_ms: u32,
    locality: Locality,
    completes: bool,
    random: &[u8; 256],
    buffer: &[u8],
) -> Result<Vec<u8>, AllocError>
    ensures text { IfOk result (λ text. text.items
        ≡ text_after elapsed_ms (locality_number locality) completes random.now buffer.now) }
    ensures read { IfOk result (λ text. command_of text.items ≡ Ok
        (Executes (After elapsed_ms) (locality_number locality) completes random.now buffer.now)) }
{
    let mut text = Vec::new(alloc);
    text.push(3)?;
    text.extend_from_slice(&elapsed_ms.to_be_bytes())?;
    put_given(&mut text, locality, completes, random, buffer)?;
    Ok(text)
}

/// Appends the part of an encoded command that follows the arrival time.
fn put_given(
    text: &mut Vec<u8>,
    locality: Locality,
    completes: bool,
    random: &[u8; 256],
    buffer: &[u8],
) -> Result<(), AllocError>
    ensures { OnOk result (text.new.items ≡ text.old.items
        ++ given_text (locality_number locality) completes random.now buffer.now) }
{
    text.extend_from_slice(&[locality.number(), u8::from(completes)])?;
    text.extend_from_slice(random)?;
    text.extend_from_slice(buffer)
}

/// Encodes a power cycle at this time of the host's clock. The number `start` has no effect.
#[tactic(auto, using(crate::proofs::Texts::cycle_read))]
pub fn power_cycle(alloc: Global, now_ms: u64, start: u64) -> Result<Vec<u8>, AllocError>
    ensures text { IfOk result (λ text. text.items ≡ cycle_text now_ms start) }
    ensures read { IfOk result (λ text. command_of text.items ≡ Ok (Cycles now_ms start)) }
{
    let mut text = Vec::new(alloc);
    text.push(1)?;
    text.extend_from_slice(&now_ms.to_be_bytes())?;
    text.extend_from_slice(&start.to_be_bytes())?;
    Ok(text)
}

/// Encodes a command that replaces the device with one that is created from this seed.
#[tactic(auto, using(crate::proofs::Texts::beginning_read))]
pub fn beginning(alloc: Global, seed: &[u8]) -> Result<Vec<u8>, AllocError>
    ensures text { IfOk result (λ text. text.items ≡ 2 ∷ seed.now) }
    ensures read { IfOk result (λ text. command_of text.items ≡ Ok (Begins seed.now)) }
{
    let mut text = Vec::new(alloc);
    text.push(2)?;
    text.extend_from_slice(seed)?;
    Ok(text)
}

/// Encodes the seed for a new device, whose secrets are these random bytes.
pub fn seed_of_random(
    alloc: Global,
    now_ms: u64,
    start: u64,
    random: &[u8; 256],
) -> Result<Vec<u8>, AllocError>
    ensures { IfOk result (λ text. seed_in text.items
        ≡ Ok (record { kind = 0; now = now_ms; start = start; content = random.now })) }
{
    seed(alloc, 0, now_ms, start, random)
}

/// Encodes the seed for the device that a state text contains.
pub fn seed_of_state(
    alloc: Global,
    now_ms: u64,
    start: u64,
    state: &[u8],
) -> Result<Vec<u8>, AllocError>
    ensures { IfOk result (λ text. seed_in text.items
        ≡ Ok (record { kind = 2; now = now_ms; start = start; content = state.now })) }
{
    seed(alloc, 2, now_ms, start, state)
}

/// Encodes a seed. For kind 0, the content is 256 random bytes; for kind 1, an image; for kind 2, a
/// state text.
#[tactic(auto, using(crate::proofs::Texts::seed_read))]
pub fn seed(
    alloc: Global,
    kind: u8,
    now_ms: u64,
    start: u64,
    content: &[u8],
) -> Result<Vec<u8>, AllocError>
    ensures text { IfOk result (λ text. text.items ≡ seed_text kind now_ms start content.now) }
    ensures read { IfOk result (λ text. seed_in text.items
        ≡ Ok (record { kind = kind; now = now_ms; start = start; content = content.now })) }
{
    let mut text = Vec::new(alloc);
    text.push(kind)?;
    text.extend_from_slice(&now_ms.to_be_bytes())?;
    text.extend_from_slice(&start.to_be_bytes())?;
    text.extend_from_slice(content)?;
    Ok(text)
}
