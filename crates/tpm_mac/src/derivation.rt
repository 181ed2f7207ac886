//! The key derivation KDFa (TCG TPM 2.0 Library Part 1, 11.4.10.2).

ghost use Rattle.std.specs.Prelude.{◌≡◌, ◌+◌, ◌-◌, ◌^◌, ◌<◌, ◌≤◌};
ghost use Rattle.std.specs.Prelude.{[], ◌∷◌, ◌++◌, drop, length, List, take, ℕ};
ghost use Rattle.std.specs.Int.{to_be_bytes, w32};
ghost use Rattle.tpm_mac.specs.Kdf.{kdfa_of};
ghost use Rattle.tpm_mac.specs.Mac.{MacHolds};
ghost use Rattle.tpm_mac.specs.declared.algorithm.HashAlg.{HashAlg};

use crate::algorithm::HashAlg;
use crate::mac::Mac;

/// Fills `out` with the bytes that KDFa derives from the key, the label and the two contexts. The
/// number of bits requested is eight times the length of `out`, and must fit in 32 bits.
#[tactic(auto, unfolding(crate::specs::Kdf::kdfa_of))]
pub fn kdfa(
    alg: HashAlg,
    key: &[u8],
    label: &[u8],
    context_u: &[u8],
    context_v: &[u8],
    out: &mut [u8],
)
    requires { length out.old < 2 ^ 29 }
    ensures { out.new ≡ kdfa_of alg key.now label.now context_u.now context_v.now (length out.old) }
{
    let size = alg.size();
    let bits = (out.len() as u32 * 8).to_be_bytes();
    let mut mac = Mac::unkeyed(alg);
    mac.take_key(alg, key);
    let last = out.len().div_ceil(size).saturating_sub(1);
    for index in 0..last {
        let mut copy = mac.copy();
        let counter = index as u32 + 1;
        take_text(&mut copy, counter, label, context_u, context_v, &bits);
        write_front(out, index * size, copy.finish().as_slice());
    }
    // The last block uses up the HMAC itself. Therefore, if there is only one block, no copy is
    // made.
    let counter = last as u32 + 1;
    take_text(&mut mac, counter, label, context_u, context_v, &bits);
    write_front(out, last * size, mac.finish().as_slice());
}

/// Feeds the input of the block with this counter to an HMAC that was fed only its key.
fn take_text(
    mac: &mut Mac,
    counter: u32,
    label: &[u8],
    context_u: &[u8],
    context_v: &[u8],
    bits: &[u8],
)
    ensures { (alg : HashAlg) (key : List ℕ)
        → MacHolds mac.old alg key []
        → MacHolds mac.new alg key (to_be_bytes w32 counter ++ label.now ++ 0 ∷ []
        ++ context_u.now ++ context_v.now ++ bits.now) }
{
    mac.update(&counter.to_be_bytes());
    mac.update(label);
    mac.update(&[0]);
    mac.update(context_u);
    mac.update(context_v);
    mac.update(bits);
}

/// Writes the block to `out` at `start`. Bytes past the end of `out` are dropped.
fn write_front(out: &mut [u8], start: usize, block: &[u8])
    requires { start ≤ length out.old }
    ensures { out.new ≡ take start out.old ++ take (length out.old - start) block.now
        ++ drop (start + length block.now) out.old }
{
    let count = block.len().min(out.len() - start);
    out[start..start + count].copy_from_slice(&block[..count]);
}
