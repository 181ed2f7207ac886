//! Laws about every image.

ghost use Rattle.std.specs.Prelude.{◌≡◌, ◌≤◌, ◌<◌, ℕ, List, Ok, Err, length, take};
ghost use Rattle.tpm_image_text.specs.Image.{IsImage, IsWithin, image_of, image_text};
ghost use Rattle.tpm_image_text.specs.Sizes.{image_size};
ghost use Rattle.tpm_image_text.specs.KeptText.{kept_but_clock, kept_text};
ghost use Rattle.tpm_image_text.specs.NonVolatile.{kept_of, powered_on};
ghost use Rattle.tpm_image_text.specs.declared.fault.ImageFault.TheVariants as fault;
ghost use Rattle.tpm_image_text.specs.declared.version.Version.{Version};
ghost use Rattle.tpm_image_text.specs.Version.{version_of};
ghost use Rattle.tpm_record.specs.Cycle.{after_cycle};
ghost use Rattle.tpm_record.specs.IsRecord.{IsRecord};
ghost use Rattle.tpm_record.specs.Record.{Record};

/// Every device has an image in the version of its profile. The image of a device, in either version,
/// determines the non-volatile state, and does not exceed the largest size. Powering on with the
/// non-volatile state of a device results in the same device as a power cycle. The function does
/// nothing at run time.
#[inline(always)]
#[tactic(auto, using(crate::proofs::RecordLaws::record_image, crate::proofs::RecordLaws::record_again, crate::proofs::RecordLaws::record_small, crate::proofs::ImageLaws::powered_again))]
pub fn image_laws()
    ensures made { (r : Record) → IsRecord r
        → IsImage (version_of r.fixed.profile) (kept_of r)
        (image_text (version_of r.fixed.profile) (kept_of r)) }
    ensures told { (version : Version) (r : Record) → IsRecord r → IsWithin version (kept_of r)
        → image_of (image_text version (kept_of r)) ≡ Ok (kept_of r) }
    ensures small { (version : Version) (r : Record) → IsRecord r
        → length (image_text version (kept_of r)) ≤ image_size }
    ensures cycled { (r : Record) → powered_on (kept_of r) ≡ after_cycle r }
{}

/// If two records have the same `kept_text`, they have the same non-volatile state, except for
/// Clock.
#[inline(always)]
#[tactic(auto, using(crate::proofs::RecordLaws::kept_alike))]
pub fn kept_text_laws()
    ensures { (r s : Record) → IsRecord r → IsRecord s → r.fixed.profile ≡ s.fixed.profile
        → kept_text r ≡ kept_text s → kept_but_clock r ≡ kept_but_clock s }
{}

/// No proper prefix of an image of either version is an image. A prefix shorter than 42 bytes is
/// refused with Short, any other prefix with Length.
#[inline(always)]
#[tactic(auto, using(crate::proofs::ImageLaws::front_short, crate::proofs::RecordLaws::record_cut))]
pub fn prefix_laws()
    ensures short { (text : List ℕ) (n : ℕ) → n < 42 → image_of (take n text) ≡ Err fault.Short }
    ensures length { (version : Version) (r : Record) (n : ℕ) → IsRecord r → 42 ≤ n
        → n < length (image_text version (kept_of r))
        → image_of (take n (image_text version (kept_of r))) ≡ Err fault.Length }
{}
