//! Finds values in slots by number. A number consists of a kind and a slot, like a TPM handle. The
//! laws in this file show that this is a map.

ghost use Rattle.std.specs.Prelude.{◌≡◌, ◌<◌, ◌⊎◌, ℕ, List, None, Option, is_some, length, option_copied};
ghost use Rattle.std.specs.Borrow.{LendsIf, sem};
ghost use Rattle.std.specs.Option.{option_copied_mut};
ghost use Rattle.tpm_containers.specs.Numbered.{MapLaws, at_number, number_of, place_of, without_number};
ghost use Rattle.tpm_containers.specs.Slots.{AreAll, free};

use crate::slots::Slots;

/// A value that has a kind: the most significant byte of the value's number.
pub trait Kinded: Drop {
    ghost kind: { Self → ℕ };

    fn kind(&self) -> u32
        ensures { result ≡ kind self.now };
}

/// A value with properties that follow from the types of its parts.
pub trait Sizes: Drop {
    /// The properties of a value that follow from the types of its parts.
    ghost IsOne: { Self → Type 0 };

    /// The value has the properties that follow from the types of its parts. This function is only
    /// a proof: it has no effect at run time.
    fn read_sizes(&self)
        ensures { IsOne self.now };
}

/// The number of slots that the numbers of one kind can identify.
const PLACE_NUMBERS: u32 = 0x0100_0000;

/// The slot that a number identifies.
pub fn place_of(number: u32) -> usize
    ensures { result ≡ place_of number }
{
    (number % PLACE_NUMBERS) as usize
}

/// The number of a value of this kind in this slot.
pub fn number_of(kind: u32, place: usize) -> u32
    requires kind { kind < 256 }
    requires place { place < 0x0100_0000 }
    ensures { result ≡ number_of kind place }
{
    kind * PLACE_NUMBERS + place as u32
}

/// The value with this number, or None.
#[tactic(auto, unfolding(crate::specs::Numbered::at_number))]
pub fn get<T: Kinded, const N: usize, P: Slots<T, N>>(places: &P, number: u32) -> Option<&T>
    ensures value { option_copied result ≡ at_number T.kind (P.places places.now) number }
    // There are always `N` slots.
    ensures all { length (P.places places.now) ≡ N }
{
    let value = places.get(place_of(number))?;
    if number / PLACE_NUMBERS == value.kind() {
        Some(value)
    } else {
        None
    }
}

/// A mutable reference to the value with this number, or None.
#[tactic(auto, unfolding(crate::specs::Numbered::at_number))]
pub fn get_mut<T: Kinded, const N: usize, P: Slots<T, N>>(
    places: &mut P,
    number: u32,
) -> Option<&mut T>
    ensures* writes_back { sem 𝓛 (LendsIf P.row T.row places.entry result
        (P.with_place places.entry.now (place_of number)) places.entry.now) }
    ensures value { option_copied_mut result ≡ at_number T.kind (P.places places.old) number }
{
    if get(places, number).is_none() {
        return None;
    }
    places.get_mut(place_of(number))
}

/// Removes the value with this number. Returns whether there was such a value.
#[tactic(auto, unfolding(crate::specs::Numbered::without_number))]
pub fn remove<T: Kinded, const N: usize, P: Slots<T, N>>(places: &mut P, number: u32) -> bool
    ensures there { result ≡ is_some (at_number T.kind (P.places places.old) number) }
    ensures after { P.places places.new ≡ without_number T.kind (P.places places.old) number }
{
    if get(places, number).is_none() {
        return false;
    }
    places.remove(place_of(number));
    true
}

/// Each value has the properties that follow from the types of its parts, and there are `N` slots.
/// This function is only a proof: it has no effect at run time.
pub fn read_sizes<T: Sizes, const N: usize, P: Slots<T, N>>(places: &P)
    ensures each { AreAll T.IsOne (P.places places.now) }
    // There are always `N` slots.
    ensures all { length (P.places places.now) ≡ N }
{
    let _ = places.get(N);
    for place in 0..N {
        if let Some(value) = places.get(place) {
            value.read_sizes();
        }
    }
}

/// For any type of value, slots form a map keyed by number. This function is only a proof: it has
/// no effect at run time.
#[inline(always)]
#[tactic(auto, using(crate::proofs::NumberedLaws::is_map))]
pub fn numbered_laws<T: Kinded>()
    ensures { MapLaws T.kind }
{}

/// After a removal, a search for any number finds the same value as before, or nothing. If all
/// slots are free, a search finds no value. This function is only a proof: it has no effect at run
/// time.
#[inline(always)]
#[tactic(auto, using(crate::proofs::FoundNumbers::removed_or_same, crate::proofs::FoundNumbers::free_found))]
pub fn found_laws<T: Kinded>()
    ensures removed { (places : List (Option T)) (number other : ℕ)
        → (at_number T.kind (without_number T.kind places number) other
        ≡ at_number T.kind places other)
        ⊎ (at_number T.kind (without_number T.kind places number) other ≡ None) }
    ensures free { (count number : ℕ) → at_number T.kind (free count) number ≡ None }
{}
