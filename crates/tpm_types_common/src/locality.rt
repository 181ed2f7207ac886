//! Localities 0 to 4, from which commands come (TPM 2.0 Library, Part 1, section 3, and Part 2,
//! section 8.5).

ghost use Rattle.std.specs.Prelude.{◌≡◌, ◌≤◌};

/// The locality that a command comes from, 0 to 4 (Part 1, section 3, and Part 2, section 8.5).
#[derive(Clone, Copy, PartialEq, Eq)]
pub struct Locality {
    number: u8,
    ghost in_range: { number ≤ 4 },
}

impl Locality {
    ghost use Rattle.tpm_types_common.specs.Locality.{locality_number, SomeLocality};

    /// The locality with this number, or None if the number is over 4.
    pub fn new(number: u8) -> Option<Locality>
        ensures { SomeLocality number result }
    {
        if number <= 4 {
            Some(Locality { number })
        } else {
            None
        }
    }

    /// The number of the locality, 0 to 4.
    pub fn number(self) -> u8
        ensures value { result ≡ locality_number self }
        ensures small { result ≤ 4 }
    {
        self.number
    }
}
