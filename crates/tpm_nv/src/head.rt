//! An NV index without its data: its public area and its authorization value.

ghost use Rattle.std.specs.Prelude.{◌≡◌};

use tpm_mac::HashAlg;
use tpm_types_common::{AuthValue, Handle, Octets};
use tpm_types_nv::{NvAttributes, NvPublic};

/// An index without its data.
#[derive(Drop)]
pub struct Head {
    pub public: NvPublic,
    pub auth_value: AuthValue,
}

impl Default for Head {
    /// A placeholder for a free slot.
    fn default() -> Head {
        Head {
            public: NvPublic {
                nv_index: Handle { number: 0 },
                name_alg: HashAlg::Sha1,
                attributes: NvAttributes { bits: 0 },
                auth_policy: Octets::empty(),
                data_size: 0,
            },
            auth_value: AuthValue::empty(),
        }
    }
}
