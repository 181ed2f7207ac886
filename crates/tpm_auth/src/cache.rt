//! Caches the latest HMAC key and the latest Name, which may be needed again. No contract mentions
//! the cache, because it changes no result.

ghost use Rattle.std.specs.Prelude.{◌≡◌, ◌≤◌, length};
ghost use Rattle.std.specs.Str.{bytes_eq};
ghost use Rattle.tpm_types_name.specs.Name.{hashed_name};
ghost use Rattle.tpm_record.specs.Entity.{entity_name, entity_seen};

use arrayvec::ArrayVec;
use std::marker::Model;
use tpm_bytes::{copied, is_equal};
use tpm_mac::{HashAlg, KeyedMac};
use tpm_record::{Entity, Resolved};
use tpm_types_name::Name;

/// The latest HMAC key, and the latest Name of an object or NV index. The cache is not part of the
/// device's state.
#[derive(Drop)]
pub struct Cache {
    pub keyed: KeyedMac,
    pub name: LatestName,
}

impl Cache {
    /// Creates the cache of a device that has not executed a command yet.
    pub fn new() -> Cache {
        Cache {
            keyed: KeyedMac::new(),
            name: LatestName::new(),
        }
    }
}

/// The latest computed Name, and the encoded public area from which it was computed. The Name is
/// reused as long as the area stays the same.
#[derive(Drop)]
pub struct LatestName {
    alg: HashAlg,
    area: ArrayVec<u8, 82>,
    name: Name,
}

impl Model for LatestName {
    ghost use Rattle.std.specs.Prelude.{◌≡◌};
    ghost use Rattle.tpm_types_name.specs.Name.{hashed_name};

    ghost Value = { Unit {0} };

    ghost view = { λ latest. tt };

    ghost invariant = { λ latest. latest.name ≡ hashed_name latest.alg latest.area.items };
}

impl LatestName {
    /// Creates a cache that contains an empty public area and its Name.
    pub fn new() -> LatestName {
        LatestName {
            alg: HashAlg::Sha256,
            area: ArrayVec::new(),
            name: Name::hashed(HashAlg::Sha256, &[]),
        }
    }

    /// The Name of an entity with this nameAlg, whose public area has this encoding.
    fn of_area(&mut self, alg: HashAlg, area: &[u8]) -> Name
        requires { length area.now ≤ 82 }
        ensures { result ≡ hashed_name alg area.now }
    {
        if self.alg != alg || self.area.as_slice() != area {
            self.name = Name::hashed(alg, &[area]);
            self.alg = alg;
            self.area = copied(area);
        }
        self.name.copy()
    }

    /// The Name of an entity.
    #[tactic(auto, unfolding(tpm_name::specs::NvName::nv_name, tpm_name::specs::ObjectName::object_name))]
    pub fn name_of(&mut self, resolved: &Resolved) -> Name
        ensures { result
            ≡ entity_name resolved.now.handle (entity_seen resolved.now.entity) }
    {
        match resolved.entity {
            Entity::Object(object) => {
                self.of_area(object.public.name_alg, object.public.text().as_slice())
            }
            Entity::Index(index) => {
                self.of_area(index.public.name_alg, index.public.text().as_slice())
            }
            Entity::Permanent => Name::of_handle(resolved.handle),
        }
    }

    /// Whether this is the Name of an entity.
    pub fn is_name_of(&mut self, name: &Name, resolved: &Resolved) -> bool
        ensures { result ≡ bytes_eq name.now
            (entity_name resolved.now.handle (entity_seen resolved.now.entity)) }
    {
        match resolved.entity {
            Entity::Permanent => {
                is_equal(name.as_slice(), &resolved.handle.number.to_be_bytes())
            }
            Entity::Object(_) | Entity::Index(_) => name.is_same(&self.name_of(resolved)),
        }
    }
}
