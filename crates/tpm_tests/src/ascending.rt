//! Calls each function of a sorted map once, on both kinds of map.

use super::comparison::check;
use std::process::Abort;
use tpm_containers::{KeyFault, ListMap, SlotMap, SortedMap};

/// Stores a value with a key; returns whether the key is now present.
fn set<M: SortedMap<u32, 3>>(map: &mut M, key: u32, value: u32) -> bool {
    match map.get_mut(key) {
        Some(place) => {
            *place = value;
            true
        }
        None => false,
    }
}

/// Makes each call on a map of at most three values, and checks the results.
fn exercise<R: Abort, M: SortedMap<u32, 3>>(rt: &R, mut map: M) {
    check(rt, map.len(), 0);
    check(rt, map.next(0), None);
    check(rt, map.insert(5, 50), Ok(()));
    check(rt, map.insert(9, 90), Ok(()));
    check(rt, map.insert(5, 51), Err(KeyFault::Taken));
    check(rt, map.insert(7, 70), Ok(()));
    check(rt, map.insert(4, 40), Err(KeyFault::Full));
    check(rt, map.insert(9, 40), Err(KeyFault::Taken));
    check(rt, map.next(0), Some(5));
    check(rt, map.next(5), Some(5));
    check(rt, map.next(6), Some(7));
    check(rt, map.next(8), Some(9));
    check(rt, map.next(10), None);
    check(rt, map.get(7), Some(&70));
    check(rt, map.get(8), None);
    check(rt, set(&mut map, 7, 71), true);
    check(rt, set(&mut map, 8, 71), false);
    check(rt, map.get(7), Some(&71));
    check(rt, map.remove(5), true);
    check(rt, map.remove(5), false);
    check(rt, map.len(), 2);
    check(rt, map.next(0), Some(7));
    map.clear();
    check(rt, map.len(), 0);
}

#[test]
fn in_a_list(rt: HostRuntime) {
    exercise(&rt, ListMap::<u32, 3>::new(rt.alloc()));
}

#[test]
fn in_fixed_places(rt: HostRuntime) {
    exercise(&rt, SlotMap::<u32, 3>::new(rt.alloc()));
}
