//! A device with the completing layer saves a key, and loads it again.

use crate::contexts::{KEY, check, key_of};
use std::alloc::Global;
use std::process::Abort;
use std::test::Fail;
use tpm_completion::{Completion, execute};
use tpm_machine::Machine;
use tpm_record::Keep;
use tpm_slots::SlotKeep;
use tpm_step::{Event, Outcome};
use tpm_types_common::{Handle, Locality};

/// TPM2_Startup(CLEAR).
const STARTUP: &[u8] = b"\x80\x01\0\0\0\x0c\0\0\x01\x44\0\0";

/// TPM2_ContextSave and TPM2_FlushContext for the first transient handle.
const SAVE: &[u8] = b"\x80\x01\0\0\0\x0e\0\0\x01\x62\x80\0\0\0";

const FLUSH: &[u8] = b"\x80\x01\0\0\0\x0e\0\0\x01\x65\x80\0\0\0";

/// The header of TPM2_ContextLoad for the key's 127-byte context.
const LOAD_HEADER: &[u8] = b"\x80\x01\0\0\0\x89\0\0\x01\x61";

/// Four responses: one with the first transient handle; one without parameters; the error
/// OBJECT_MEMORY; and the error INTEGRITY for parameter 1.
const LOADED: &[u8] = b"\x80\x01\0\0\0\x0e\0\0\0\0\x80\0\0\0";

const DONE: &[u8] = b"\x80\x01\0\0\0\x0a\0\0\0\0";

const FULL: &[u8] = b"\x80\x01\0\0\0\x0a\0\0\x09\x02";

const BROKEN: &[u8] = b"\x80\x01\0\0\0\x0a\0\0\x01\xdf";

/// A device with the completing layer, and its latest outcome.
#[derive(Drop)]
struct Bench {
    machine: Machine<SlotKeep>,
    layer: Completion,
    outcome: Outcome,
}

impl Bench {
    /// A device after TPM2_Startup, with the key loaded.
    fn new(alloc: Global) -> Result<Bench, Fail> {
        let mut bench = Bench {
            machine: Machine::manufacture(alloc, &[7; 256])?,
            layer: Completion::of_start(5),
            outcome: Outcome::empty(),
        };
        bench.command(STARTUP);
        if let Some(key) = key_of(KEY) {
            let _ = bench.machine.place(key);
        }
        Ok(bench)
    }

    fn event(&mut self, event: &Event) {
        let Bench {
            machine,
            layer,
            outcome,
        } = self;
        execute(machine, layer, true, event, outcome);
    }

    fn command(&mut self, buffer: &[u8]) {
        let locality = Locality::new(0).unwrap();
        self.event(&Event::of_command(buffer, locality, 0, [0; 256]));
    }

    /// Whether a command gets this response.
    fn responds(&mut self, buffer: &[u8], wanted: &[u8]) -> bool {
        self.command(buffer);
        self.outcome.response.as_slice() == wanted
    }

    /// Saves the key, and returns the command that loads its context, or zeros if the save failed.
    fn saved(&mut self) -> [u8; 137] {
        self.command(SAVE);
        let response = self.outcome.response.as_slice();
        let mut load = [0; 137];
        if response.len() == 137 {
            load.copy_from_slice(response);
            load[..10].copy_from_slice(LOAD_HEADER);
        }
        load
    }

    /// Whether the first transient handle refers to the key.
    fn has_key(&self) -> bool {
        let handle = Handle {
            number: 0x8000_0000,
        };
        match (self.machine.keep().objects().get(handle), key_of(KEY)) {
            (Some(object), Some(key)) => object.name().as_slice() == key.name().as_slice(),
            _ => false,
        }
    }
}

#[test]
fn a_flushed_key_comes_back(rt: HostRuntime) -> Result<(), Fail> {
    let mut bench = Bench::new(rt.alloc())?;
    let load = bench.saved();
    check(&rt, bench.responds(FLUSH, DONE), true);
    check(&rt, bench.has_key(), false);
    check(&rt, bench.responds(&load, LOADED), true);
    check(&rt, bench.has_key(), true);
    Ok(())
}

#[test]
fn a_full_device_loads_no_more(rt: HostRuntime) -> Result<(), Fail> {
    let mut bench = Bench::new(rt.alloc())?;
    let load = bench.saved();
    for _ in 1..8 {
        bench.command(&load);
    }
    check(&rt, bench.responds(&load, FULL), true);
    check(&rt, bench.responds(FLUSH, DONE), true);
    check(&rt, bench.responds(&load, LOADED), true);
    Ok(())
}

#[test]
fn a_changed_or_outdated_context_is_refused(rt: HostRuntime) -> Result<(), Fail> {
    let mut bench = Bench::new(rt.alloc())?;
    let load = bench.saved();
    let mut changed = load;
    changed[136] ^= 1;
    check(&rt, bench.responds(&changed, BROKEN), true);
    bench.event(&Event::PowerCycle);
    bench.command(STARTUP);
    check(&rt, bench.responds(&load, BROKEN), true);
    Ok(())
}
