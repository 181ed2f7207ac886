//! The policy of a session in a state text.

ghost use Rattle.std.specs.Prelude.{◌≡◌, ◌≤◌, ◌+◌, ◌++◌, IfOk, length};
ghost use Rattle.tpm_bytes.specs.Reading.{Reads};
ghost use Rattle.tpm_image_text.specs.Sizes.{text_size};
ghost use Rattle.tpm_state_text.specs.Policies.{demand_in, demand_named, demand_number, localities_in, policy_in, policy_text};
ghost use Rattle.tpm_state_text.specs.Sizes.{policy_size};

use crate::optional::{
    read_digest, read_optional_bool, read_optional_digest, read_optional_u32, read_optional_u64,
    write_optional_bool, write_optional_digest, write_optional_u32, write_optional_u64,
};
use tpm_bytes::Cursor;
use tpm_image_text::{Malformed, Text, read_u8, write_sized};
use tpm_policy::{Demand, PolicyState};

/// The set of all localities, 0 to 4, with one bit for each locality.
const LOCALITIES: u8 = 0x1f;

fn demand_number(demand: Demand) -> u8
    ensures { result ≡ demand_number demand }
{
    match demand {
        Demand::None => 0,
        Demand::AuthValue => 1,
        Demand::Password => 2,
    }
}

fn demand_named(number: u8) -> Option<Demand>
    ensures { result ≡ demand_named number }
{
    match number {
        0 => Some(Demand::None),
        1 => Some(Demand::AuthValue),
        2 => Some(Demand::Password),
        _ => None,
    }
}

#[tactic(auto, unfolding(crate::specs::Policies::demand_in))]
fn read_demand(text: &mut Cursor) -> Result<Demand, Malformed>
    ensures { Reads (λ demand. demand) (demand_in text.old) text.old result text.new }
{
    let mut ahead = Cursor::new(text.rest());
    let Some(demand) = demand_named(read_u8(&mut ahead)?) else {
        return Err(Malformed);
    };
    *text = ahead;
    Ok(demand)
}

#[tactic(auto, unfolding(crate::specs::Policies::localities_in))]
fn read_localities(text: &mut Cursor) -> Result<u8, Malformed>
    ensures exact { Reads (λ localities. localities) (localities_in text.old) text.old
        result text.new }
    ensures few { IfOk result (λ localities. localities ≤ 31) }
{
    let mut ahead = Cursor::new(text.rest());
    let localities = read_u8(&mut ahead)?;
    if localities > LOCALITIES {
        return Err(Malformed);
    }
    *text = ahead;
    Ok(localities)
}

/// Reads a policy.
#[tactic(auto, unfolding(crate::specs::Policies::policy_in))]
pub fn read_policy(text: &mut Cursor) -> Result<PolicyState, Malformed>
    ensures { Reads (λ policy. policy) (policy_in text.old) text.old result text.new }
{
    let mut ahead = Cursor::new(text.rest());
    let digest = read_digest(&mut ahead)?;
    let update_count = read_optional_u64(&mut ahead)?;
    let command = read_optional_u32(&mut ahead)?;
    let cp_hash = read_optional_digest(&mut ahead)?;
    let nv_written = read_optional_bool(&mut ahead)?;
    let localities = read_localities(&mut ahead)?;
    let demand = read_demand(&mut ahead)?;
    *text = ahead;
    Ok(PolicyState::of(
        digest,
        update_count,
        command,
        cp_hash,
        nv_written,
        localities,
        demand,
    ))
}

/// Writes a policy.
#[tactic(auto, unfolding(crate::specs::Policies::policy_text))]
pub fn write_policy(policy: &PolicyState, text: &mut Text)
    requires { length text.old + policy_size ≤ text_size }
    ensures written { text.new ≡ text.old ++ policy_text policy.now }
    ensures small { length text.new ≤ length text.old + policy_size }
{
    write_sized(policy.digest(), 32, text);
    write_optional_u64(policy.recorded_update_count(), text);
    write_optional_u32(policy.recorded_command(), text);
    write_optional_digest(policy.recorded_cp_hash(), text);
    write_optional_bool(policy.recorded_nv_written(), text);
    text.append_u8(policy.localities());
    text.append_u8(demand_number(policy.demand()));
}
