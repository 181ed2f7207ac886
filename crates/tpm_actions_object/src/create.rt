//! TPM2_Create: makes an object under a storage parent and returns its private area (specified in
//! `specs/Create`).

ghost use Rattle.std.specs.Prelude.{◌≡◌, ◌≤◌, drop, take};
ghost use Rattle.tpm_record.specs.rows.Request.{request_of};
ghost use Rattle.tpm_record.specs.rows.Rows.{Acts};
ghost use Rattle.tpm_actions_object.specs.Create.{create_row};

use crate::checks::{given_passes, public_passes};
use crate::creation::{Parent, put_creation, read_parameters};
use crate::loaded::{check_parent, is_fixed, loaded};
use tpm_name::Name;
use tpm_object::{create as create_areas, drawn_by, wrap_named};
use tpm_record::Keep;
use tpm_record::rows::answer::Answer;
use tpm_record::rows::call::Call;
use tpm_types_common::Refused;

/// The number of random bytes in the IV of a private area.
const VECTOR_SIZE: usize = 16;

/// The random bytes for a private area's IV, which follow the random bytes for the object.
fn initial_vector(random: &[u8; 256], drawn: usize) -> [u8; 16]
    requires { drawn ≤ 64 }
    ensures { result ≡ take 16 (drop drawn random.now) }
{
    let mut iv = [0; VECTOR_SIZE];
    iv.copy_from_slice(&random[drawn..drawn + VECTOR_SIZE]);
    iv
}

/// TPM2_Create: makes an object under a storage parent, and returns it wrapped.
#[tactic(auto, unfolding(crate::specs::Create::create_row))]
pub fn create<K: Keep>(keep: &mut K, call: &Call, answer: &mut Answer) -> Result<(), Refused>
    ensures { Acts (create_row (K.record_of keep.old) (request_of call.now))
        (K.record_of keep.old) result answer.new (K.record_of keep.new) }
{
    answer.clear();
    let parent = loaded(keep, call.first_handle()?)?;
    let asked = read_parameters(call.parameters)?;
    check_parent(parent)?;
    public_passes(1, &asked.template, is_fixed(parent))?;
    given_passes(4, &asked.given, &asked.template)?;
    let drawn = drawn_by(&asked.template, &asked.given);
    let created = create_areas(&asked.template, &asked.given, call.random);
    let iv = initial_vector(call.random, drawn);
    let name = tpm_name::of_object(&created.public);
    let private = wrap_named(parent, &name, &created.sensitive, &iv);
    let text = &mut answer.parameters;
    text.append_sized(private.as_slice());
    let above = Parent::of_object(parent);
    put_creation(
        keep,
        call.locality,
        &above,
        asked,
        &created.public,
        &name,
        text,
    );
    answer.drawn = drawn + VECTOR_SIZE;
    Ok(())
}
