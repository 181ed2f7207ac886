//! The hierarchies in an image.

ghost use Rattle.tpm_image_text.specs.Sizes.{text_size};
ghost use Rattle.std.specs.Prelude.{◌≡◌, ◌≤◌, ◌+◌, ◌++◌, length};
ghost use Rattle.tpm_bytes.specs.Reading.{Reads};
ghost use Rattle.tpm_image_text.specs.Body.{hierarchies_in, hierarchies_text, hierarchy_in, hierarchy_text, secrets_in, secrets_text};

use crate::fault::Malformed;
use crate::fields::{Text, read_array, read_auth_value, read_sized, write_sized};
use tpm_bytes::Cursor;
use tpm_record::hierarchy::Hierarchy;
use tpm_record::{Hierarchies, Secrets};

#[tactic(auto, unfolding(crate::specs::Body::secrets_in))]
fn read_secrets(text: &mut Cursor) -> Result<Secrets, Malformed>
    ensures { Reads (λ secrets. secrets) (secrets_in text.old) text.old result text.new }
{
    let mut ahead = Cursor::new(text.rest());
    let seed = read_array(&mut ahead)?;
    let proof = read_array(&mut ahead)?;
    *text = ahead;
    Ok(Secrets { seed, proof })
}

#[tactic(auto, unfolding(crate::specs::Body::hierarchy_in))]
fn read_hierarchy(text: &mut Cursor) -> Result<Hierarchy, Malformed>
    ensures { Reads (λ hierarchy. hierarchy) (hierarchy_in text.old) text.old result text.new }
{
    let mut ahead = Cursor::new(text.rest());
    let auth_value = read_auth_value(&mut ahead)?;
    let secrets = read_secrets(&mut ahead)?;
    *text = ahead;
    Ok(Hierarchy {
        auth_value,
        secrets,
    })
}

/// Reads the hierarchies, followed by lockoutAuth.
#[tactic(auto, unfolding(crate::specs::Body::hierarchies_in))]
pub fn read_hierarchies(text: &mut Cursor) -> Result<Hierarchies, Malformed>
    ensures { Reads (λ hierarchies. hierarchies) (hierarchies_in text.old) text.old
        result text.new }
{
    let mut ahead = Cursor::new(text.rest());
    let owner = read_hierarchy(&mut ahead)?;
    let endorsement = read_hierarchy(&mut ahead)?;
    let platform = read_hierarchy(&mut ahead)?;
    let _null_auth = read_sized(&mut ahead, 0)?;
    let null = read_secrets(&mut ahead)?;
    let lockout_auth = read_auth_value(&mut ahead)?;
    *text = ahead;
    Ok(Hierarchies {
        owner,
        endorsement,
        platform,
        null,
        lockout_auth,
    })
}

fn write_secrets(secrets: &Secrets, text: &mut Text)
    requires { length text.old + 64 ≤ text_size }
    ensures written { text.new ≡ text.old ++ secrets_text secrets.now }
    ensures small { length text.new ≤ length text.old + 64 }
{
    text.append(&secrets.seed);
    text.append(&secrets.proof);
}

fn write_hierarchy(hierarchy: &Hierarchy, text: &mut Text)
    requires { length text.old + 98 ≤ text_size }
    ensures written { text.new ≡ text.old ++ hierarchy_text hierarchy.now }
    ensures small { length text.new ≤ length text.old + 98 }
{
    write_sized(hierarchy.auth_value.as_slice(), 32, text);
    write_secrets(&hierarchy.secrets, text);
}

/// Writes the hierarchies, followed by lockoutAuth: at most 394 bytes.
#[tactic(auto, unfolding(crate::specs::Body::hierarchies_text))]
pub fn write_hierarchies(hierarchies: &Hierarchies, text: &mut Text)
    requires { length text.old + 394 ≤ text_size }
    ensures written { text.new ≡ text.old ++ hierarchies_text hierarchies.now }
    ensures small { length text.new ≤ length text.old + 394 }
{
    write_hierarchy(&hierarchies.owner, text);
    write_hierarchy(&hierarchies.endorsement, text);
    write_hierarchy(&hierarchies.platform, text);
    write_sized(&[], 0, text);
    write_secrets(&hierarchies.null, text);
    write_sized(hierarchies.lockout_auth.as_slice(), 32, text);
}
