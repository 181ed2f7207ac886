//! TPM2_PolicySecret: asserts that an entity authorized the command (specified in
//! `specs/PolicySecret`).

ghost use Rattle.tpm_bytes.specs.Reading.{Gives};
ghost use Rattle.std.specs.Prelude.{◌≡◌, IfOk};
ghost use Rattle.tpm_commands.specs.declared.command_code.CommandCode.TheVariants as command;
ghost use Rattle.tpm_record.specs.rows.Request.{request_of};
ghost use Rattle.tpm_record.specs.rows.Rows.{Acts};
ghost use Rattle.tpm_policy.specs.Assertion as assertion;
ghost use Rattle.tpm_policy.specs.Assertion.{Asserts, asserted_policy};
ghost use Rattle.tpm_types_common.specs.SessionType.{is_trial};
ghost use Rattle.tpm_record.specs.Entity.{name_of};
ghost use Rattle.tpm_actions_policy.specs.AssertionParameters.{secret_asked};
ghost use Rattle.tpm_actions_policy.specs.Assertions.{assertion_row};
ghost use Rattle.tpm_actions_policy.specs.PolicySecret.{secret_of, secret_parameters};

use crate::assertions::{AssertionParameters, make_assertion};
use tpm_bytes::Cursor;
use tpm_policy::{PolicyState, SecretAssertion};
use tpm_record::rows::answer::Answer;
use tpm_record::rows::call::Call;
use tpm_record::rows::reading::{end, number, parameter};
use tpm_record::{Keep, name_of};
use tpm_session::Session;
use tpm_types_common::{ActionFault, DIGEST_LIMIT, Handle, Refused, read_buffer};

/// An empty timeout, and the null ticket: TPM_ST_AUTH_SECRET, TPM_RH_NULL, an empty digest.
const NO_TICKET: [u8; 10] = [0, 0, 0x80, 0x23, 0x40, 0, 0, 7, 0, 0];

/// The parameters of TPM2_PolicySecret, with the entity that authorizes the command.
#[derive(Clone, Copy)]
pub struct ShownSecret<'a> {
    entity: Handle,
    nonce: &'a [u8],
    cp_hash: &'a [u8],
    reference: &'a [u8],
    expiration: u32,
}

impl ShownSecret<'_> {
    /// Adds this assertion of TPM2_PolicySecret to a session's policy.
    pub(crate) fn assert_on<K: Keep>(
        &self,
        keep: &K,
        session: &Session,
        policy: &mut PolicyState,
    ) -> Result<(), ActionFault>
        ensures { Asserts
            (asserted_policy session.now.hash (is_trial session.now.kind)
            (assertion.Secret (secret_of (secret_asked self.now)
            (name_of (K.record_of keep.now) self.now.entity) session.now)) policy.old)
            policy.old result policy.new }
    {
        let name = name_of(keep, self.entity);
        let secret = SecretAssertion {
            name: &name,
            nonce: self.nonce,
            nonce_tpm: session.nonce_tpm().as_slice(),
            cp_hash: self.cp_hash,
            reference: self.reference,
            expiration: self.expiration,
        };
        policy.secret(session.hash(), session.kind().is_trial(), &secret)
    }
}

#[tactic(auto, unfolding(crate::specs::PolicySecret::secret_parameters))]
fn read_secret<'a>(entity: Handle, parameters: &'a [u8]) -> Result<ShownSecret<'a>, Refused>
    ensures read { Gives secret_asked (secret_parameters parameters.now) result }
    ensures entity { IfOk result (λ secret. secret.entity ≡ entity) }
{
    let mut text = Cursor::new(parameters);
    let nonce = parameter(1, read_buffer(&mut text, DIGEST_LIMIT))?;
    let cp_hash = parameter(2, read_buffer(&mut text, DIGEST_LIMIT))?;
    let reference = parameter(3, read_buffer(&mut text, DIGEST_LIMIT))?;
    let expiration = number(4, text.u32())?;
    end(&text)?;
    Ok(ShownSecret {
        entity,
        nonce,
        cp_hash,
        reference,
        expiration,
    })
}

/// TPM2_PolicySecret: asserts that an entity authorized the command.
#[tactic(auto, unfolding(crate::specs::Assertions::assertion_row))]
pub fn policy_secret<K: Keep>(keep: &mut K, call: &Call, answer: &mut Answer) -> Result<(), Refused>
    ensures { Acts
        (assertion_row command.PolicySecret (K.record_of keep.old) (request_of call.now))
        (K.record_of keep.old) result answer.new (K.record_of keep.new) }
{
    answer.clear();
    let handle = call.second_handle()?;
    let secret = read_secret(call.first_handle()?, call.parameters)?;
    make_assertion(keep, handle, &AssertionParameters::Secret(secret))?;
    answer.parameters.append(&NO_TICKET);
    Ok(())
}
