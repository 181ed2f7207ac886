//! Laws about the lists of TPM2_GetCapability. Each function is only a proof: it has no effect at
//! run time.

ghost use Rattle.tpm_actions_capability.specs.PcrProperties.{PcrPropertiesHold};
ghost use Rattle.tpm_actions_capability.specs.Symmetric.{IsSymmetricRow};

/// States that on a device of the symmetric profile, TPM2_GetCapability lists only handles,
/// commands, PCRs and six properties.
#[tactic(auto, using(crate::proofs::Symmetric::is_symmetric_row))]
pub fn symmetric_laws()
    ensures { IsSymmetricRow }
{}

/// States that the listed properties of PCRs match the device.
#[tactic(auto, using(crate::proofs::PcrProperties::pcr_properties_hold))]
pub fn pcr_laws()
    ensures { PcrPropertiesHold }
{}
