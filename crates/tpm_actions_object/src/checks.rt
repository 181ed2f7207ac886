//! The checks of a template and of inSensitive, and their refusals in the commands that create or
//! load an object.

ghost use Rattle.std.specs.Prelude.{◌≡◌, ◌≤◌};
ghost use Rattle.tpm_types_object.specs.SensitiveCreate.{sensitive_values_of};
ghost use Rattle.tpm_actions_object.specs.Checks.{creation_refusal, given_passes, public_passes, template_refusal};

use tpm_object::{CreationFault, TemplateFault, check_creation, check_template};
use tpm_record::rows::refusals::parameter_refusal;
use tpm_types_common::{ActionCheck, Refused, ResponseCode};
use tpm_types_object::{Public, SensitiveCreate};

/// The refusal if a template fails a check. `before` is the number of the command's own checks
/// before the template's checks.
fn template_refusal(before: u8, fault: TemplateFault) -> Refused
    requires { before ≤ 4 }
    ensures { result ≡ template_refusal before fault }
{
    match fault {
        TemplateFault::AuthPolicySize => parameter_refusal(
            ActionCheck::named(before + 1),
            2,
            ResponseCode::Size,
        ),
        TemplateFault::Attributes => parameter_refusal(
            ActionCheck::named(before + 2),
            2,
            ResponseCode::Attributes,
        ),
        TemplateFault::Scheme => parameter_refusal(
            ActionCheck::named(before + 3),
            2,
            ResponseCode::Scheme,
        ),
    }
}

/// The refusal if inSensitive fails a check. `before` is the number of the command's own checks
/// before the checks of inSensitive.
fn creation_refusal(before: u8, fault: CreationFault) -> Refused
    requires { before ≤ 4 }
    ensures { result ≡ creation_refusal before fault }
{
    match fault {
        CreationFault::AuthValueSize => parameter_refusal(
            ActionCheck::named(before + 1),
            1,
            ResponseCode::Size,
        ),
        CreationFault::Attributes => parameter_refusal(
            ActionCheck::named(before + 2),
            2,
            ResponseCode::Attributes,
        ),
        CreationFault::DataSize => parameter_refusal(
            ActionCheck::named(before + 3),
            1,
            ResponseCode::Size,
        ),
    }
}

/// Checks a template, or a public area to be loaded. `before` is the number of the command's own
/// checks before the template's checks.
pub fn public_passes(before: u8, public: &Public, parent_is_fixed: bool) -> Result<(), Refused>
    requires { before ≤ 4 }
    ensures { result ≡ public_passes before parent_is_fixed public.now }
{
    check_template(public, parent_is_fixed).map_err(|fault| template_refusal(before, fault))
}

/// Checks inSensitive against the template.
pub fn given_passes(before: u8, given: &SensitiveCreate, template: &Public) -> Result<(), Refused>
    requires { before ≤ 4 }
    ensures { result ≡ given_passes before (sensitive_values_of given.now) template.now }
{
    check_creation(given, template).map_err(|fault| creation_refusal(before, fault))
}
