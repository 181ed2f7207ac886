//! The form of a command in words: its name, and a word for each of its handles and parameters.

ghost use Rattle.std.specs.Prelude.{◌≡◌, ◌≤◌, ◌+◌, ◌*◌, ◌++◌, IfOk, length};
ghost use Rattle.std.specs.List.{flat_map};
ghost use Rattle.arrayvec.specs.ArrayString.{array_string_len};
ghost use Rattle.tpm_commands.specs.CommandCode.{shape_of};
ghost use Rattle.tpm_help.specs.Form.{form_of, handle_form, handle_word, parameter_form};
ghost use Rattle.tpm_help.specs.Form.{parameter_word};

use arrayvec::ArrayString;
use std::alloc::{AllocError, Global};
use tpm_commands::{CommandCode, HandleKind, HandleRule, ParameterKind};

/// The form of a command in words.
pub type Form = ArrayString<128>;

/// The word for a handle of this kind.
#[tactic(auto, unfolding(crate::specs::Form::handle_word))]
pub fn handle_word(kind: HandleKind) -> &'static str
    ensures value { result.now ≡ handle_word kind }
    ensures short { length result.now ≤ 9 }
{
    match kind {
        HandleKind::Pcr | HandleKind::PcrOrNull => "PCR",
        HandleKind::Null => "NULL",
        HandleKind::Lockout => "LOCKOUT",
        HandleKind::HierarchyAuth
        | HandleKind::Hierarchy
        | HandleKind::Provision
        | HandleKind::Clear => "Hierarchy",
        HandleKind::Entity | HandleKind::EntityNotNull | HandleKind::NvAuth => "Entity",
        HandleKind::Object => "Object",
        HandleKind::PolicySession => "Policy",
        HandleKind::NvIndex => "Index",
    }
}

/// The word for a parameter of this kind.
#[tactic(auto, unfolding(crate::specs::Form::parameter_word))]
pub fn parameter_word(kind: ParameterKind) -> &'static str
    ensures value { result.now ≡ parameter_word kind }
    ensures short { length result.now ≤ 10 }
{
    match kind {
        ParameterKind::SessionType | ParameterKind::YesNo | ParameterKind::U8 => "u8",
        ParameterKind::StartupType | ParameterKind::Operation | ParameterKind::U16 => "u16",
        ParameterKind::PersistentHandle | ParameterKind::U32 => "u32",
        ParameterKind::U64 => "u64",
        ParameterKind::Hash | ParameterKind::HashOrNull => "Hash",
        ParameterKind::Symmetric => "Cipher",
        ParameterKind::Selection => "Selection",
        ParameterKind::Digests => "Digests",
        ParameterKind::DigestList => "Buffers",
        ParameterKind::Hierarchy => "Hierarchy",
        ParameterKind::AlgorithmList => "Algorithms",
        ParameterKind::PublicParameters => "Bytes",
        ParameterKind::Buffer(_)
        | ParameterKind::SensitiveCreate
        | ParameterKind::Public
        | ParameterKind::NvPublic => "Buffer",
    }
}

/// The parameters of a command.
fn parameters_of(code: CommandCode) -> &'static [ParameterKind]
    ensures value { result.now ≡ (shape_of code).parameters }
    ensures few { length result.now ≤ 5 }
{
    code.shape().parameters
}

/// The form of a command in words, such as `NV_Write @Entity Index Buffer u16`. An `@` marks a
/// handle that an authorization entry must authorize. The form omits the entries, which follow the
/// handles.
pub fn form_text(code: CommandCode) -> Form
    ensures { result.bytes ≡ form_of code }
{
    let mut form = ArrayString::new();
    form.push_str(code.name());
    put_handles(code.shape().handles, &mut form);
    put_parameters(parameters_of(code), &mut form);
    form
}

/// Returns the form of a command in words, like [`form_text`], but as a `String`.
pub fn form_of(alloc: Global, code: CommandCode) -> Result<String, AllocError>
    ensures { IfOk result (λ form. form.bytes.items ≡ form_of code) }
{
    String::from_str(alloc, form_text(code).as_str())
}

/// Adds a word for each handle, preceded by a space.
fn put_handles(rules: &[HandleRule], form: &mut Form)
    requires { array_string_len form.old + 11 * length rules.now ≤ 128 }
    ensures text { form.new.bytes ≡ form.old.bytes ++ flat_map handle_form rules.now }
    ensures short { array_string_len form.new ≤ array_string_len form.old + 11 * length rules.now }
{
    let Some((rule, others)) = rules.split_first() else {
        return;
    };
    form.push_str(if rule.role.is_some() { " @" } else { " " });
    form.push_str(handle_word(rule.kind));
    put_handles(others, form);
}

/// Adds a word for each parameter, preceded by a space.
fn put_parameters(kinds: &[ParameterKind], form: &mut Form)
    requires { array_string_len form.old + 11 * length kinds.now ≤ 128 }
    ensures { form.new.bytes ≡ form.old.bytes ++ flat_map parameter_form kinds.now }
{
    let Some((kind, others)) = kinds.split_first() else {
        return;
    };
    form.push_str(" ");
    form.push_str(parameter_word(*kind));
    put_parameters(others, form);
}
