//! TPM2_Startup: starts the device with a TPM Reset, a TPM Restart or a TPM Resume (specified in
//! `specs/Startup`).

ghost use Rattle.std.specs.Prelude.{◌≡◌};
ghost use Rattle.tpm_record.specs.rows.Request.{request_of};
ghost use Rattle.tpm_record.specs.rows.Rows.{Acts};
ghost use Rattle.tpm_actions_device.specs.Startup.{reset_fixed, reset_hierarchies, reset_lockout, without_platform_auth};
ghost use Rattle.tpm_actions_device.specs.Startup.{restart_fixed, resume_fixed, start_draws, start_of, started_record, startup_row};

use tpm_bytes::Cursor;
use tpm_lockout::Lockout;
use tpm_nv::Indices;
use tpm_record::rows::answer::Answer;
use tpm_record::rows::call::Call;
use tpm_record::rows::reading::{end, parameter};
use tpm_record::rows::refusals::parameter_refusal;
use tpm_record::{Fixed, Hierarchies, Keep, SavedKind, Secrets};
use tpm_types_common::{ActionCheck, AuthValue, HierarchyAuth, Refused, ResponseCode, StartupType};

/// The number of random bytes that a TPM Reset draws, for a seed and a proof.
const RESET_DRAWS: usize = 64;

/// Empties platformAuth.
fn empty_platform_auth(hierarchies: &mut Hierarchies)
    ensures { hierarchies.new ≡ without_platform_auth hierarchies.old }
{
    hierarchies.set_auth_value(HierarchyAuth::Platform, AuthValue::empty());
}

/// Empties platformAuth, and draws a new seed and a new proof for the null hierarchy.
fn reset_hierarchies(hierarchies: &mut Hierarchies, random: &[u8; 256])
    ensures { hierarchies.new ≡ reset_hierarchies hierarchies.old random.now }
{
    empty_platform_auth(hierarchies);
    let (mut seed, mut proof) = ([0; 32], [0; 32]);
    seed.copy_from_slice(&random[..32]);
    proof.copy_from_slice(&random[32..64]);
    hierarchies.null = Secrets { seed, proof };
}

/// Enables lockoutAuth if lockoutRecovery is 0, because then no elapsed time would enable it.
fn reset_lockout(lockout: &mut Lockout)
    ensures { lockout.new ≡ reset_lockout lockout.old }
{
    if lockout.fields().lockout_recovery == 0 {
        lockout.lockout_open();
    }
}

/// The kind of a startup (TPM 2.0 Library, Part 1, section 12.2.3).
#[derive(Clone, Copy, PartialEq, Eq)]
pub enum Start {
    /// TPM Reset: a startup with CLEAR, unless TPM2_Shutdown(STATE) saved a state.
    Reset,
    /// TPM Restart: a startup with CLEAR, if TPM2_Shutdown(STATE) saved a state.
    Restart,
    /// TPM Resume: a startup with STATE, if TPM2_Shutdown(STATE) saved a state.
    Resume,
}

impl Start {
    /// The kind of a startup with this type. Returns VALUE if the type is STATE, but
    /// TPM2_Shutdown(STATE) saved no state.
    fn of(kind: StartupType, saved: SavedKind) -> Result<Start, Refused>
        ensures { result ≡ start_of kind saved }
    {
        match (kind, saved) {
            (StartupType::Clear, SavedKind::State) => Ok(Start::Restart),
            (StartupType::Clear, _) => Ok(Start::Reset),
            (StartupType::State, SavedKind::State) => Ok(Start::Resume),
            (StartupType::State, _) => Err(parameter_refusal(
                ActionCheck::First,
                1,
                ResponseCode::Value,
            )),
        }
    }
}

fn reset(fixed: &mut Fixed, random: &[u8; 256])
    ensures { fixed.new ≡ reset_fixed fixed.old random.now }
{
    fixed.started = true;
    reset_hierarchies(&mut fixed.hierarchies, random);
    reset_lockout(&mut fixed.lockout);
    fixed.banks.restart_update_count();
    fixed.reset_count = fixed.reset_count.saturating_add(1);
    fixed.restart_count = 0;
}

fn restart(fixed: &mut Fixed)
    ensures { fixed.new ≡ restart_fixed fixed.old }
{
    fixed.started = true;
    empty_platform_auth(&mut fixed.hierarchies);
    fixed.banks.restart_update_count();
    fixed.restart_count = fixed.restart_count.saturating_add(1);
}

fn resume(fixed: &mut Fixed)
    ensures { fixed.new ≡ resume_fixed fixed.old }
{
    fixed.started = true;
    fixed.saved.restore(&mut fixed.banks);
    fixed.banks.restart_update_count();
    fixed.restart_count = fixed.restart_count.saturating_add(1);
}

/// Starts the device; returns the number of random bytes drawn.
fn begin<K: Keep>(keep: &mut K, start: Start, random: &[u8; 256]) -> usize
    ensures after { K.record_of keep.new
        ≡ started_record start (K.record_of keep.old) random.now }
    ensures drawn { result ≡ start_draws start }
{
    match start {
        Start::Reset => {
            reset(keep.fixed_mut(), random);
            keep.nv_mut().startup();
            RESET_DRAWS
        }
        Start::Restart => {
            restart(keep.fixed_mut());
            keep.nv_mut().startup();
            0
        }
        Start::Resume => {
            resume(keep.fixed_mut());
            0
        }
    }
}

/// TPM2_Startup: a TPM Reset, a TPM Restart or a TPM Resume. Returns VALUE if the type is STATE,
/// but TPM2_Shutdown(STATE) saved no state.
#[tactic(auto, unfolding(crate::specs::Startup::startup_row))]
pub fn startup<K: Keep>(keep: &mut K, call: &Call, answer: &mut Answer) -> Result<(), Refused>
    ensures { Acts (startup_row (K.record_of keep.old) (request_of call.now))
        (K.record_of keep.old) result answer.new (K.record_of keep.new) }
{
    answer.clear();
    let mut text = Cursor::new(call.parameters);
    let kind = parameter(1, StartupType::read(&mut text))?;
    end(&text)?;
    let start = Start::of(kind, keep.fixed().saved.kind())?;
    answer.drawn = begin(keep, start, call.random);
    Ok(())
}
