//! The numbers with which C and a keeper exchange requests and reports.

ghost use Rattle.std.specs.Prelude.{◌≡◌};
ghost use Rattle.tpm_keeping.specs.View.{told_of};
ghost use Rattle.tpmsim_library.specs.Keeping.{end_number, fault_of, force_of, job_of, no_request};
ghost use Rattle.tpmsim_library.specs.Keeping.{request_by, task_of, told_by};

use tpm_keeping::holder::{End, Fault, Force, Job};
use tpm_keeping::keeper::{Ask, Got};

/// What a host must do next.
#[repr(C)]
#[derive(Clone, Copy, PartialEq, Eq)]
pub struct Request {
    /// The size to which the host must truncate the file before it writes. For a new journal: the
    /// size of the part of the old journal that the device executed.
    pub cut: u64,
    /// The offset in the file for a read or a write.
    pub at: u64,
    /// The number of bytes that the host must write, or the size of the response.
    pub size: usize,
    /// The number of the task.
    pub task: u8,
    /// The number that reports how the call ended.
    pub fault: u8,
    /// 1 if a new journal drops the damage in the old journal, otherwise 0.
    pub drops: u8,
}

/// Returns the `Force` with this number, which says when the journal is synced to disk.
pub fn force_of(number: u8) -> Option<Force>
    ensures { result ≡ force_of number }
{
    match number {
        0 => Some(Force::Never),
        1 => Some(Force::Power),
        2 => Some(Force::Always),
        _ => None,
    }
}

/// Returns the `Job` with this number, which says what a call of the keeper does.
pub fn job_of(number: u8) -> Option<Job>
    ensures { result ≡ job_of number }
{
    match number {
        0 => Some(Job::Execute),
        1 => Some(Job::Renew),
        2 => Some(Job::Show),
        3 => Some(Job::Begin),
        4 => Some(Job::Cut),
        _ => None,
    }
}

/// Returns the number that reports how a call ended.
fn end_number(end: End) -> u8
    ensures { result ≡ end_number end }
{
    let End::Failed(fault) = end else {
        return 0;
    };
    match fault {
        Fault::Idle => 1,
        Fault::Lock => 2,
        Fault::Look => 3,
        Fault::Read => 4,
        Fault::Write => 5,
        Fault::Force => 6,
        Fault::Make => 7,
        Fault::Name => 8,
        Fault::Settle => 9,
        Fault::Absent => 10,
        Fault::Unreadable => 11,
        Fault::NoCommand => 12,
        Fault::Damaged => 13,
        Fault::Memory => 14,
    }
}

/// Returns the fault with this number.
pub fn fault_of(number: u8) -> Option<Fault>
    ensures { result ≡ fault_of number }
{
    match number {
        1 => Some(Fault::Idle),
        2 => Some(Fault::Lock),
        3 => Some(Fault::Look),
        4 => Some(Fault::Read),
        5 => Some(Fault::Write),
        6 => Some(Fault::Force),
        7 => Some(Fault::Make),
        8 => Some(Fault::Name),
        9 => Some(Fault::Settle),
        10 => Some(Fault::Absent),
        11 => Some(Fault::Unreadable),
        12 => Some(Fault::NoCommand),
        13 => Some(Fault::Damaged),
        14 => Some(Fault::Memory),
        _ => None,
    }
}

impl Request {
    /// Returns the request for a task that has no parameters.
    fn task(task: u8) -> Request
        ensures { result ≡ task_of task }
    {
        Request {
            cut: 0,
            at: 0,
            size: 0,
            task,
            fault: 0,
            drops: 0,
        }
    }

    /// Returns the request if there is no keeper: no task, and the fault that reports the missing
    /// keeper.
    pub fn none() -> Request
        ensures { result ≡ no_request }
    {
        Request {
            fault: 15,
            ..Request::task(0)
        }
    }

    /// Returns the request for a keeper's task. It contains the number of bytes to write, or the
    /// size of the response. It also says whether a new journal drops damage.
    pub fn of(asked: Ask, drops: bool, text: usize, response: usize) -> Request
        ensures { result ≡ request_by asked drops text response }
    {
        match asked {
            Ask::Nothing(end) => Request {
                size: response,
                fault: end_number(end),
                ..Request::task(0)
            },
            Ask::Lock => Request::task(1),
            Ask::Look => Request::task(2),
            Ask::Read(at) => Request {
                at,
                ..Request::task(3)
            },
            Ask::Put { cut, at } => Request {
                cut,
                at,
                size: text,
                ..Request::task(4)
            },
            Ask::Force => Request::task(5),
            Ask::Make { whole } => Request {
                cut: whole,
                size: text,
                drops: u8::from(drops),
                ..Request::task(6)
            },
            Ask::Name => Request::task(7),
            Ask::Settle => Request::task(8),
            Ask::Unlock => Request::task(9),
        }
    }
}

/// Returns the report that has this number; 0 reports that the host did its task.
pub fn told_by<'a>(got: u8, asked: Ask, file: u64, size: u64, bytes: &'a [u8]) -> Got<'a>
    ensures { told_of result ≡ told_by got asked file size bytes.now }
{
    match (got, asked) {
        (0, Ask::Look | Ask::Name) => Got::Stands { file, size },
        (0, Ask::Read(_)) => Got::Bytes(bytes),
        (0, _) => Got::Done,
        (1, _) => Got::Gone,
        _ => Got::Failed,
    }
}
