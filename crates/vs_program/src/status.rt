//! How the program ends.
ghost use Rattle.std.specs.Prelude.{◌≡◌};
ghost use Rattle.vs_program.specs.Status.{status_of, served_of, scheduled_of, exit_code};

use vs_connection::SessionEnd;
use vs_schedule::ScheduleEnd;
use vs_server::ServeEnd;

/// How the program ends.
///
/// - `Done`: the input ended after a whole message, or QUIT was answered; or a schedule was answered whole; or a server served as many connections as it was to.
/// - `BadWords`: the words name no job.
/// - `Protocol`: the input has a fault.
/// - `CutShort`: the input ended within a message.
/// - `ReadFault`, `WriteFault`: the source, the sink failed.
/// - `NoMemory`: before the first read or accept, or while a message or a line was read.
/// - `Spent`: 2^62 bytes or more were taken.
/// - `BadLine`: a line of a schedule is a bad one.
/// - `AcceptFault`: a listener failed.
/// - `BindFault`: the port can't be had.
#[derive(Clone, Copy, Debug, PartialEq, Eq)]
pub enum Status {
    Done,
    BadWords,
    Protocol,
    CutShort,
    ReadFault,
    WriteFault,
    NoMemory,
    Spent,
    BadLine,
    AcceptFault,
    BindFault,
}

impl Status {
    /// The exit status.
    pub fn code(self) -> u8
        ensures { result ≡ exit_code self }
    {
        match self {
            Status::Done => 0,
            Status::BadWords => 2,
            Status::Protocol => 3,
            Status::CutShort => 4,
            Status::ReadFault => 5,
            Status::WriteFault => 6,
            Status::NoMemory => 7,
            Status::Spent => 8,
            Status::BadLine => 9,
            Status::AcceptFault => 10,
            Status::BindFault => 16,
        }
    }
}

/// The status of a connection's end.
pub fn status_at(end: SessionEnd) -> Status
    ensures { result ≡ status_of end }
{
    match end {
        SessionEnd::Ended | SessionEnd::Quit => Status::Done,
        SessionEnd::Protocol { .. } => Status::Protocol,
        SessionEnd::CutShort => Status::CutShort,
        SessionEnd::ReadFault => Status::ReadFault,
        SessionEnd::WriteFault => Status::WriteFault,
        SessionEnd::Spent => Status::Spent,
        SessionEnd::NoMemory => Status::NoMemory,
    }
}

/// The status of a server's end.
pub fn status_served(end: ServeEnd) -> Status
    ensures { result ≡ served_of end }
{
    match end {
        ServeEnd::Done => Status::Done,
        ServeEnd::AcceptFault => Status::AcceptFault,
        ServeEnd::NoMemory => Status::NoMemory,
    }
}

/// The status of a schedule's end.
pub fn status_scheduled(end: ScheduleEnd) -> Status
    ensures { result ≡ scheduled_of end }
{
    match end {
        ScheduleEnd::Ended => Status::Done,
        ScheduleEnd::BadLine { .. } => Status::BadLine,
        ScheduleEnd::ReadFault => Status::ReadFault,
        ScheduleEnd::WriteFault => Status::WriteFault,
        ScheduleEnd::Spent => Status::Spent,
        ScheduleEnd::NoMemory => Status::NoMemory,
    }
}
