//! How a connection ended.
use vs_resp::Fault;

/// How a connection ended.
///
/// - `Ended`: the source ended after a whole message.
/// - `Quit`: QUIT was answered.
/// - `Protocol`: the input has a fault at byte `at`, counted from 0; its line was written.
/// - `CutShort`: the source ended within a message.
/// - `ReadFault`, `WriteFault`: the source, the sink failed; nothing was read or answered after that.
/// - `Spent`: 2^62 bytes or more were taken.
/// - `NoMemory`: before the first read, or while a message was read.
#[derive(Clone, Copy, Debug, PartialEq, Eq)]
pub enum SessionEnd {
    Ended,
    Quit,
    Protocol { fault: Fault, at: u64 },
    CutShort,
    ReadFault,
    WriteFault,
    Spent,
    NoMemory,
}
