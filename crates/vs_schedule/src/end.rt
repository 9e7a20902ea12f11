//! How a schedule ended.

/// How a schedule ended. Lines are counted from 1, empty ones included.
///
/// - `Ended`: the source ended, and every line was answered.
/// - `BadLine`: this line isn't of the form that it must have; the lines before it were answered, and `bad line` with its number was written.
/// - `ReadFault`, `WriteFault`: the source, the sink failed; nothing was read or answered after that.
/// - `Spent`: 2^62 bytes or more were taken.
/// - `NoMemory`: before the first read, or while a line was read or answered.
#[derive(Clone, Copy, Debug, PartialEq, Eq)]
pub enum ScheduleEnd {
    Ended,
    BadLine { line: u64 },
    ReadFault,
    WriteFault,
    Spent,
    NoMemory,
}
