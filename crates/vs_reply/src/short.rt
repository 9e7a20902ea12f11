//! Replies that take no memory: refusals, faults and the shortest answers.
ghost use Rattle.std.specs.Prelude.{◌≡◌, ℕ, List, [], ◌+◌, ◌≤◌, ◌++◌, ◌∷◌, take, length, codes};
ghost use Rattle.vs_defs.specs.Bytes.{Bytes};
ghost use Rattle.vs_defs.specs.Reply.{line as line_of, error_line, integer, refusal_text, reply, with_number, fault_text, fault_line as fault_line_of};
ghost use Rattle.vs_defs.specs.Request.{ShortVector, WrongDimension, WrongM};
ghost use Rattle.vs_command.specs.Outcomes.{refused_by};
ghost use Rattle.vs_command.specs.Refusals.{refusal_of};
ghost use Rattle.vs_resp.specs.Stands.{fault_of};
ghost use Rattle.vs_reply.specs.Replies.{short_of};

use itoa::Buffer;
use std::marker::Model;
use vs_command::{Answer, Refusal};
use vs_resp::Fault;

/// A reply of at most 96 bytes.
#[derive(Drop)]
pub struct Short {
    bytes: [u8; 96],
    len: u8,
}

impl Model for Short {
    ghost Value = { List ℕ };

    ghost view = { λ s. take s.len s.bytes };

    ghost invariant = { λ s. s.len ≤ 96 };
}

impl Short {
    fn new() -> Short
        ensures { result ≡ [] }
    {
        Short {
            bytes: [0; 96],
            len: 0,
        }
    }

    fn push(&mut self, piece: &[u8])
        requires { length self.old + length piece.now ≤ 96 }
        ensures { self.new ≡ self.old ++ piece.now }
    {
        let start = usize::from(self.len);
        let end = start + piece.len();
        self.bytes[start..end].copy_from_slice(piece);
        self.len = end as u8;
    }

    pub fn as_slice(&self) -> &[u8]
        ensures { result.now ≡ self.now }
    {
        &self.bytes[..usize::from(self.len)]
    }
}

fn line(text: &[u8]) -> Short
    requires { length text.now ≤ 94 }
    ensures { result ≡ line_of text.now }
{
    let mut short = Short::new();
    short.push(text);
    short.push(b"\r\n");
    short
}

fn int_line(number: i64) -> Short
    ensures { result ≡ integer number }
{
    let mut buffer = Buffer::new();
    let mut short = Short::new();
    short.push(b":");
    short.push(buffer.format(number).as_bytes());
    short.push(b"\r\n");
    short
}

// An error line.
fn plain(text: &[u8]) -> Short
    requires { length text.now ≤ 93 }
    ensures { result ≡ error_line text.now }
{
    let mut short = Short::new();
    short.push(b"-");
    short.push(text);
    short.push(b"\r\n");
    short
}

// An error line with a number in it.
fn numbered(before: &[u8], number: u64, behind: &[u8]) -> Short
    requires { length before.now + length behind.now ≤ 73 }
    ensures { result ≡ error_line (with_number before.now number behind.now) }
{
    let mut buffer = Buffer::new();
    let mut short = Short::new();
    short.push(b"-");
    short.push(before);
    short.push(buffer.format(number).as_bytes());
    short.push(behind);
    short.push(b"\r\n");
    short
}

// An error line with two numbers in it.
fn numbered_twice(before: &[u8], first: u32, between: &[u8], second: u32, behind: &[u8]) -> Short
    requires { length before.now + length between.now + length behind.now ≤ 73 }
    ensures { result ≡ error_line (with_number before.now first (with_number between.now second behind.now)) }
{
    let mut buffer = Buffer::new();
    let mut short = Short::new();
    short.push(b"-");
    short.push(before);
    short.push(buffer.format(first).as_bytes());
    short.push(between);
    short.push(buffer.format(second).as_bytes());
    short.push(behind);
    short.push(b"\r\n");
    short
}

// An error line about a word of the request.
fn at_word(at: u32, behind: &[u8]) -> Short
    requires { length behind.now ≤ 64 }
    ensures { result ≡ error_line (with_number (codes "ERR word ") at behind.now) }
{
    numbered(b"ERR word ", u64::from(at), behind)
}

fn counted(before: &[u8], count: u32, behind: &[u8]) -> Short
    requires { length before.now + length behind.now ≤ 73 }
    ensures { result ≡ error_line (with_number before.now count behind.now) }
{
    numbered(before, u64::from(count), behind)
}

fn short_vector(want: u32, have: u32) -> Short
    ensures { result ≡ error_line (refusal_text (ShortVector want have)) }
{
    numbered_twice(
        b"ERR ",
        want,
        b" words expected after the dimension, ",
        have,
        b" given",
    )
}

fn wrong_dimension(given: u32, has: u32) -> Short
    ensures { result ≡ error_line (refusal_text (WrongDimension given has)) }
{
    numbered_twice(
        b"ERR vector has ",
        given,
        b" components, the set has ",
        has,
        b"",
    )
}

fn wrong_m(given: u16, has: u16) -> Short
    ensures { result ≡ error_line (refusal_text (WrongM given has)) }
{
    numbered_twice(
        b"ERR M is ",
        u32::from(given),
        b", the set has ",
        u32::from(has),
        b"",
    )
}

// An error line about a number of bytes that isn't allowed.
fn sized(before: &[u8], len: u32, allowed: &[u8]) -> Short
    requires { length before.now + length allowed.now ≤ 53 }
    ensures { result ≡ error_line (with_number before.now len (codes " bytes, allowed are " ++ allowed.now)) }
{
    let mut buffer = Buffer::new();
    let mut short = Short::new();
    short.push(b"-");
    short.push(before);
    short.push(buffer.format(len).as_bytes());
    short.push(b" bytes, allowed are ");
    short.push(allowed);
    short.push(b"\r\n");
    short
}

fn refusal_line(refusal: Refusal) -> Short
    ensures { result ≡ reply (refused_by (refusal_of refusal)) }
{
    match refusal {
        Refusal::UnknownCommand => plain(b"ERR unknown command"),
        Refusal::WrongArity => plain(b"ERR wrong number of arguments"),
        Refusal::BadKey { len } => sized(b"ERR key has ", len, b"1 to 1024"),
        Refusal::BadVectorForm { at } => at_word(at, b": vector form expected"),
        Refusal::Fp32 => plain(b"ERR FP32 is not supported"),
        Refusal::Reduce => plain(b"ERR REDUCE is not supported"),
        Refusal::BadDimension { at } => at_word(at, b": dimension 1 to 4096 expected"),
        Refusal::ShortVector { want, have } => short_vector(want, have),
        Refusal::BadComponent { at } => at_word(at, b": number expected"),
        Refusal::BadName { len } => sized(b"ERR name has ", len, b"1 to 1024"),
        Refusal::UnknownOption { at } => at_word(at, b": unknown option"),
        Refusal::MissingValue { at } => at_word(at, b": option needs a value"),
        Refusal::Quantiser { at } => at_word(at, b": only BIN is supported"),
        Refusal::BadEf { at } => at_word(at, b": EF 1 to 65536 expected"),
        Refusal::BadM { at } => at_word(at, b": M 4 to 256 expected"),
        Refusal::LongAttribute { len } => sized(b"ERR attribute has ", len, b"16384"),
        Refusal::BadCount { at } => at_word(at, b": COUNT out of range"),
        Refusal::Epsilon { at } => at_word(at, b": EPSILON is not supported"),
        Refusal::BadFilterEf { at } => at_word(at, b": FILTER-EF 0 to 2147483647 expected"),
        Refusal::LongFilter { len } => sized(b"ERR filter has ", len, b"4096"),
        Refusal::FilterSyntax { at } => counted(b"ERR filter syntax at byte ", at, b""),
        Refusal::FilterTooDeep { at } => counted(b"ERR filter nests too deep at byte ", at, b""),
        Refusal::Raw => plain(b"ERR RAW is not supported"),
        Refusal::NoSuchKey => plain(b"ERR no such key"),
        Refusal::NoSuchElement => plain(b"ERR no such element"),
        Refusal::WrongDimension { given, has } => wrong_dimension(given, has),
        Refusal::WrongM { given, has } => wrong_m(given, has),
        Refusal::FullSet { members } => counted(b"ERR set is full with ", members, b" members"),
        Refusal::FullKeys { keys } => counted(b"ERR store is full with ", keys, b" keys"),
        Refusal::FullAll { members } => counted(b"ERR store is full with ", members, b" members"),
        Refusal::ChangeLimit { changes } => numbered(b"ERR change limit reached: ", changes, b""),
        Refusal::NoMemory => plain(b"OOM not enough memory"),
    }
}

/// The reply to a refusal, and to an answer that is an integer, a status line or a null; no other answer has a reply that
/// takes no memory.
pub fn short_reply(outcome: &Result<Answer, Refusal>) -> Option<Short>
    ensures { result ≡ short_of outcome.now }
{
    match outcome {
        Ok(Answer::Int(number)) => Some(int_line(*number)),
        Ok(Answer::Pong) => Some(line(b"+PONG")),
        Ok(Answer::Bye) => Some(line(b"+OK")),
        Ok(Answer::NullText) => Some(line(b"$-1")),
        Ok(Answer::NullList) => Some(line(b"*-1")),
        Ok(_) => None,
        Err(refusal) => Some(refusal_line(*refusal)),
    }
}

fn fault_words(fault: Fault) -> &'static [u8]
    ensures words { result.now ≡ fault_text (fault_of fault) }
    ensures short { length result.now ≤ 21 }
{
    match fault {
        Fault::BadCount => b"bad array count",
        Fault::CountTooLarge => b"array count too large",
        Fault::ExpectedBulk => b"bulk expected",
        Fault::BadLength => b"bad bulk length",
        Fault::LengthTooLarge => b"bulk too long",
        Fault::MessageTooLarge => b"message too long",
        Fault::BadEnd => b"bad bulk end",
        Fault::InlineTooLong => b"inline line too long",
    }
}

/// The line that names a fault of the protocol and its place in the bytes of the connection. It takes no memory.
pub fn fault_line(fault: Fault, at: u64) -> Short
    ensures { result ≡ fault_line_of (fault_of fault) at }
{
    let mut buffer = Buffer::new();
    let mut short = Short::new();
    short.push(b"-ERR Protocol error: ");
    short.push(fault_words(fault));
    short.push(b" at byte ");
    short.push(buffer.format(at).as_bytes());
    short.push(b"\r\n");
    short
}
