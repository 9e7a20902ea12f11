//! The parts of a reply, appended to a text.
ghost use Rattle.std.specs.Prelude.{◌≡◌, ℕ, List, ◌∷◌, ◌++◌, OnOk, length, decimal};
ghost use Rattle.std.specs.Fmt.{signed_decimal};
ghost use Rattle.vs_defs.specs.Reply.{line as line_of, bulk, count, integer};

use itoa::Buffer;
use vs_outside::{NoMemory, Text};

/// A line, with its end.
pub fn push_line(out: &mut Text, text: &[u8]) -> Result<(), NoMemory>
    ensures { OnOk result (out.new ≡ out.old ++ line_of text.now) }
{
    out.extend_from_slice(text)?;
    out.extend_from_slice(b"\r\n")
}

/// The line of a number, of the kind that its first byte says.
pub fn push_number(out: &mut Text, kind: u8, number: u64) -> Result<(), NoMemory>
    ensures { OnOk result (out.new ≡ out.old ++ line_of (kind ∷ decimal number)) }
{
    let mut buffer = Buffer::new();
    out.push(kind)?;
    push_line(out, buffer.format(number).as_bytes())
}

/// An integer.
pub fn push_integer(out: &mut Text, number: i64) -> Result<(), NoMemory>
    ensures { OnOk result (out.new ≡ out.old ++ integer number) }
{
    let mut buffer = Buffer::new();
    out.push(b':')?;
    push_line(out, buffer.format(number).as_bytes())
}

/// A text with its length before it.
pub fn push_bulk(out: &mut Text, text: &[u8]) -> Result<(), NoMemory>
    ensures { OnOk result (out.new ≡ out.old ++ bulk text.now) }
{
    push_number(out, b'$', text.len() as u64)?;
    push_line(out, text)
}

/// A named integer.
pub fn push_field(out: &mut Text, name: &[u8], number: u64) -> Result<(), NoMemory>
    ensures { OnOk result (out.new ≡ (out.old ++ bulk name.now) ++ count number) }
{
    push_bulk(out, name)?;
    push_number(out, b':', number)
}
