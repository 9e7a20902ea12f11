//! Requests in short: a line for each, its words parted by `|`.
use std::alloc::Global;
use vs_outside::{NoMemory, Text};

/// Puts the decimal digits of a number after a text.
pub fn push_number(alloc: Global, text: &mut Text, number: usize) -> Result<(), NoMemory> {
    let digits = format!(in alloc; "{number}")?;
    text.extend_from_slice(digits.as_bytes())
}

fn push_count(alloc: Global, text: &mut Text, mark: u8, count: usize) -> Result<(), NoMemory> {
    text.push(mark)?;
    push_number(alloc, text, count)?;
    text.extend_from_slice(b"\r\n")
}

/// Puts a bulk after a text.
pub fn push_bulk(alloc: Global, text: &mut Text, bytes: &[u8]) -> Result<(), NoMemory> {
    push_count(alloc, text, b'$', bytes.len())?;
    text.extend_from_slice(bytes)?;
    text.extend_from_slice(b"\r\n")
}

/// Puts a line after a text, as an array of bulks.
pub fn push_request(alloc: Global, text: &mut Text, line: &[u8]) -> Result<(), NoMemory> {
    push_count(alloc, text, b'*', line.split(|byte| *byte == b'|').count())?;
    for word in line.split(|byte| *byte == b'|') {
        push_bulk(alloc, text, word)?;
    }
    Ok(())
}

/// The lines as arrays of bulks.
pub fn requests(alloc: Global, lines: &[u8]) -> Result<Text, NoMemory> {
    let mut text = Text::new(alloc);
    for line in lines.split(|byte| *byte == b'\n') {
        push_request(alloc, &mut text, line)?;
    }
    Ok(text)
}
