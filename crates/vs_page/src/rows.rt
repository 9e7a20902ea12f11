//! The words of members by their places, in chunks of 256 rows that copies share. They say nothing wrong and may say nothing, so that no
//! change is refused: where memory is, the chunk is given up, and at worst all chunks.
ghost use Rattle.std.specs.Prelude.{◌≡◌, ◌≢◌, ◌<◌, ◌≤◌, ◌+◌, ◌*◌, ℕ, None, Some, [], IfOk, IfSome, OnOk, length, unwrap_or};
ghost use Rattle.std.specs.Option.{option_copied};
ghost use Rattle.vs_page.specs.Changes.{items_of};
ghost use Rattle.vs_page.specs.Rows.{IsWritten, IsPut, row_in, row_of, row_of_run};

use crate::PageMap;
use crate::chunk::Chunk;
use std::alloc::Global;
use vs_outside::NoMemory;

/// How many rows a chunk has.
const CHUNK_ROWS: u32 = 256;

/// Rows of words of one width, by places from 0 on. Their width is that of the first words that are put.
#[derive(Drop)]
pub struct Rows {
    // how many words a row has, or 0 before the first words
    width: u32,
    // whether all chunks are given up, since memory was refused
    is_lost: bool,
    // by number, which is the place over 256
    chunks: PageMap<Chunk>,
    ghost none_at_first: { width ≡ 0 → (q : ℕ) → items_of chunks q ≡ None },
}

/// Rows that lie beside one another, one after another.
#[derive(Drop)]
pub struct Run<'a> {
    // how many words a row has
    pub width: usize,
    pub rows: u32,
    pub words: &'a [u64],
}

/// No rows.
fn no_rows<'a>() -> Run<'a>
    ensures { result.rows ≡ 0 }
{
    Run {
        width: 0,
        rows: 0,
        words: &[],
    }
}

/// The rows of a chunk from one on, at most so many.
fn run_in(words: &[u64], width: u32, row: u32, most: u32) -> Run
    requires { row < 256 }
    ensures few { result.rows ≤ most }
    ensures inside { 0 < result.rows → row + result.rows ≤ 256 }
    ensures long { result.rows * result.width ≤ length result.words.now }
    ensures each { (k : ℕ) → k < result.rows → row_in width words.now (row + k) ≡ Some (row_of_run result k) }
{
    let width = width as usize;
    let start = row as usize * width;
    if width == 0 || words.len() < start {
        return no_rows();
    }
    let whole = (words.len() - start) / width;
    let rows = most.min(CHUNK_ROWS - row);
    let rows = if whole < rows as usize {
        whole as u32
    } else {
        rows
    };
    Run {
        width,
        rows,
        words: &words[start..],
    }
}

/// A row of a chunk.
fn row_in(words: &[u64], width: u32, row: u32) -> Option<&[u64]>
    requires { row < 256 }
    ensures { option_copied result ≡ row_in width words.now row }
{
    let start = row as usize * width as usize;
    words.get(start..start + width as usize)
}

/// The words of a row in memory of their own. None also where memory is refused.
fn copied_row(alloc: Global, row: Option<&[u64]>) -> Option<Vec<u64>>
    ensures { IfSome result (λ copy. option_copied row.entry ≡ Some copy.items) }
{
    match row {
        Some(words) => Vec::from_slice(alloc, words).ok(),
        None => None,
    }
}

/// Takes a chunk out of the map, so that the map has it no more.
fn take_chunk(chunks: &mut PageMap<Chunk>, number: u32) -> Result<Option<Chunk>, NoMemory>
    ensures taken { IfOk result (λ chunk. chunk ≡ items_of chunks.old number) }
    ensures gone { OnOk result (items_of chunks.new number ≡ None) }
    ensures others { OnOk result ((q : ℕ) → q ≢ number → items_of chunks.new q ≡ items_of chunks.old q) }
{
    let chunk = match chunks.get(number) {
        Some(chunk) => Some(chunk.try_clone()?),
        None => None,
    };
    chunks.put(number, None)?;
    Ok(chunk)
}

/// A chunk with these words in a row of it, or a new one that begins with them.
fn chunk_with(
    alloc: Global,
    taken: Option<Chunk>,
    width: u32,
    row: u32,
    words: &[u64],
) -> Option<Chunk>
    requires { row < 256 }
    ensures wide { IfSome result (λ chunk. length words.now ≡ width) }
    ensures some { IfSome result (λ chunk. 0 < width) }
    ensures written { IfSome result (λ chunk. IsWritten (unwrap_or taken []) chunk (row * width) words.now) }
{
    if words.is_empty() || words.len() != width as usize {
        return None;
    }
    let start = row as usize * width as usize;
    match taken {
        Some(chunk) => chunk.with_row(alloc, start, words),
        None if start == 0 => Chunk::new(alloc, words).ok(),
        None => None,
    }
}

/// Puts words at a place, or gives its chunk up. After a refusal the map is of no use.
fn put_in(
    chunks: &mut PageMap<Chunk>,
    width: u32,
    place: u32,
    words: Option<&[u64]>,
) -> Result<(), NoMemory>
    ensures { OnOk result (IsPut (row_of width (items_of chunks.old)) (row_of width (items_of chunks.new)) place (option_copied words.entry)) }
{
    let number = place / CHUNK_ROWS;
    let taken = take_chunk(chunks, number)?;
    let Some(words) = words else {
        return Ok(());
    };
    let chunk = chunk_with(chunks.alloc(), taken, width, place % CHUNK_ROWS, words);
    match chunks.put(number, chunk) {
        Ok(()) | Err(_) => Ok(()),
    }
}

impl Rows {
    ghost use Rattle.vs_page.specs.Told.{row_at};

    /// No rows.
    pub fn new(alloc: Global) -> Result<Rows, NoMemory>
        ensures { IfOk result (λ rows. (q : ℕ) → row_at rows q ≡ None) }
    {
        Ok(Rows {
            width: 0,
            is_lost: false,
            chunks: PageMap::new(alloc)?,
        })
    }

    /// The same rows, which later changes to these leave as they are. It takes nothing that grows with them.
    pub fn try_clone(&self) -> Result<Rows, NoMemory>
        ensures { IfOk result (λ copy. (q : ℕ) → row_at copy q ≡ row_at self.now q) }
    {
        Ok(Rows {
            width: self.width,
            is_lost: self.is_lost,
            chunks: self.chunks.try_clone()?,
        })
    }

    /// The words at a place, where they are told.
    pub fn get(&self, place: u32) -> Option<&[u64]>
        ensures { option_copied result ≡ row_at self.now place }
    {
        if self.is_lost {
            return None;
        }
        let chunk = self.chunks.get(place / CHUNK_ROWS)?;
        row_in(chunk.as_slice(), self.width, place % CHUNK_ROWS)
    }

    /// The rows from a place on that lie beside its own, at most so many; none where none is told there.
    pub fn beside(&self, place: u32, most: u32) -> Run
        ensures few { result.rows ≤ most }
        ensures long { result.rows * result.width ≤ length result.words.now }
        ensures each { (k : ℕ) → k < result.rows → row_at self.now (place + k) ≡ Some (row_of_run result k) }
    {
        if self.is_lost {
            return no_rows();
        }
        match self.chunks.get(place / CHUNK_ROWS) {
            Some(chunk) => run_in(chunk.as_slice(), self.width, place % CHUNK_ROWS, most),
            None => no_rows(),
        }
    }

    /// Takes the width of the first words that are put.
    fn begin(&mut self, words: Option<&[u64]>)
        ensures { (q : ℕ) → row_at self.new q ≡ row_at self.old q }
    {
        let Some(words) = words else {
            return;
        };
        if self.width == 0 {
            self.width = u32::try_from(words.len()).unwrap_or(0);
        }
    }

    /// Puts words at a place, or none. Rows are to come one after another: what is told at a place beyond the next one is nothing.
    pub fn put(&mut self, place: u32, words: Option<&[u64]>)
        ensures { IsPut (row_at self.old) (row_at self.new) place (option_copied words.entry) }
    {
        self.begin(words);
        if self.is_lost || self.width == 0 {
            return;
        }
        if put_in(&mut self.chunks, self.width, place, words).is_err() {
            self.is_lost = true;
        }
    }

    /// Puts at one place what is told at another.
    pub fn take_to(&mut self, alloc: Global, from: u32, to: u32)
        ensures { IsPut (row_at self.old) (row_at self.new) to (row_at self.old from) }
    {
        if from == to {
            return;
        }
        match copied_row(alloc, self.get(from)) {
            Some(words) => self.put(to, Some(words.as_slice())),
            None => self.put(to, None),
        }
    }
}
