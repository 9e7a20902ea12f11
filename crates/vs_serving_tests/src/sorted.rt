//! Members by numbers, searches of them, and what is answered by a plain sort.
use std::alloc::Global;
use vs_outside::{NoMemory, Text};

/// More than are scanned by one thread, which are at most 16,383.
pub const MEMBERS: u32 = 20_000;

/// The least number: names are m10000 to m29999, whose order is that of their numbers.
pub const FIRST: u32 = 10_000;

/// Components of a vector; many members have the same one.
const BITS: u32 = 12;

/// The vector of a member, as bits.
pub fn vector_of(number: u32) -> u32 {
    number.wrapping_mul(2_654_435_769).wrapping_shr(7) & 4_095
}

/// A vector as words of a request.
pub fn push_vector(alloc: Global, text: &mut Text, vector: u32) -> Result<(), NoMemory> {
    let count = format!(in alloc; " VALUES {BITS}")?;
    text.extend_from_slice(count.as_str().as_bytes())?;
    for bit in 0..BITS {
        let sign = if vector.wrapping_shr(bit) % 2 == 0 {
            b" 1".as_slice()
        } else {
            b" -1".as_slice()
        };
        text.extend_from_slice(sign)?;
    }
    Ok(())
}

/// A search; with a filter every third member passes.
#[derive(Clone, Copy)]
pub struct Search {
    pub vector: u32,
    pub count: u32,
    pub is_filtered: bool,
}

impl Search {
    /// Its request, with these words behind it.
    pub fn push_line(self, alloc: Global, text: &mut Text, words: &str) -> Result<(), NoMemory> {
        text.extend_from_slice(b"VSIM k")?;
        push_vector(alloc, text, self.vector)?;
        let filter = if self.is_filtered {
            " FILTER .n==1"
        } else {
            ""
        };
        let rest = format!(in alloc; " COUNT {} TRUTH{filter}{words}\r\n", self.count)?;
        text.extend_from_slice(rest.as_str().as_bytes())
    }

    // Those that pass, each by its distance and its number, in order.
    fn sorted(self, alloc: Global) -> Result<Vec<(u32, u32)>, NoMemory> {
        let mut order = Vec::new(alloc);
        for place in 0..MEMBERS {
            let number = FIRST.wrapping_add(place);
            if !self.is_filtered || number % 3 == 0 {
                order.push(((vector_of(number) ^ self.vector).count_ones(), number))?;
            }
        }
        order.sort_unstable();
        Ok(order)
    }

    /// Its reply, by a plain sort.
    pub fn push_reply(self, alloc: Global, text: &mut Text) -> Result<(), NoMemory> {
        let order = self.sorted(alloc)?;
        let answered = order.len().min(self.count as usize);
        let head = format!(in alloc; "*{answered}\r\n")?;
        text.extend_from_slice(head.as_str().as_bytes())?;
        for (_, number) in order.iter().take(answered) {
            let bulk = format!(in alloc; "$6\r\nm{number}\r\n")?;
            text.extend_from_slice(bulk.as_str().as_bytes())?;
        }
        Ok(())
    }
}
