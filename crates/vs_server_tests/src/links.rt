//! Listeners in memory, whose links hold given requests.
use std::alloc::Global;
use vs_outside::{List, MemLink, MemListener, MemSink, MemSource, NoMemory, Text};

/// A listener with a link for each of these inputs.
pub fn listener(alloc: Global, inputs: &[&[u8]]) -> Result<MemListener, NoMemory> {
    let mut links = List::new(alloc);
    for input in inputs {
        links.push(MemLink {
            source: MemSource::new(Text::from_slice(alloc, input)?, 16_384, List::new(alloc)),
            sink: MemSink::new(alloc, 16_384, List::new(alloc)),
        })?;
    }
    MemListener::new(alloc, links)
}

/// Words of the program's command line.
pub fn texts(alloc: Global, words: &[&str]) -> Result<List<Text>, NoMemory> {
    let mut texts = List::new(alloc);
    for word in words {
        texts.push(Text::from_slice(alloc, word.as_bytes())?)?;
    }
    Ok(texts)
}

/// How many of the listener's closed links hold just these replies.
pub fn holding(listener: &MemListener, replies: &[u8]) -> usize {
    listener
        .closed()
        .iter()
        .filter(|link| link.sink.written() == replies)
        .count()
}
