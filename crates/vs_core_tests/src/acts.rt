//! What actors do, and the words of their requests. Keys and names are letters, and a vector's lowest bit is its first component.
use std::alloc::Global;
use vs_outside::NoMemory;
use vs_store_fixtures::{attribute_of, component_words};

/// An addition with its drawn word. `number` is that of its attribute, where it has one.
#[derive(Clone, Copy, Debug)]
pub struct Addition {
    pub key: u8,
    pub name: u8,
    pub dim: u32,
    pub vector: u32,
    pub cas: bool,
    pub m: Option<u16>,
    pub number: Option<u8>,
    pub word: u32,
}

/// What a search looks for: a member, or a vector.
#[derive(Clone, Copy, Debug)]
pub enum What {
    Member(u8),
    Vector { dim: u32, vector: u32 },
}

/// A search. Attributes pass whose number is `least` or more; 0 is no filter.
#[derive(Clone, Copy, Debug)]
pub struct Search {
    pub key: u8,
    pub what: What,
    pub count: u32,
    pub least: u8,
    pub effort: Option<u32>,
    pub attrs: bool,
    pub truth: bool,
}

/// A request. `Pick` has four drawn words, of which as many are used as it picks, and one without a count.
#[derive(Clone, Copy, Debug)]
pub enum Ask {
    Add(Addition),
    Remove {
        key: u8,
        name: u8,
    },
    Delete {
        key: u8,
        other: u8,
    },
    SetAttribute {
        key: u8,
        name: u8,
        number: u8,
    },
    Search(Search),
    Exists {
        key: u8,
        other: u8,
    },
    Count {
        key: u8,
    },
    Dimension {
        key: u8,
    },
    Info {
        key: u8,
    },
    Vector {
        key: u8,
        name: u8,
    },
    Attribute {
        key: u8,
        name: u8,
    },
    IsMember {
        key: u8,
        name: u8,
    },
    Links {
        key: u8,
        name: u8,
    },
    Pick {
        key: u8,
        count: Option<i8>,
        words: [u32; 4],
    },
}

/// What an actor does in one event.
#[derive(Clone, Copy, Debug)]
pub enum Act {
    Do(Ask),
    Look(Search),
    Finish,
    Draft(Addition),
    Prepare,
    Commit,
}

/// An event: its actor's number, and what it does.
#[derive(Clone, Copy, Debug)]
pub struct Happening {
    pub actor: u32,
    pub act: Act,
}

/// The words of an addition.
pub fn addition_line(alloc: Global, addition: Addition) -> Result<String, NoMemory> {
    let (key, name, dim) = (addition.key as char, addition.name as char, addition.dim);
    let components = component_words(alloc, dim, addition.vector)?;
    let mut line = format!(in alloc; "VADD {key} VALUES {dim}{components} {name}")?;
    if addition.cas {
        line.push_str(" CAS")?;
    }
    if let Some(m) = addition.m {
        line.push_str(format!(in alloc; " M {m}")?.as_str())?;
    }
    if let Some(number) = addition.number {
        line.push_str(" SETATTR ")?;
        line.push_str(attribute_of(alloc, number)?.as_str())?;
    }
    Ok(line)
}

fn what_words(alloc: Global, what: What) -> Result<String, NoMemory> {
    match what {
        What::Member(name) => Ok(format!(in alloc; "ELE {}", name as char)?),
        What::Vector { dim, vector } => {
            let components = component_words(alloc, dim, vector)?;
            Ok(format!(in alloc; "VALUES {dim}{components}")?)
        }
    }
}

/// The words of a search.
pub fn search_line(alloc: Global, search: Search) -> Result<String, NoMemory> {
    let what = what_words(alloc, search.what)?;
    let mut line = format!(in alloc; "VSIM {} {what} COUNT {}", search.key as char, search.count)?;
    if search.least > 0 {
        line.push_str(format!(in alloc; " FILTER .n>={}", search.least)?.as_str())?;
    }
    if let Some(effort) = search.effort {
        line.push_str(format!(in alloc; " FILTER-EF {effort}")?.as_str())?;
    }
    if search.attrs {
        line.push_str(" WITHATTRIBS")?;
    }
    if search.truth {
        line.push_str(" TRUTH")?;
    }
    Ok(line)
}

/// A command with its key.
fn key_line(alloc: Global, command: &str, key: u8) -> Result<String, NoMemory> {
    Ok(format!(in alloc; "{command} {}", key as char)?)
}

/// A command with its key and a name.
fn name_line(alloc: Global, command: &str, key: u8, name: u8) -> Result<String, NoMemory> {
    Ok(format!(in alloc; "{command} {} {}", key as char, name as char)?)
}

/// A command with a key, another, and the first again.
fn keys_line(alloc: Global, command: &str, key: u8, other: u8) -> Result<String, NoMemory> {
    let (key, other) = (key as char, other as char);
    Ok(format!(in alloc; "{command} {key} {other} {key}")?)
}

/// The words of a request.
pub fn line(alloc: Global, ask: Ask) -> Result<String, NoMemory> {
    match ask {
        Ask::Add(addition) => addition_line(alloc, addition),
        Ask::Remove { key, name } => name_line(alloc, "VREM", key, name),
        Ask::Delete { key, other } => keys_line(alloc, "DEL", key, other),
        Ask::SetAttribute { key, name, number } => {
            let text = attribute_of(alloc, number)?;
            Ok(format!(in alloc; "VSETATTR {} {} {text}", key as char, name as char)?)
        }
        Ask::Search(search) => search_line(alloc, search),
        Ask::Exists { key, other } => keys_line(alloc, "EXISTS", key, other),
        Ask::Count { key } => key_line(alloc, "VCARD", key),
        Ask::Dimension { key } => key_line(alloc, "VDIM", key),
        Ask::Info { key } => key_line(alloc, "VINFO", key),
        Ask::Vector { key, name } => name_line(alloc, "VEMB", key, name),
        Ask::Attribute { key, name } => name_line(alloc, "VGETATTR", key, name),
        Ask::IsMember { key, name } => name_line(alloc, "VISMEMBER", key, name),
        Ask::Links { key, name } => name_line(alloc, "VLINKS", key, name),
        Ask::Pick {
            key,
            count: None,
            ..
        } => key_line(alloc, "VRANDMEMBER", key),
        Ask::Pick {
            key,
            count: Some(count),
            ..
        } => { Ok(format!(in alloc; "VRANDMEMBER {} {count}", key as char)?) }
    }
}

/// How many drawn words a request takes, of at most four.
fn drawn_count(ask: Ask) -> usize {
    match ask {
        Ask::Add(_) | Ask::Pick { count: None, .. } => 1,
        Ask::Pick {
            count: Some(count),
            ..
        } => count.unsigned_abs().min(4) as usize,
        _ => 0,
    }
}

/// The drawn words of a request, and how many of them it takes.
pub fn drawn(ask: Ask) -> ([u32; 4], usize) {
    let words = match ask {
        Ask::Add(addition) => [addition.word, 0, 0, 0],
        Ask::Pick { words, .. } => words,
        _ => [0, 0, 0, 0],
    };
    (words, drawn_count(ask))
}
