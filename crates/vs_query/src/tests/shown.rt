//! Answers as the tables of the tests write them.
use std::alloc::{AllocError, Global};
use std::str;
use vs_command::{Answer, Info, NamedHit};
use vs_outside::{List, Text};

fn show_text(text: &Text) -> &str {
    str::from_utf8(text.as_slice()).unwrap_or("no text")
}

fn show_names(alloc: Global, names: &[Text]) -> Result<String, AllocError> {
    let mut shown = String::new(alloc);
    for name in names {
        if !shown.is_empty() {
            shown.push(' ')?;
        }
        shown.push_str(show_text(name))?;
    }
    Ok(shown)
}

fn show_signs(alloc: Global, signs: &[bool]) -> Result<String, AllocError> {
    let mut shown = String::new(alloc);
    for sign in signs {
        shown.push(if *sign { '+' } else { '-' })?;
    }
    Ok(shown)
}

/// Hits by name, distance and attribute.
fn show_hits(alloc: Global, hits: &[NamedHit]) -> Result<String, AllocError> {
    let mut shown = String::new(alloc);
    for hit in hits {
        if !shown.is_empty() {
            shown.push_str(", ")?;
        }
        let name = show_text(&hit.name);
        shown.push_str(format!(in alloc; "{name} {}", hit.dist)?.as_str())?;
        if let Some(attr) = &hit.attr {
            shown.push(' ')?;
            shown.push_str(show_text(attr))?;
        }
    }
    Ok(shown)
}

fn show_layers(alloc: Global, layers: &[List<NamedHit>]) -> Result<String, AllocError> {
    let mut shown = String::new(alloc);
    for layer in layers {
        if !shown.is_empty() {
            shown.push_str(" / ")?;
        }
        shown.push_str(show_hits(alloc, layer.as_slice())?.as_str())?;
    }
    Ok(shown)
}

fn show_info(alloc: Global, info: &Info) -> Result<String, AllocError> {
    format!(in alloc;
        "M {} dim {} size {} level {} attributes {}",
        info.m, info.dim, info.size, info.max_level, info.attributes
    )
}

pub(crate) fn show(alloc: Global, answer: &Answer) -> Result<String, AllocError> {
    match answer {
        Answer::Bulk(text) => format!(in alloc; "{}", show_text(text)),
        Answer::NullText => format!(in alloc; "null text"),
        Answer::NullList => format!(in alloc; "null list"),
        Answer::Names(names) => show_names(alloc, names.as_slice()),
        Answer::Signs(signs) => show_signs(alloc, signs.as_slice()),
        Answer::Hits { hits, .. } => show_hits(alloc, hits.as_slice()),
        Answer::Layers { layers, .. } => show_layers(alloc, layers.as_slice()),
        Answer::Info(info) => show_info(alloc, info),
        Answer::Int(_) | Answer::Pong | Answer::Bye => format!(in alloc; "no query's answer"),
    }
}
