//! Outcomes as texts.
use std::alloc::Global;
use vs_command::{Answer, NamedHit, Refusal};
use vs_outside::{NoMemory, Text};

fn push_text(shown: &mut String, text: &[u8]) -> Result<(), NoMemory> {
    match str::from_utf8(text) {
        Ok(text) => shown.push_str(text)?,
        Err(_) => shown.push_str("?")?,
    }
    Ok(())
}

fn show_text(alloc: Global, text: &[u8]) -> Result<String, NoMemory> {
    let mut shown = String::new(alloc);
    push_text(&mut shown, text)?;
    Ok(shown)
}

/// Each name with a blank before it.
fn show_names(alloc: Global, names: &[Text]) -> Result<String, NoMemory> {
    let mut shown = String::new(alloc);
    for name in names {
        shown.push_str(" ")?;
        push_text(&mut shown, name.as_slice())?;
    }
    Ok(shown)
}

fn show_signs(alloc: Global, signs: &[bool]) -> Result<String, NoMemory> {
    let mut shown = String::new(alloc);
    for sign in signs {
        shown.push_str(if *sign { "+" } else { "-" })?;
    }
    Ok(shown)
}

/// Each hit with a blank before it: its name, its distance, and its attribute in brackets.
fn show_hits(alloc: Global, hits: &[NamedHit]) -> Result<String, NoMemory> {
    let mut shown = String::new(alloc);
    for hit in hits {
        shown.push_str(" ")?;
        push_text(&mut shown, hit.name.as_slice())?;
        shown.push_str(format!(in alloc; " {}", hit.dist)?.as_str())?;
        if let Some(attr) = &hit.attr {
            shown.push_str(" ")?;
            push_text(&mut shown, attr.as_slice())?;
        }
    }
    Ok(shown)
}

fn show_layers(alloc: Global, layers: &[vs_outside::List<NamedHit>]) -> Result<String, NoMemory> {
    let mut shown = String::new(alloc);
    for layer in layers {
        shown.push_str("/")?;
        shown.push_str(show_hits(alloc, layer.as_slice())?.as_str())?;
    }
    Ok(shown)
}

fn show_answer(alloc: Global, answer: &Answer) -> Result<String, NoMemory> {
    match answer {
        Answer::Int(number) => Ok(format!(in alloc; "{number}")?),
        Answer::Pong => Ok(format!(in alloc; "pong")?),
        Answer::Bye => Ok(format!(in alloc; "bye")?),
        Answer::Bulk(text) => show_text(alloc, text.as_slice()),
        Answer::NullText | Answer::NullList => Ok(format!(in alloc; "null")?),
        Answer::Names(names) => show_names(alloc, names.as_slice()),
        Answer::Signs(signs) => show_signs(alloc, signs.as_slice()),
        Answer::Hits { hits, .. } => show_hits(alloc, hits.as_slice()),
        Answer::Layers { layers, .. } => show_layers(alloc, layers.as_slice()),
        Answer::Info(info) => Ok(format!(in alloc;
            "m {} dim {} size {} max-level {} attributes {}",
            info.m, info.dim, info.size, info.max_level, info.attributes
        )?),
    }
}

/// An answer as a text, or why there is none.
pub fn show(alloc: Global, outcome: &Result<Answer, Refusal>) -> Result<String, NoMemory> {
    match outcome {
        Ok(answer) => show_answer(alloc, answer),
        Err(refusal) => Ok(format!(in alloc; "{refusal:?}")?),
    }
}
