//! Requests as the tables of the tests write them.
use crate::{Add, Request, Search, What};
use std::alloc::{AllocError, Global};
use std::str;
use vs_bits::Bits;
use vs_outside::Text;

// A text as it is, or its length where it is empty, long or no UTF-8.
fn show_text(alloc: Global, text: &Text) -> Result<String, AllocError> {
    if 0 < text.len() && text.len() < 20 {
        if let Ok(text) = str::from_utf8(text.as_slice()) {
            return format!(in alloc; "{text}");
        }
    }
    format!(in alloc; "~{}", text.len())
}

fn show_bits(alloc: Global, bits: &Bits) -> Result<String, AllocError> {
    if bits.dim() > 64 {
        return format!(in alloc; "{} bits", bits.dim());
    }
    let mut shown = String::new(alloc);
    for i in 0..bits.dim() {
        shown.push(if bits.bit(i) { '1' } else { '0' })?;
    }
    Ok(shown)
}

fn show_keys(alloc: Global, command: &str, keys: &[Text]) -> Result<String, AllocError> {
    if keys.len() > 8 {
        return format!(in alloc; "{command} {} keys", keys.len());
    }
    let mut shown = format!(in alloc; "{command}")?;
    for key in keys {
        shown.push(' ')?;
        shown.push_str(show_text(alloc, key)?.as_str())?;
    }
    Ok(shown)
}

fn show_member(
    alloc: Global,
    command: &str,
    key: &Text,
    name: &Text,
) -> Result<String, AllocError> {
    let key = show_text(alloc, key)?;
    let name = show_text(alloc, name)?;
    format!(in alloc; "{command} {} {}", key.as_str(), name.as_str())
}

fn show_add(alloc: Global, add: &Add) -> Result<String, AllocError> {
    let member = show_member(alloc, "Vadd", &add.key, &add.name)?;
    let bits = show_bits(alloc, &add.bits)?;
    let mut shown = format!(in alloc; "{} {} ef {}", member.as_str(), bits.as_str(), add.ef)?;
    if add.cas {
        shown.push_str(" cas")?;
    }
    if let Some(m) = add.m {
        shown.push_str(format!(in alloc; " m {m}")?.as_str())?;
    }
    if let Some(attr) = &add.attr {
        shown.push_str(" attr ")?;
        shown.push_str(show_text(alloc, attr)?.as_str())?;
    }
    Ok(shown)
}

fn show_search(alloc: Global, search: &Search) -> Result<String, AllocError> {
    let what = match &search.what {
        What::Ele(name) => {
            let name = show_text(alloc, name)?;
            format!(in alloc; "ele {}", name.as_str())?
        }
        What::Values(bits) => show_bits(alloc, bits)?,
    };
    let key = show_text(alloc, &search.key)?;
    let mut shown = format!(in alloc;
        "Vsim {} {} count {} ef {} effort {}",
        key.as_str(),
        what.as_str(),
        search.count,
        search.ef,
        search.effort
    )?;
    for (flag, name) in [
        (search.filter.is_some(), " filter"),
        (search.scores, " scores"),
        (search.attrs, " attrs"),
        (search.truth, " truth"),
        (search.nothread, " nothread"),
    ] {
        if flag {
            shown.push_str(name)?;
        }
    }
    Ok(shown)
}

pub(super) fn show_request(alloc: Global, request: &Request) -> Result<String, AllocError> {
    match request {
        Request::Ping(None) => format!(in alloc; "Ping"),
        Request::Ping(Some(text)) => {
            let text = show_text(alloc, text)?;
            format!(in alloc; "Ping {}", text.as_str())
        }
        Request::Quit => format!(in alloc; "Quit"),
        Request::Del(keys) => show_keys(alloc, "Del", keys.as_slice()),
        Request::Exists(keys) => show_keys(alloc, "Exists", keys.as_slice()),
        Request::Vadd(add) => show_add(alloc, add),
        Request::Vrem { key, name } => show_member(alloc, "Vrem", key, name),
        Request::Vsim(search) => show_search(alloc, search),
        Request::Vcard(key) => {
            let key = show_text(alloc, key)?;
            format!(in alloc; "Vcard {}", key.as_str())
        }
        Request::Vdim(key) => {
            let key = show_text(alloc, key)?;
            format!(in alloc; "Vdim {}", key.as_str())
        }
        Request::Vemb { key, name } => show_member(alloc, "Vemb", key, name),
        Request::Vlinks { key, name, scores } => {
            let member = show_member(alloc, "Vlinks", key, name)?;
            let scores = if *scores { " scores" } else { "" };
            format!(in alloc; "{}{scores}", member.as_str())
        }
        Request::Vinfo(key) => {
            let key = show_text(alloc, key)?;
            format!(in alloc; "Vinfo {}", key.as_str())
        }
        Request::Vgetattr { key, name } => show_member(alloc, "Vgetattr", key, name),
        Request::Vsetattr { key, name, text } => {
            let member = show_member(alloc, "Vsetattr", key, name)?;
            let text = show_text(alloc, text)?;
            format!(in alloc; "{} {}", member.as_str(), text.as_str())
        }
        Request::Vrandmember { key, count } => {
            let key = show_text(alloc, key)?;
            format!(in alloc; "Vrandmember {} {count:?}", key.as_str())
        }
        Request::Vismember { key, name } => show_member(alloc, "Vismember", key, name),
    }
}
