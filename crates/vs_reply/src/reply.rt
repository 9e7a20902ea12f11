//! The reply to an answer.
ghost use Rattle.std.specs.Prelude.{◌≡◌, ℕ, Bool, false, List, ◌++◌, ◌≤◌, OnOk, All, length, flat_map, map};
ghost use Rattle.vs_defs.specs.Reply.{array_of, bulk, bulk_or_null, sign_text, hit_parts, hits_reply, info_reply, answer_reply};
ghost use Rattle.vs_defs.specs.Request.{Hit};
ghost use Rattle.vs_command.specs.Answers.{answer_of, hit_of, hits_of, info_of};
ghost use Rattle.vs_command.specs.Scores.{HasScores, Within};

use crate::parts::{push_bulk, push_field, push_integer, push_line, push_number};
use vs_command::{Answer, Info, NamedHit};
use vs_decimal::score_text;
use vs_outside::{List, NoMemory, Text};

/// The version of the protocol that a connection speaks.
#[derive(Clone, Copy, Debug, PartialEq, Eq)]
pub enum Proto {
    Two,
}

fn push_names(out: &mut Text, names: &[Text]) -> Result<(), NoMemory>
    ensures { OnOk result (out.new ≡ out.old ++ array_of (map bulk names.now)) }
{
    push_number(out, b'*', names.len() as u64)?;
    for name in names {
        push_bulk(out, name.as_slice())?;
    }
    Ok(())
}

fn push_sign(out: &mut Text, sign: bool) -> Result<(), NoMemory>
    ensures { OnOk result (out.new ≡ out.old ++ bulk (sign_text sign)) }
{
    if sign {
        push_bulk(out, b"1")
    } else {
        push_bulk(out, b"-1")
    }
}

fn push_signs(out: &mut Text, signs: &[bool]) -> Result<(), NoMemory>
    ensures { OnOk result (out.new ≡ out.old ++ array_of (map (λ s. bulk (sign_text s)) signs.now)) }
{
    push_number(out, b'*', signs.len() as u64)?;
    for sign in signs {
        push_sign(out, *sign)?;
    }
    Ok(())
}

fn push_attribute(out: &mut Text, attr: &Option<Text>) -> Result<(), NoMemory>
    ensures { OnOk result (out.new ≡ out.old ++ bulk_or_null attr.now) }
{
    match attr {
        Some(text) => push_bulk(out, text.as_slice()),
        None => push_line(out, b"$-1"),
    }
}

fn push_hit(
    out: &mut Text,
    dim: u32,
    scores: bool,
    attrs: bool,
    hit: &NamedHit,
) -> Result<(), NoMemory>
    requires dim { Within dim }
    requires dist { hit.now.dist ≤ dim }
    ensures { OnOk result (out.new ≡ out.old ++ flat_map (λ p. p) (hit_parts dim scores attrs (hit_of hit.now))) }
{
    push_bulk(out, hit.name.as_slice())?;
    if scores {
        push_bulk(out, score_text(hit.dist, dim).as_slice())?;
    }
    if attrs {
        push_attribute(out, &hit.attr)?;
    }
    Ok(())
}

// How many parts of the array each hit has.
fn parts_of_hit(scores: bool, attrs: bool) -> u64
    ensures parts { (dim : ℕ) (h : Hit) → result ≡ length (hit_parts dim scores attrs h) }
    ensures most { result ≤ 3 }
{
    match (scores, attrs) {
        (false, false) => 1,
        (false, true) | (true, false) => 2,
        (true, true) => 3,
    }
}

fn push_hits(
    out: &mut Text,
    dim: u32,
    scores: bool,
    attrs: bool,
    hits: &[NamedHit],
) -> Result<(), NoMemory>
    requires dim { Within dim }
    requires dists { All (λ h. h.dist ≤ dim) hits.now }
    ensures { OnOk result (out.new ≡ out.old ++ hits_reply dim scores attrs (hits_of hits.now)) }
{
    let parts = hits.len() as u64 * parts_of_hit(scores, attrs);
    push_number(out, b'*', parts)?;
    for hit in hits {
        push_hit(out, dim, scores, attrs, hit)?;
    }
    Ok(())
}

fn push_layers(
    out: &mut Text,
    dim: u32,
    scores: bool,
    layers: &[List<NamedHit>],
) -> Result<(), NoMemory>
    requires dim { Within dim }
    requires dists { All (λ hits. All (λ h. h.dist ≤ dim) hits) layers.now }
    ensures { OnOk result (out.new ≡ out.old ++ array_of (map (hits_reply dim scores false) (map hits_of layers.now))) }
{
    push_number(out, b'*', layers.len() as u64)?;
    for layer in layers {
        push_hits(out, dim, scores, false, layer.as_slice())?;
    }
    Ok(())
}

fn push_info(out: &mut Text, info: &Info) -> Result<(), NoMemory>
    ensures { OnOk result (out.new ≡ out.old ++ info_reply (info_of info.now)) }
{
    push_number(out, b'*', 12)?;
    push_bulk(out, b"quant-type")?;
    push_bulk(out, b"bin")?;
    push_field(out, b"hnsw-m", info.m as u64)?;
    push_field(out, b"vector-dim", info.dim as u64)?;
    push_field(out, b"size", info.size as u64)?;
    push_field(out, b"max-level", info.max_level as u64)?;
    push_field(out, b"attributes-count", info.attributes as u64)?;
    Ok(())
}

/// Appends the reply to an answer. After a refusal part of it may stand in `out`, which is to be cleared.
pub fn reply_into(out: &mut Text, answer: &Answer, proto: Proto) -> Result<(), NoMemory>
    requires { HasScores answer.now }
    ensures { OnOk result (out.new ≡ out.old ++ answer_reply (answer_of answer.now)) }
{
    let Proto::Two = proto;
    match answer {
        Answer::Int(number) => push_integer(out, *number),
        Answer::Pong => push_line(out, b"+PONG"),
        Answer::Bye => push_line(out, b"+OK"),
        Answer::Bulk(text) => push_bulk(out, text.as_slice()),
        Answer::NullText => push_line(out, b"$-1"),
        Answer::NullList => push_line(out, b"*-1"),
        Answer::Names(names) => push_names(out, names.as_slice()),
        Answer::Signs(signs) => push_signs(out, signs.as_slice()),
        Answer::Hits {
            dim,
            scores,
            attrs,
            hits,
        } => push_hits(out, *dim, *scores, *attrs, hits.as_slice()),
        Answer::Layers {
            dim,
            scores,
            layers,
        } => push_layers(out, *dim, *scores, layers.as_slice()),
        Answer::Info(info) => push_info(out, info),
    }
}
