//! Reads a message: its command, the number of its words, and the words from left to right. The first that doesn't fit
//! decides.
ghost use Rattle.std.specs.Prelude.{◌≡◌, ◌<◌, ◌≤◌, ◌+◌, ◌^◌, ℕ, All, length, drop, true, IfOk, IfSome, List as Items};
ghost use Rattle.vs_command.specs.Readings.{Gives, GivesRequest, AreShort, IsWanting};
ghost use Rattle.vs_command.specs.Requests.{request_of};
ghost use Rattle.vs_command.specs.Words.{command_seen};
ghost use Rattle.vs_defs.specs.Bounds.{IsInBounds, IsNameInBounds, IsPickCount};
ghost use Rattle.vs_defs.specs.Read.{fits_arity, read, read_keys as keys_in, read_member as member_in, read_raw as raw_in, read_withscores as withscores_in, read_picks as picks_in};
ghost use Rattle.vs_defs.specs.Read as command;

use crate::command::Command;
use crate::limits::MAX_PICKS;
use crate::vadd::read_vadd;
use crate::vsim::read_vsim;
use crate::word::{is_word, read_attribute, read_key, read_name, word};
use crate::{Refusal, Request};
use std::alloc::Global;
use vs_decimal::read_int;
use vs_outside::{List, Text};

// Copies of the keys.
fn read_keys(alloc: Global, words: &[Text]) -> Result<List<Text>, Refusal>
    requires { All (λ w. length w < 2 ^ 32) words.now }
    ensures keys { Gives (λ keys. keys) result (keys_in words.now) }
    ensures bounds { IfOk result (λ keys. All IsNameInBounds keys) }
    ensures len { IfOk result (λ keys. length keys ≡ length words.now) }
{
    let mut keys = List::new(alloc);
    for word in words {
        keys.push(read_key(word)?)?;
    }
    Ok(keys)
}

// Copies of a key and a name, which stand behind the command.
fn read_member(words: &[Text]) -> Result<(Text, Text), Refusal>
    requires arity { 3 ≤ length words.now }
    requires short { AreShort words.now }
    ensures member { Gives (λ p. (p.0, p.1)) result (member_in words.now) }
    ensures key { IfOk result (λ p. IsNameInBounds p.0) }
    ensures name { IfOk result (λ p. IsNameInBounds p.1) }
{
    let key = read_key(word(words, 1))?;
    let name = read_name(word(words, 2))?;
    Ok((key, name))
}

fn read_ping(words: &[Text]) -> Result<Request, Refusal>
    requires { 1 ≤ length words.now }
    ensures ping { GivesRequest result command.Ping words.now }
    ensures bounds { IfOk result (λ r. IsInBounds (request_of r)) }
    ensures memory { length words.now ≡ 1 → IsWanting result → ⊥ }
{
    match &words[1..] {
        [] => Ok(Request::Ping(None)),
        [text, ..] => Ok(Request::Ping(Some(text.try_clone()?))),
    }
}

fn read_del(alloc: Global, words: &[Text]) -> Result<Request, Refusal>
    requires arity { 2 ≤ length words.now }
    requires short { AreShort words.now }
    ensures del { GivesRequest result command.Del words.now }
    ensures bounds { IfOk result (λ r. IsInBounds (request_of r)) }
{
    let keys = read_keys(alloc, &words[1..])?;
    Ok(Request::Del(keys))
}

fn read_exists(alloc: Global, words: &[Text]) -> Result<Request, Refusal>
    requires arity { 2 ≤ length words.now }
    requires short { AreShort words.now }
    ensures exists { GivesRequest result command.Exists words.now }
    ensures bounds { IfOk result (λ r. IsInBounds (request_of r)) }
{
    let keys = read_keys(alloc, &words[1..])?;
    Ok(Request::Exists(keys))
}

fn read_vrem(words: &[Text]) -> Result<Request, Refusal>
    requires arity { 3 ≤ length words.now }
    requires short { AreShort words.now }
    ensures vrem { GivesRequest result command.Vrem words.now }
    ensures bounds { IfOk result (λ r. IsInBounds (request_of r)) }
{
    let (key, name) = read_member(words)?;
    Ok(Request::Vrem { key, name })
}

fn read_vcard(words: &[Text]) -> Result<Request, Refusal>
    requires arity { 2 ≤ length words.now }
    requires short { AreShort words.now }
    ensures vcard { GivesRequest result command.Vcard words.now }
    ensures bounds { IfOk result (λ r. IsInBounds (request_of r)) }
{
    let key = read_key(word(words, 1))?;
    Ok(Request::Vcard(key))
}

fn read_vdim(words: &[Text]) -> Result<Request, Refusal>
    requires arity { 2 ≤ length words.now }
    requires short { AreShort words.now }
    ensures vdim { GivesRequest result command.Vdim words.now }
    ensures bounds { IfOk result (λ r. IsInBounds (request_of r)) }
{
    let key = read_key(word(words, 1))?;
    Ok(Request::Vdim(key))
}

fn read_vinfo(words: &[Text]) -> Result<Request, Refusal>
    requires arity { 2 ≤ length words.now }
    requires short { AreShort words.now }
    ensures vinfo { GivesRequest result command.Vinfo words.now }
    ensures bounds { IfOk result (λ r. IsInBounds (request_of r)) }
{
    let key = read_key(word(words, 1))?;
    Ok(Request::Vinfo(key))
}

fn read_raw(rest: &[Text]) -> Result<(), Refusal>
    ensures { Gives (λ _. tt) result (raw_in rest.now) }
{
    match rest {
        [] => Ok(()),
        [word, ..] if is_word(b"raw", word) => Err(Refusal::Raw),
        _ => Err(Refusal::UnknownOption { at: 3 }),
    }
}

fn read_vemb(words: &[Text]) -> Result<Request, Refusal>
    requires arity { 3 ≤ length words.now }
    requires short { AreShort words.now }
    ensures vemb { GivesRequest result command.Vemb words.now }
    ensures bounds { IfOk result (λ r. IsInBounds (request_of r)) }
{
    let (key, name) = read_member(words)?;
    read_raw(&words[3..])?;
    Ok(Request::Vemb { key, name })
}

fn read_withscores(rest: &[Text]) -> Result<bool, Refusal>
    ensures { Gives (λ scores. scores) result (withscores_in rest.now) }
{
    match rest {
        [] => Ok(false),
        [word, ..] if is_word(b"withscores", word) => Ok(true),
        _ => Err(Refusal::UnknownOption { at: 3 }),
    }
}

fn read_vlinks(words: &[Text]) -> Result<Request, Refusal>
    requires arity { 3 ≤ length words.now }
    requires short { AreShort words.now }
    ensures vlinks { GivesRequest result command.Vlinks words.now }
    ensures bounds { IfOk result (λ r. IsInBounds (request_of r)) }
{
    let (key, name) = read_member(words)?;
    let scores = read_withscores(&words[3..])?;
    Ok(Request::Vlinks { key, name, scores })
}

fn read_vgetattr(words: &[Text]) -> Result<Request, Refusal>
    requires arity { 3 ≤ length words.now }
    requires short { AreShort words.now }
    ensures vgetattr { GivesRequest result command.Vgetattr words.now }
    ensures bounds { IfOk result (λ r. IsInBounds (request_of r)) }
{
    let (key, name) = read_member(words)?;
    Ok(Request::Vgetattr { key, name })
}

fn read_vsetattr(words: &[Text]) -> Result<Request, Refusal>
    requires arity { 4 ≤ length words.now }
    requires short { AreShort words.now }
    ensures vsetattr { GivesRequest result command.Vsetattr words.now }
    ensures bounds { IfOk result (λ r. IsInBounds (request_of r)) }
{
    let (key, name) = read_member(words)?;
    let text = read_attribute(word(words, 3))?.try_clone()?;
    Ok(Request::Vsetattr { key, name, text })
}

fn read_vismember(words: &[Text]) -> Result<Request, Refusal>
    requires arity { 3 ≤ length words.now }
    requires short { AreShort words.now }
    ensures vismember { GivesRequest result command.Vismember words.now }
    ensures bounds { IfOk result (λ r. IsInBounds (request_of r)) }
{
    let (key, name) = read_member(words)?;
    Ok(Request::Vismember { key, name })
}

// The count of a random pick, where one stands.
fn read_picks(rest: &[Text]) -> Result<Option<i32>, Refusal>
    ensures picks { Gives (λ count. count) result (picks_in rest.now) }
    ensures bounds { IfOk result (λ count. IfSome count IsPickCount) }
{
    let [word, ..] = rest else {
        return Ok(None);
    };
    match read_int(word.as_slice()) {
        Some(count) if -MAX_PICKS <= count && count <= MAX_PICKS => Ok(Some(count as i32)),
        _ => Err(Refusal::BadCount { at: 2 }),
    }
}

fn read_vrandmember(words: &[Text]) -> Result<Request, Refusal>
    requires arity { 2 ≤ length words.now }
    requires short { AreShort words.now }
    ensures vrandmember { GivesRequest result command.Vrandmember words.now }
    ensures bounds { IfOk result (λ r. IsInBounds (request_of r)) }
{
    let key = read_key(word(words, 1))?;
    let count = read_picks(&words[2..])?;
    Ok(Request::Vrandmember { key, count })
}

// A VADD as a request.
fn read_addition(alloc: Global, words: &[Text]) -> Result<Request, Refusal>
    requires arity { 5 ≤ length words.now }
    requires short { AreShort words.now }
    ensures vadd { GivesRequest result command.Vadd words.now }
    ensures bounds { IfOk result (λ r. IsInBounds (request_of r)) }
{
    let add = read_vadd(alloc, words)?;
    Ok(Request::Vadd(add))
}

// A VSIM as a request.
fn read_search(alloc: Global, words: &[Text]) -> Result<Request, Refusal>
    requires arity { 4 ≤ length words.now }
    requires short { AreShort words.now }
    ensures vsim { GivesRequest result command.Vsim words.now }
    ensures bounds { IfOk result (λ r. IsInBounds (request_of r)) }
{
    let search = read_vsim(alloc, words)?;
    Ok(Request::Vsim(search))
}

// The words behind a command that may have so many.
fn read_command(alloc: Global, command: Command, words: &[Text]) -> Result<Request, Refusal>
    requires arity { fits_arity (command_seen command) (length words.now) ≡ true }
    requires short { AreShort words.now }
    ensures request { GivesRequest result (command_seen command) words.now }
    ensures bounds { IfOk result (λ r. IsInBounds (request_of r)) }
    ensures memory { length words.now ≡ 1 → IsWanting result → ⊥ }
{
    match command {
        Command::Ping => read_ping(words),
        Command::Quit => Ok(Request::Quit),
        Command::Del => read_del(alloc, words),
        Command::Exists => read_exists(alloc, words),
        Command::Vadd => read_addition(alloc, words),
        Command::Vrem => read_vrem(words),
        Command::Vsim => read_search(alloc, words),
        Command::Vcard => read_vcard(words),
        Command::Vdim => read_vdim(words),
        Command::Vemb => read_vemb(words),
        Command::Vlinks => read_vlinks(words),
        Command::Vinfo => read_vinfo(words),
        Command::Vgetattr => read_vgetattr(words),
        Command::Vsetattr => read_vsetattr(words),
        Command::Vrandmember => read_vrandmember(words),
        Command::Vismember => read_vismember(words),
    }
}

/// The request that a message of these words asks for, or the first cause for which it is refused. Words of commands and
/// options are compared without regard to ASCII case; an option may be repeated, and the last one counts.
pub fn read_request(alloc: Global, words: &[Text]) -> Result<Request, Refusal>
    requires some { 1 ≤ length words.now }
    requires short { AreShort words.now }
    ensures request { Gives request_of result (read words.now) }
    ensures bounds { IfOk result (λ r. IsInBounds (request_of r)) }
    ensures memory { length words.now ≡ 1 → IsWanting result → ⊥ }
{
    let Some(command) = Command::named(word(words, 0)) else {
        return Err(Refusal::UnknownCommand);
    };
    if !command.takes(words.len()) {
        return Err(Refusal::WrongArity);
    }
    read_command(alloc, command, words)
}
