//! Questions to the store of generated members. They change nothing.
ghost use Rattle.std.specs.Prelude.{◌≡◌, false, [], IfOk, OnOk};
ghost use Rattle.vs_command.specs.Answers.{answer_of, hits_of, info_of};
ghost use Rattle.vs_command.specs.Requests.{request_of};
ghost use Rattle.vs_defs.specs.Answers.{Answers};
ghost use Rattle.vs_defs.specs.Bounds.{IsInBounds};
ghost use Rattle.vs_defs.specs.Read.{draws};
ghost use Rattle.vs_defs.specs.Refuse.{is_change};
ghost use Rattle.vs_defs.specs.Store.{PlainStore};
ghost use Rattle.vs_thread_defs.specs.Generator.{member_name};
ghost use Rattle.vs_generate.specs.Asked.{FactsOf, FoundFirst};

use itoa::Buffer;
use std::alloc::{AllocError, Global};
use vs_command::{Answer, Info, NamedHit, Request, Search, What};
use vs_outside::{List, NoMemory, Text};
use vs_slot::Slot;
use vs_store::Store;

/// The key of the generated set.
pub const KEY: &[u8] = b"g";

/// The name of a member by its number.
pub fn name_of(alloc: Global, number: u32) -> Result<Text, NoMemory>
    ensures { IfOk result (λ name. name ≡ member_name number) }
{
    let mut buffer = Buffer::new();
    let mut name = Text::from_slice(alloc, b"m")?;
    name.extend_from_slice(buffer.format(number).as_bytes())?;
    Ok(name)
}

/// Answers a request that only asks.
pub fn ask(store: &mut Store, request: &Request, slot: &mut Slot) -> Result<Answer, NoMemory>
    requires bounds { IsInBounds (request_of request.now) }
    requires quiet { (s : PlainStore) → is_change s (request_of request.now) ≡ false }
    requires drawless { draws (request_of request.now) ≡ 0 }
    ensures same { OnOk result (store.new ≡ store.old) }
    ensures answers { IfOk result (λ answer. Answers store.old (request_of request.now) [] (answer_of answer)) }
{
    match store.do_now(0, request, &[], slot) {
        Ok(answer) => Ok(answer),
        Err(_) => Err(AllocError),
    }
}

/// The facts of the set.
pub fn facts(alloc: Global, store: &mut Store, slot: &mut Slot) -> Result<Info, NoMemory>
    ensures same { OnOk result (store.new ≡ store.old) }
    ensures facts { IfOk result (λ info. FactsOf store.old (info_of info)) }
{
    let key = Text::from_slice(alloc, KEY)?;
    let answer = ask(store, &Request::Vinfo(key), slot)?;
    match answer {
        Answer::Info(info) => Ok(info),
        _ => Err(AllocError),
    }
}

/// The ten members that are nearest to the first one, or that a beam finds.
pub fn nearest_first(
    alloc: Global,
    store: &mut Store,
    truth: bool,
    slot: &mut Slot,
) -> Result<List<NamedHit>, NoMemory>
    ensures same { OnOk result (store.new ≡ store.old) }
    ensures found { IfOk result (λ hits. FoundFirst truth store.old (hits_of hits)) }
{
    let key = Text::from_slice(alloc, KEY)?;
    let name = name_of(alloc, 0)?;
    let search = Search {
        key,
        what: What::Ele(name),
        scores: false,
        attrs: false,
        count: 10,
        ef: 100,
        filter: None,
        effort: 0,
        truth,
        nothread: false,
    };
    let answer = ask(store, &Request::Vsim(search), slot)?;
    match answer {
        Answer::Hits { hits, .. } => Ok(hits),
        _ => Err(AllocError),
    }
}
