//! What a message asks for.
ghost use Rattle.std.specs.Prelude.{◌≡◌, IfOk};
ghost use Rattle.vs_command.specs.Requests.{search_of, what_of};

use std::alloc::Global;
use vs_bits::{Add, Bits};
use vs_filter::Filter;
use vs_outside::{List, NoMemory, Text};

/// What a search looks for: the vector of a member, or a vector of its own.
#[derive(Drop)]
pub enum What {
    Ele(Text),
    Values(Bits),
}

impl What {
    fn try_clone(&self) -> Result<What, NoMemory>
        ensures { IfOk result (λ copy. what_of copy ≡ what_of self.now) }
    {
        Ok(match self {
            What::Ele(name) => What::Ele(name.try_clone()?),
            What::Values(bits) => What::Values(bits.try_clone()?),
        })
    }
}

/// A VSIM. `effort` is how many members a filtered search may try; it is 0 where there is no limit or no filter.
#[derive(Drop)]
pub struct Search {
    pub key: Text,
    pub what: What,
    pub scores: bool,
    pub attrs: bool,
    pub count: u32,
    pub ef: u32,
    pub filter: Option<Filter>,
    pub effort: u32,
    pub truth: bool,
    pub nothread: bool,
}

impl Search {
    /// An equal search, in memory of its own.
    pub fn try_clone(&self, alloc: Global) -> Result<Search, NoMemory>
        ensures { IfOk result (λ copy. search_of copy ≡ search_of self.now) }
    {
        let filter = match &self.filter {
            None => None,
            Some(filter) => Some(filter.try_clone(alloc)?),
        };
        Ok(Search {
            key: self.key.try_clone()?,
            what: self.what.try_clone()?,
            scores: self.scores,
            attrs: self.attrs,
            count: self.count,
            ef: self.ef,
            filter,
            effort: self.effort,
            truth: self.truth,
            nothread: self.nothread,
        })
    }
}

/// A request. The commands and their words are those of Redis 8's vector sets, with the base commands that go with them.
#[derive(Drop)]
pub enum Request {
    Ping(Option<Text>),
    Quit,
    Del(List<Text>),
    Exists(List<Text>),
    Vadd(Add),
    Vrem { key: Text, name: Text },
    Vsim(Search),
    Vcard(Text),
    Vdim(Text),
    Vemb { key: Text, name: Text },
    Vlinks { key: Text, name: Text, scores: bool },
    Vinfo(Text),
    Vgetattr { key: Text, name: Text },
    Vsetattr { key: Text, name: Text, text: Text },
    Vrandmember { key: Text, count: Option<i32> },
    Vismember { key: Text, name: Text },
}
