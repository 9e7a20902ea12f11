//! Requests drawn at random, each beside what the plain list answers.
ghost use Rattle.std.specs.Prelude.{◌<◌, IfOk};
ghost use Rattle.vs_store.specs.Kept.{AreUsual};
ghost use Rattle.vs_store.specs.Seen.{limits_seen};

use crate::asking::{Asked, check, outcome_of, settled};
use std::alloc::Global;
use std::process::Abort;
use vs_command::{Answer, level_of_word};
use vs_outside::{List, NoMemory};
use vs_store::Limits;
use vs_store_fixtures::{
    KEYS, Member, Plain, Random, Sought, attribute_of, check_hits, component_words, nearest_text,
    picked, picked_again, refusal_of_addition,
};

/// A store beside the plain list, and what requests are drawn from.
#[derive(Drop)]
pub struct Trial {
    pub asked: Asked,
    pub plain: Plain,
    pub random: Random,
    pub limits: Limits,
}

/// How many names there are; the first is `A`.
const NAMES: u32 = 24;

impl Trial {
    pub fn new(alloc: Global, limits: Limits) -> Trial
        requires { AreUsual (limits_seen limits) }
    {
        Trial {
            asked: Asked::new(alloc, limits),
            plain: Plain::new(alloc),
            random: Random::new(),
            limits,
        }
    }

    /// One of three keys, and now and then the fourth.
    fn key(&mut self) -> u8 {
        if self.random.is_one_in(40) {
            return KEYS[3];
        }
        KEYS[self.random.below(3) as usize]
    }

    fn name(&mut self) -> u8 {
        b'A' + self.random.below(NAMES) as u8
    }

    /// The name of a member of a set where there is one, but now and then any.
    fn name_in(&mut self, key: u8) -> Result<u8, NoMemory> {
        let members = self.plain.members_of(key)?;
        let any = self.name();
        let place = self.random.word() as usize % members.len().max(1);
        match members.get(place) {
            Some(member) if any != b'A' => Ok(member.name),
            _ => Ok(any),
        }
    }

    /// A number of an attribute, 0 for none.
    fn number(&mut self) -> u8 {
        self.random.below(10) as u8
    }

    /// So many components, the lowest bit first.
    fn vector(&mut self, dim: u32) -> u32 {
        self.random.word() & 1_u32.checked_shl(dim).unwrap_or(0).wrapping_sub(1)
    }

    /// The dimension and the M of a set, or drawn ones where the key is absent. The dimension is now and then a wrong one.
    fn shape(&mut self, key: u8) -> (u32, u16) {
        let wrong = self.random.is_one_in(40);
        match self.plain.first_of(key) {
            Some(first) if !wrong => (first.dim, first.m),
            Some(first) => (1 + self.random.below(20), first.m),
            None => {
                let m = if self.random.is_one_in(4) { 16 } else { 4 };
                (1 + self.random.below(20), m)
            }
        }
    }
}

// ---- additions

/// The words of an addition that are options.
fn options(trial: &mut Trial, m: Option<u16>, number: Option<u8>) -> Result<String, NoMemory> {
    let alloc = trial.asked.alloc;
    let mut words = String::new(alloc);
    if let Some(m) = m {
        words.push_str(format!(in alloc; " M {m}")?.as_str())?;
    }
    if trial.random.is_one_in(2) {
        words.push_str(" CAS")?;
    }
    if trial.random.is_one_in(2) {
        let ef = 1 + trial.random.below(40);
        words.push_str(format!(in alloc; " EF {ef}")?.as_str())?;
    }
    match number {
        None => {}
        Some(0) => words.push_str(" SETATTR ")?,
        Some(number) => {
            words.push_str(" SETATTR ")?;
            words.push_str(attribute_of(alloc, number)?.as_str())?;
        }
    }
    Ok(words)
}

/// An addition, of a new name or a member's: the member that it makes, with the M, the attribute's number and the word that were drawn.
#[derive(Clone, Copy)]
struct Addition {
    member: Member,
    m: Option<u16>,
    number: Option<u8>,
    word: u32,
}

/// The M that is named: that of the set, or 4, or none.
fn named_m(trial: &mut Trial, set_m: u16) -> Option<u16> {
    match trial.random.below(16) {
        0 => Some(4),
        1..8 => Some(set_m),
        _ => None,
    }
}

fn drawn(trial: &mut Trial) -> Addition {
    let (key, name) = (trial.key(), trial.name());
    let (dim, set_m) = trial.shape(key);
    let m = named_m(trial, set_m);
    let keeps = trial.random.is_one_in(2);
    let number = if keeps { None } else { Some(trial.number()) };
    let vector = trial.vector(dim);
    let word = trial.random.word();
    let old = trial.plain.find(key, name);
    let member = Member {
        key,
        name,
        dim,
        m: match trial.plain.first_of(key) {
            Some(first) => first.m,
            None => m.unwrap_or(16),
        },
        vector,
        level: level_of_word(word),
        number: number.unwrap_or(old.map_or(0, |old| old.number)),
    };
    Addition {
        member,
        m,
        number,
        word,
    }
}

fn addition_line(trial: &mut Trial, addition: Addition) -> Result<String, NoMemory> {
    let Member {
        key,
        name,
        dim,
        vector,
        ..
    } = addition.member;
    let alloc = trial.asked.alloc;
    let words = component_words(alloc, dim, vector)?;
    let options = options(trial, addition.m, addition.number)?;
    let (key, name) = (key as char, name as char);
    Ok(format!(in alloc; "VADD {key} VALUES {dim}{words} {name}{options}")?)
}

fn add(rt: &impl Abort, trial: &mut Trial) -> Result<u8, NoMemory> {
    let alloc = trial.asked.alloc;
    let addition = drawn(trial);
    let member = addition.member;
    let line = addition_line(trial, addition)?;
    let refusal = refusal_of_addition(&trial.plain, trial.limits, &member, addition.m);
    let is_new = !trial.plain.has(member.key, member.name);
    let wanted = match refusal {
        Some(refusal) => format!(in alloc; "{refusal:?}")?,
        None => format!(in alloc; "{}", u8::from(is_new))?,
    };
    check(
        rt,
        &mut trial.asked,
        line.as_str(),
        &[addition.word],
        wanted.as_str(),
    )?;
    if refusal.is_none() {
        trial.plain.put(member)?;
    }
    Ok(member.key)
}

// ---- removals and attributes

fn remove(rt: &impl Abort, trial: &mut Trial) -> Result<u8, NoMemory> {
    let key = trial.key();
    let name = trial.name_in(key)?;
    let line = format!(in trial.asked.alloc; "VREM {} {}", key as char, name as char)?;
    let wanted = if trial.plain.has(key, name) { "1" } else { "0" };
    check(rt, &mut trial.asked, line.as_str(), &[], wanted)?;
    trial.plain.remove(key, name)?;
    Ok(key)
}

/// Deletes the fourth key and at times one of the others.
fn remove_keys(rt: &impl Abort, trial: &mut Trial) -> Result<u8, NoMemory> {
    let other = if trial.random.is_one_in(3) {
        trial.key()
    } else {
        b'x'
    };
    let line = format!(in trial.asked.alloc; "DEL n {} x n", other as char)?;
    let before = trial.plain.count_keys(&KEYS);
    trial.plain.remove_key(b'n')?;
    trial.plain.remove_key(other)?;
    let gone = before.saturating_sub(trial.plain.count_keys(&KEYS));
    let wanted = format!(in trial.asked.alloc; "{gone}")?;
    check(rt, &mut trial.asked, line.as_str(), &[], wanted.as_str())?;
    Ok(b'n')
}

fn set_attribute(rt: &impl Abort, trial: &mut Trial) -> Result<u8, NoMemory> {
    let alloc = trial.asked.alloc;
    let key = trial.key();
    let name = trial.name_in(key)?;
    let number = trial.number();
    let text = if number == 0 {
        String::new(alloc)
    } else {
        attribute_of(alloc, number)?
    };
    let line = format!(in alloc; "VSETATTR {} {} {text}", key as char, name as char)?;
    let old = trial.plain.find(key, name);
    let wanted = if old.is_some() { "1" } else { "0" };
    check(rt, &mut trial.asked, line.as_str(), &[], wanted)?;
    if let Some(old) = old {
        trial.plain.put(Member { number, ..old })?;
    }
    Ok(key)
}

// ---- random picks

/// So many words.
fn drawn_words(trial: &mut Trial, count: u32) -> Result<List<u32>, NoMemory> {
    let mut words = List::new(trial.asked.alloc);
    for _pick in 0..count {
        words.push(trial.random.word())?;
    }
    Ok(words)
}

fn pick(rt: &impl Abort, trial: &mut Trial) -> Result<u8, NoMemory> {
    let alloc = trial.asked.alloc;
    let key = trial.key();
    let count = trial.random.below(30);
    let words = drawn_words(trial, count)?;
    let members = trial.plain.members_of(key)?;
    let wanted = picked(alloc, members.as_slice(), words.as_slice())?;
    let line = format!(in alloc; "VRANDMEMBER {} {count}", key as char)?;
    check(
        rt,
        &mut trial.asked,
        line.as_str(),
        words.as_slice(),
        wanted.as_str(),
    )?;
    Ok(key)
}

fn pick_again(rt: &impl Abort, trial: &mut Trial) -> Result<u8, NoMemory> {
    let alloc = trial.asked.alloc;
    let key = trial.key();
    let count = 1 + trial.random.below(30);
    let words = drawn_words(trial, count)?;
    let members = trial.plain.members_of(key)?;
    let wanted = picked_again(alloc, members.as_slice(), words.as_slice())?;
    let line = format!(in alloc; "VRANDMEMBER {} -{count}", key as char)?;
    check(
        rt,
        &mut trial.asked,
        line.as_str(),
        words.as_slice(),
        wanted.as_str(),
    )?;
    Ok(key)
}

// ---- short questions

/// Asks for a dimension, and whether a name, there or not, is a member's.
fn ask(rt: &impl Abort, trial: &mut Trial) -> Result<u8, NoMemory> {
    let alloc = trial.asked.alloc;
    let (key, name) = (trial.key(), trial.name());
    let line = format!(in alloc; "VDIM {}", key as char)?;
    let wanted = match trial.plain.first_of(key) {
        Some(first) => format!(in alloc; "{}", first.dim)?,
        None => format!(in alloc; "NoSuchKey")?,
    };
    check(rt, &mut trial.asked, line.as_str(), &[], wanted.as_str())?;
    let line = format!(in alloc; "VISMEMBER {} {}", key as char, name as char)?;
    let wanted = if trial.plain.has(key, name) { "1" } else { "0" };
    check(rt, &mut trial.asked, line.as_str(), &[], wanted)?;
    Ok(key)
}

// ---- searches

/// Words of a search after its vector, but TRUTH.
fn search_options(trial: &mut Trial, sought: Sought) -> Result<String, NoMemory> {
    let alloc = trial.asked.alloc;
    let mut words = format!(in alloc; " COUNT {}", sought.count)?;
    if trial.random.is_one_in(2) {
        let ef = 1 + trial.random.below(30);
        words.push_str(format!(in alloc; " EF {ef}")?.as_str())?;
    }
    if sought.least > 0 {
        words.push_str(format!(in alloc; " FILTER .n>={}", sought.least)?.as_str())?;
        if trial.random.is_one_in(2) {
            let effort = trial.random.below(30);
            words.push_str(format!(in alloc; " FILTER-EF {effort}")?.as_str())?;
        }
    }
    if sought.attrs {
        words.push_str(" WITHATTRIBS")?;
    }
    Ok(words)
}

/// A search with TRUTH beside a plain sort, and without it by its laws.
fn check_search(
    rt: &impl Abort,
    trial: &mut Trial,
    line: &str,
    key: u8,
    sought: Sought,
) -> Result<(), NoMemory> {
    let alloc = trial.asked.alloc;
    let members = trial.plain.members_of(key)?;
    let wanted = nearest_text(alloc, members.as_slice(), sought)?;
    let truth = format!(in alloc; "{line} TRUTH")?;
    check(rt, &mut trial.asked, truth.as_str(), &[], wanted.as_str())?;
    match outcome_of(rt, &mut trial.asked, line, &[])? {
        Ok(Answer::Hits { hits, .. }) => {
            let judged = check_hits(alloc, members.as_slice(), sought, hits.as_slice());
            settled(rt, judged)
        }
        _ => panic!(rt; "no hits: {line}"),
    }
}

fn sought_by(trial: &mut Trial, vector: u32) -> Sought {
    Sought {
        vector,
        least: if trial.random.is_one_in(2) {
            0
        } else {
            1 + trial.random.below(9) as u8
        },
        count: 1 + trial.random.below(30),
        attrs: trial.random.is_one_in(2),
    }
}

fn search_vector(rt: &impl Abort, trial: &mut Trial) -> Result<u8, NoMemory> {
    let alloc = trial.asked.alloc;
    let key = trial.key();
    let dim = match trial.plain.first_of(key) {
        Some(first) => first.dim,
        None => 7,
    };
    let vector = trial.vector(dim);
    let sought = sought_by(trial, vector);
    let words = component_words(alloc, dim, vector)?;
    let options = search_options(trial, sought)?;
    let line = format!(in alloc; "VSIM {} VALUES {dim}{words}{options}", key as char)?;
    check_search(rt, trial, line.as_str(), key, sought)?;
    Ok(key)
}

fn search_member(rt: &impl Abort, trial: &mut Trial) -> Result<u8, NoMemory> {
    let alloc = trial.asked.alloc;
    let key = trial.key();
    let name = trial.name_in(key)?;
    let vector = match trial.plain.find(key, name) {
        Some(member) => member.vector,
        None => 0,
    };
    let sought = sought_by(trial, vector);
    let options = search_options(trial, sought)?;
    let line = format!(in alloc; "VSIM {} ELE {}{options}", key as char, name as char)?;
    if trial.plain.first_of(key).is_some() && !trial.plain.has(key, name) {
        check(rt, &mut trial.asked, line.as_str(), &[], "NoSuchElement")?;
    } else {
        check_search(rt, trial, line.as_str(), key, sought)?;
    }
    Ok(key)
}

/// One request, or a search with TRUTH and without; the key that it was about.
pub fn step(rt: &impl Abort, trial: &mut Trial) -> Result<u8, NoMemory> {
    match trial.random.below(100) {
        0..50 => add(rt, trial),
        50..67 => remove(rt, trial),
        67 => remove_keys(rt, trial),
        68..74 => set_attribute(rt, trial),
        74..78 => ask(rt, trial),
        78..82 => pick(rt, trial),
        82..85 => pick_again(rt, trial),
        85..93 => search_vector(rt, trial),
        _ => search_member(rt, trial),
    }
}
