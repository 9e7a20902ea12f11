//! VADD: the vector and the name of a member, and options.
ghost use Rattle.std.specs.Prelude.{◌≡◌, ◌<◌, ◌≤◌, ◌+◌, ◌^◌, length, drop, option_map, IfOk};
ghost use Rattle.vs_bits.specs.Requests.{add_of};
ghost use Rattle.vs_command.specs.Options.{taken, AreAddOptionsInBounds};
ghost use Rattle.vs_command.specs.Readings.{Gives, AreShort};
ghost use Rattle.vs_command.specs.Words.{add_option_seen, add_options_seen};
ghost use Rattle.vs_defs.specs.Bounds.{IsFrom, IsAddInBounds};
ghost use Rattle.vs_defs.specs.Limits.{min_m, max_m};
ghost use Rattle.vs_defs.specs.Read.{add_option, add_options, find_add_option, named, no_add_options, read_add_form as form_in, read_number, read_options, read_vadd as vadd_in};
ghost use Rattle.vs_defs.specs.Request as request;

use crate::Refusal;
use crate::limits::{MAX_M, MIN_M};
use crate::vector::read_vector;
use crate::word::{
    checked_key, checked_name, is_word, number_within, read_attribute, read_ef, value, word,
};
use std::alloc::Global;
use vs_bits::Add;
use vs_outside::Text;

#[derive(Clone, Copy)]
enum AddOption {
    Cas,
    Bin,
    Quantiser,
    Ef,
    M,
    Setattr,
}

impl AddOption {
    fn named(word: &Text) -> Option<AddOption>
        ensures { option_map add_option_seen result ≡ named word.now add_options }
    {
        Some(if is_word(b"cas", word) {
            AddOption::Cas
        } else if is_word(b"bin", word) {
            AddOption::Bin
        } else if is_word(b"q8", word) || is_word(b"noquant", word) {
            AddOption::Quantiser
        } else if is_word(b"ef", word) {
            AddOption::Ef
        } else if is_word(b"m", word) {
            AddOption::M
        } else if is_word(b"setattr", word) {
            AddOption::Setattr
        } else {
            return None;
        })
    }
}

fn read_m(word: &Text, at: usize) -> Result<u16, Refusal>
    requires { at < 2 ^ 32 }
    ensures m { Gives (λ m. m) result (read_number min_m max_m (request.BadM at) word.now) }
    ensures bounds { IfOk result (IsFrom min_m max_m) }
{
    match number_within(word, MIN_M, MAX_M) {
        Some(m) => Ok(m as u16),
        None => Err(Refusal::BadM { at: at as u32 }),
    }
}

/// What the options say; of a repeated one the last counts.
#[derive(Drop)]
struct AddOptions<'a> {
    cas: bool,
    ef: u32,
    m: Option<u16>,
    attr: Option<&'a Text>,
}

impl<'a> AddOptions<'a> {
    fn new() -> AddOptions<'a>
        ensures { add_options_seen result ≡ no_add_options }
    {
        AddOptions {
            cas: false,
            ef: 200,
            m: None,
            attr: None,
        }
    }

    // Takes the option at a place, with its value where it has one, and gives the place behind them.
    fn take(&mut self, option: AddOption, at: usize, words: &'a [Text]) -> Result<usize, Refusal>
        requires within { at < length words.now }
        requires short { AreShort words.now }
        ensures options { Gives (λ next. (add_options_seen self.new, next)) result (taken (add_option (add_options_seen self.old) at (add_option_seen option)) at words.now) }
        ensures within { IfOk result (λ next. (at < next) × (next ≤ length words.now)) }
        ensures bounds { AreAddOptionsInBounds (add_options_seen self.old) → IfOk result (λ next. AreAddOptionsInBounds (add_options_seen self.new)) }
    {
        match option {
            AddOption::Cas => {
                self.cas = true;
                Ok(at + 1)
            }
            AddOption::Bin => Ok(at + 1),
            AddOption::Quantiser => Err(Refusal::Quantiser { at: at as u32 }),
            AddOption::Ef => {
                self.ef = read_ef(value(words, at)?, at + 1)?;
                Ok(at + 2)
            }
            AddOption::M => {
                self.m = Some(read_m(value(words, at)?, at + 1)?);
                Ok(at + 2)
            }
            AddOption::Setattr => {
                self.attr = Some(read_attribute(value(words, at)?)?);
                Ok(at + 2)
            }
        }
    }
}

// The options, from a place to the message's end.
fn read_add_options(start: usize, words: &[Text]) -> Result<AddOptions, Refusal>
    requires within { start ≤ length words.now }
    requires short { AreShort words.now }
    ensures options { Gives add_options_seen result (read_options find_add_option no_add_options start (drop start words.now)) }
    ensures bounds { IfOk result (λ o. AreAddOptionsInBounds (add_options_seen o)) }
{
    let mut options = AddOptions::new();
    let mut at = start;
    while at < words.len() {
        let Some(option) = AddOption::named(word(words, at)) else {
            return Err(Refusal::UnknownOption { at: at as u32 });
        };
        at = options.take(option, at, words)?;
    }
    Ok(options)
}

// The vector has to be given by its values.
fn read_add_form(form: &Text) -> Result<(), Refusal>
    ensures { Gives (λ _. tt) result (form_in form.now) }
{
    if is_word(b"values", form) {
        Ok(())
    } else if is_word(b"fp32", form) {
        Err(Refusal::Fp32)
    } else if is_word(b"reduce", form) {
        Err(Refusal::Reduce)
    } else {
        Err(Refusal::BadVectorForm { at: 2 })
    }
}

/// Reads a VADD. The key, the name and the attribute are copied once nothing is left to refuse.
pub(crate) fn read_vadd(alloc: Global, words: &[Text]) -> Result<Add, Refusal>
    requires arity { 5 ≤ length words.now }
    requires short { AreShort words.now }
    ensures add { Gives (λ add. request.Vadd (add_of add)) result (vadd_in words.now) }
    ensures bounds { IfOk result (λ add. IsAddInBounds (add_of add)) }
{
    let key = checked_key(word(words, 1))?;
    read_add_form(word(words, 2))?;
    let bits = read_vector(alloc, 1, words)?;
    let name_at = 4 + bits.dim() as usize;
    let name = checked_name(word(words, name_at))?;
    let options = read_add_options(name_at + 1, words)?;
    let attr = match options.attr {
        None => None,
        Some(text) => Some(text.try_clone()?),
    };
    Ok(Add {
        key: key.try_clone()?,
        name: name.try_clone()?,
        bits,
        cas: options.cas,
        ef: options.ef,
        m: options.m,
        attr,
    })
}
