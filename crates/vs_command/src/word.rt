//! Single words of a message.
ghost use Rattle.std.specs.Prelude.{◌≡◌, ◌<◌, ◌≤◌, ◌+◌, ◌^◌, length, IfOk, IfSome};
ghost use Rattle.std.specs.Str.{str_to_ascii_lowercase};
ghost use Rattle.vs_command.specs.Readings.{Gives, AreShort};
ghost use Rattle.vs_command.specs.Options.{value as value_in};
ghost use Rattle.vs_defs.specs.Bounds.{IsNameInBounds, IsAttributeInBounds, IsFrom};
ghost use Rattle.vs_defs.specs.Bytes.{is_word as names};
ghost use Rattle.vs_defs.specs.Decimal.{read_int as int_in};
ghost use Rattle.vs_defs.specs.Limits.{max_ef};
ghost use Rattle.vs_defs.specs.Read.{word as word_in, read_key as key_in, read_name as name_in, read_attribute as attribute_in, option_within, read_number as number_in};
ghost use Rattle.vs_defs.specs.Request as request;

use crate::Refusal;
use crate::limits::{MAX_ATTRIBUTE_BYTES, MAX_EF, MAX_NAME_BYTES};
use vs_decimal::read_int;
use vs_outside::Text;

/// The word at a place.
pub(crate) fn word(words: &[Text], at: usize) -> &Text
    requires within { at < length words.now }
    requires short { AreShort words.now }
    ensures word { result.now ≡ word_in words.now at }
    ensures short { length result.now < 2 ^ 32 }
{
    &words[at]
}

/// Whether a word is this name of a command or an option, in any case of ASCII letters. The name is in small letters.
pub(crate) fn is_word(name: &[u8], word: &Text) -> bool
    requires { str_to_ascii_lowercase name.now ≡ name.now }
    ensures { result ≡ names name.now word.now }
{
    name.eq_ignore_ascii_case(word.as_slice())
}

/// A key, where its length is in bounds.
pub(crate) fn checked_key(word: &Text) -> Result<&Text, Refusal>
    requires { length word.now < 2 ^ 32 }
    ensures key { Gives (λ key. key.now) result (key_in word.now) }
    ensures bounds { IfOk result (λ key. IsNameInBounds key.now) }
{
    if word.len() < 1 || MAX_NAME_BYTES < word.len() {
        return Err(Refusal::BadKey {
            len: word.len() as u32,
        });
    }
    Ok(word)
}

/// A copy of a key.
pub(crate) fn read_key(word: &Text) -> Result<Text, Refusal>
    requires { length word.now < 2 ^ 32 }
    ensures key { Gives (λ key. key) result (key_in word.now) }
    ensures bounds { IfOk result IsNameInBounds }
{
    Ok(checked_key(word)?.try_clone()?)
}

/// A member's name, where its length is in bounds.
pub(crate) fn checked_name(word: &Text) -> Result<&Text, Refusal>
    requires { length word.now < 2 ^ 32 }
    ensures name { Gives (λ name. name.now) result (name_in word.now) }
    ensures bounds { IfOk result (λ name. IsNameInBounds name.now) }
{
    if word.len() < 1 || MAX_NAME_BYTES < word.len() {
        return Err(Refusal::BadName {
            len: word.len() as u32,
        });
    }
    Ok(word)
}

/// A copy of a member's name.
pub(crate) fn read_name(word: &Text) -> Result<Text, Refusal>
    requires { length word.now < 2 ^ 32 }
    ensures name { Gives (λ name. name) result (name_in word.now) }
    ensures bounds { IfOk result IsNameInBounds }
{
    Ok(checked_name(word)?.try_clone()?)
}

/// The text of an attribute, where it is short enough.
pub(crate) fn read_attribute(word: &Text) -> Result<&Text, Refusal>
    requires { length word.now < 2 ^ 32 }
    ensures attribute { Gives (λ text. text.now) result (attribute_in word.now) }
    ensures bounds { IfOk result (λ text. IsAttributeInBounds text.now) }
{
    if word.len() > MAX_ATTRIBUTE_BYTES {
        return Err(Refusal::LongAttribute {
            len: word.len() as u32,
        });
    }
    Ok(word)
}

/// The value of the option at a place, which is the word behind it.
pub(crate) fn value(words: &[Text], at: usize) -> Result<&Text, Refusal>
    requires within { at < length words.now }
    requires short { AreShort words.now }
    ensures value { Gives (λ w. w.now) result (value_in words.now at) }
    ensures short { IfOk result (λ w. length w.now < 2 ^ 32) }
    ensures within { IfOk result (λ w. at + 2 ≤ length words.now) }
{
    if at + 1 < words.len() {
        Ok(word(words, at + 1))
    } else {
        Err(Refusal::MissingValue { at: at as u32 })
    }
}

/// A whole number from `least` to `most`, where the word spells one.
pub(crate) fn number_within(word: &Text, least: u32, most: u32) -> Option<u32>
    ensures number { result ≡ option_within least most (int_in word.now) }
    ensures bounds { IfSome result (IsFrom least most) }
{
    let number = u32::try_from(read_int(word.as_slice())?).ok()?;
    (least..=most).contains(&number).then_some(number)
}

/// The value of EF, at its place.
pub(crate) fn read_ef(word: &Text, at: usize) -> Result<u32, Refusal>
    requires { at < 2 ^ 32 }
    ensures ef { Gives (λ ef. ef) result (number_in 1 max_ef (request.BadEf at) word.now) }
    ensures bounds { IfOk result (IsFrom 1 max_ef) }
{
    match number_within(word, 1, MAX_EF) {
        Some(ef) => Ok(ef),
        None => Err(Refusal::BadEf { at: at as u32 }),
    }
}
