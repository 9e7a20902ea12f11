//! White space, and the marks that may stand behind it.
#![tactic(auto)]

ghost use Rattle.std.specs.Prelude.{◌≡◌, ◌≤◌, ◌<◌, length, IfSome, option_map};
ghost use Rattle.vs_defs.specs.Json.{skip_space as past_space, mark_at as mark_in};

/// The text behind spaces, tabs, line feeds and carriage returns.
pub fn skip_space(text: &[u8]) -> &[u8]
    ensures value { result.now ≡ past_space text.now }
    ensures bound { length result.now ≤ length text.now }
{
    let mut text = text;
    while let [b' ' | b'\t' | b'\n' | b'\r', rest @ ..] = text {
        text = rest;
    }
    text
}

/// The text behind this byte, which white space may precede.
pub fn mark_at(mark: u8, text: &[u8]) -> Option<&[u8]>
    ensures value { option_map (λ r. r.now) result ≡ mark_in mark text.now }
    ensures bound { IfSome result (λ r. length r.now < length text.now) }
{
    match skip_space(text) {
        [byte, rest @ ..] if *byte == mark => Some(rest),
        _ => None,
    }
}
