//! The commands, by their words.
ghost use Rattle.std.specs.Prelude.{◌≡◌, option_map};
ghost use Rattle.vs_command.specs.Words.{command_seen};
ghost use Rattle.vs_defs.specs.Read.{commands, fits_arity, named};

use crate::word::is_word;
use vs_outside::Text;

#[derive(Clone, Copy)]
pub(crate) enum Command {
    Ping,
    Quit,
    Del,
    Exists,
    Vadd,
    Vrem,
    Vsim,
    Vcard,
    Vdim,
    Vemb,
    Vlinks,
    Vinfo,
    Vgetattr,
    Vsetattr,
    Vrandmember,
    Vismember,
}

impl Command {
    /// The command that a word names.
    pub(crate) fn named(word: &Text) -> Option<Command>
        ensures { option_map command_seen result ≡ named word.now commands }
    {
        Some(if is_word(b"ping", word) {
            Command::Ping
        } else if is_word(b"quit", word) {
            Command::Quit
        } else if is_word(b"del", word) {
            Command::Del
        } else if is_word(b"exists", word) {
            Command::Exists
        } else if is_word(b"vadd", word) {
            Command::Vadd
        } else if is_word(b"vrem", word) {
            Command::Vrem
        } else if is_word(b"vsim", word) {
            Command::Vsim
        } else if is_word(b"vcard", word) {
            Command::Vcard
        } else if is_word(b"vdim", word) {
            Command::Vdim
        } else if is_word(b"vemb", word) {
            Command::Vemb
        } else if is_word(b"vlinks", word) {
            Command::Vlinks
        } else if is_word(b"vinfo", word) {
            Command::Vinfo
        } else if is_word(b"vgetattr", word) {
            Command::Vgetattr
        } else if is_word(b"vsetattr", word) {
            Command::Vsetattr
        } else if is_word(b"vrandmember", word) {
            Command::Vrandmember
        } else if is_word(b"vismember", word) {
            Command::Vismember
        } else {
            return None;
        })
    }

    /// Whether a message of this command may have `words` words, the command's own counted.
    pub(crate) fn takes(self, words: usize) -> bool
        ensures { result ≡ fits_arity (command_seen self) words }
    {
        match self {
            Command::Quit => words == 1,
            Command::Ping => words == 1 || words == 2,
            Command::Vcard | Command::Vdim | Command::Vinfo => words == 2,
            Command::Vrandmember => words == 2 || words == 3,
            Command::Vrem | Command::Vgetattr | Command::Vismember => words == 3,
            Command::Vemb | Command::Vlinks => words == 3 || words == 4,
            Command::Vsetattr => words == 4,
            Command::Del | Command::Exists => words >= 2,
            Command::Vsim => words >= 4,
            Command::Vadd => words >= 5,
        }
    }
}
