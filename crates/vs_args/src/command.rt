//! The commands that are built, and their options.
ghost use Rattle.std.specs.Prelude.{◌≡◌, ◌++◌, ◌<◌, ◌≤◌, List, [], ◌∷◌, codes, option_map, Some, None, is_some, cond, IfSome};
ghost use Rattle.std.specs.List.{starts_with, position};
ghost use Rattle.std.specs.Bool.{nat_eq};
ghost use Rattle.vs_defs.specs.ProgramWords.{value_in};
ghost use Rattle.vs_args.specs.Words.{choice_of, choices_of, command_named as named, is_named, joined_name as joined};

use crate::number::read_number;
use arrayvec::ArrayVec;

/// A command of the program.
#[derive(Clone, Copy, Debug, PartialEq, Eq)]
pub enum Command {
    Script,
    Schedule,
    Generate,
    Serve,
}

/// An option of a command.
#[derive(Clone, Copy, Debug, Default, PartialEq, Eq)]
pub enum Choice {
    #[default]
    Seed,
    Members,
    Dim,
    Port,
    Workers,
    Connections,
}

/// The options that may still be named: at most four.
pub type Choices = ArrayVec<Choice, 4>;

/// The command of this name.
pub fn command_named(word: &[u8]) -> Option<Command>
    ensures { result ≡ named word.now }
{
    if word == b"script".as_slice() {
        Some(Command::Script)
    } else if word == b"schedule".as_slice() {
        Some(Command::Schedule)
    } else if word == b"generate".as_slice() {
        Some(Command::Generate)
    } else if word == b"serve".as_slice() {
        Some(Command::Serve)
    } else {
        None
    }
}

impl Command {
    /// The options of the command.
    pub fn choices(self) -> Choices
        ensures { result.items ≡ choices_of self }
    {
        let mut choices = ArrayVec::new();
        match self {
            Command::Script => choices.push(Choice::Seed),
            Command::Schedule => {}
            Command::Generate => {
                choices.push(Choice::Seed);
                choices.push(Choice::Members);
                choices.push(Choice::Dim);
            }
            Command::Serve => {
                choices.push(Choice::Port);
                choices.push(Choice::Workers);
                choices.push(Choice::Seed);
                choices.push(Choice::Connections);
            }
        }
        choices
    }
}

impl Choice {
    /// The word that names the option.
    pub fn name(self) -> &'static [u8]
        ensures { result.now ≡ (choice_of self).name }
    {
        match self {
            Choice::Seed => b"--seed",
            Choice::Members => b"--members",
            Choice::Dim => b"--dim",
            Choice::Port => b"--port",
            Choice::Workers => b"--workers",
            Choice::Connections => b"--connections",
        }
    }

    /// What a word that names the option with its value begins with.
    pub fn joined_name(self) -> &'static [u8]
        ensures { result.now ≡ joined self }
    {
        match self {
            Choice::Seed => b"--seed=",
            Choice::Members => b"--members=",
            Choice::Dim => b"--dim=",
            Choice::Port => b"--port=",
            Choice::Workers => b"--workers=",
            Choice::Connections => b"--connections=",
        }
    }

    /// The least and the greatest value.
    fn range(self) -> (u64, u64)
        ensures least { result.0 ≡ (choice_of self).least }
        ensures most { result.1 ≡ (choice_of self).most }
    {
        match self {
            Choice::Seed => (0, u64::MAX),
            Choice::Members => (1, 1_048_576),
            Choice::Dim => (1, 4096),
            Choice::Port => (1, 65_535),
            Choice::Workers => (1, 64),
            Choice::Connections => (1, 4_294_967_295),
        }
    }

    /// The value that a text spells, where it is in the option's range.
    pub fn value(self, text: &[u8]) -> Option<u64>
        ensures value { result ≡ value_in (choice_of self) text.now }
        ensures least { IfSome result (λ value. (choice_of self).least ≤ value) }
        ensures most { IfSome result (λ value. value ≤ (choice_of self).most) }
    {
        let (least, most) = self.range();
        read_number(text).filter(|value| least <= *value && *value <= most)
    }
}

/// The place of the option that a word names.
pub fn place_named(choices: &[Choice], word: &[u8]) -> Option<usize>
    ensures { result ≡ position (is_named word.now) choices.now }
{
    choices.iter().position(|choice| word == choice.name())
}

/// The place of the option that a word names together with a value.
pub fn place_joined(choices: &[Choice], word: &[u8]) -> Option<usize>
    ensures { result ≡ position (λ c. starts_with nat_eq word.now (joined c)) choices.now }
{
    choices
        .iter()
        .position(|choice| word.starts_with(choice.joined_name()))
}
