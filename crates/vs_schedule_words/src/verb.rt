//! The six verbs of events.
ghost use Rattle.std.specs.Prelude.{◌≡◌, option_map};
ghost use Rattle.vs_defs.specs.Bytes.{same_name};
ghost use Rattle.vs_thread_defs.specs.Schedule.{verb_text};
ghost use Rattle.vs_schedule_words.specs.Verbs.{verb_of, verb_named};

/// What an event of a schedule does.
#[derive(Clone, Copy, Debug, PartialEq, Eq)]
pub enum Verb {
    Do,
    Look,
    Finish,
    Draft,
    Prepare,
    Commit,
}

fn is(word: &[u8], name: &[u8]) -> bool
    ensures { result ≡ same_name word.now name.now }
{
    word == name
}

impl Verb {
    /// The verb of a word.
    pub fn named(word: &[u8]) -> Option<Verb>
        ensures { option_map verb_of result ≡ verb_named word.now }
    {
        Some(if is(word, b"do") {
            Verb::Do
        } else if is(word, b"look") {
            Verb::Look
        } else if is(word, b"finish") {
            Verb::Finish
        } else if is(word, b"draft") {
            Verb::Draft
        } else if is(word, b"prepare") {
            Verb::Prepare
        } else if is(word, b"commit") {
            Verb::Commit
        } else {
            return None;
        })
    }

    /// Its word.
    pub fn text(self) -> &'static [u8]
        ensures { result.now ≡ verb_text (verb_of self) }
    {
        match self {
            Verb::Do => b"do",
            Verb::Look => b"look",
            Verb::Finish => b"finish",
            Verb::Draft => b"draft",
            Verb::Prepare => b"prepare",
            Verb::Commit => b"commit",
        }
    }
}
