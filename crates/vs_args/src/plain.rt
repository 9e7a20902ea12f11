//! Reads plain words: a command, and options of it with their values.
ghost use Rattle.std.specs.Prelude.{◌≡◌, IfSome, option_map};
ghost use Rattle.vs_defs.specs.ProgramWords.{choice_named, choice_within, settings_of};
ghost use Rattle.vs_args.specs.Readings.{job_of, IsWithin};
ghost use Rattle.vs_args.specs.Settings.{Gives};
ghost use Rattle.vs_args.specs.Words.{job_named, seen, IsTaken, value_behind};

use crate::Job;
use crate::command::{Choice, Choices, Command, command_named, place_joined, place_named};
use crate::settings::Settings;
use vs_outside::Text;

// Takes out the option that a word names.
fn take_named(left: &mut Choices, word: &[u8]) -> Option<Choice>
    ensures { IsTaken (choice_named word.now (seen left.old.items)) left.old.items left.new.items result }
{
    let place = place_named(left.as_slice(), word)?;
    Some(left.remove(place))
}

// Takes out the option that a word names together with a value, and answers it with the value's text.
fn take_joined<'a>(left: &mut Choices, word: &'a [u8]) -> Option<(Choice, &'a [u8])>
    ensures taken { IsTaken (choice_within word.now (seen left.old.items)) left.old.items left.new.items (option_map (λ p. p.0) result) }
    ensures value { IfSome result (λ p. p.1.now ≡ value_behind p.0 word.now) }
{
    let place = place_joined(left.as_slice(), word)?;
    let choice = left.remove(place);
    let (_, value) = word.split_at(choice.joined_name().len());
    Some((choice, value))
}

// The values that words give to options that are left; `None` where they aren't plain.
fn read_settings(mut left: Choices, words: &[Text]) -> Option<Settings>
    ensures { Gives result (settings_of (seen left.items) words.now) }
{
    let [word, rest @ ..] = words else {
        return Some(Settings::usual());
    };
    let word = word.as_slice();
    if let Some((choice, text)) = take_joined(&mut left, word) {
        let value = choice.value(text)?;
        return Some(read_settings(left, rest)?.with(choice, value));
    }
    let [text, rest @ ..] = rest else {
        return None;
    };
    let choice = take_named(&mut left, word)?;
    let value = choice.value(text.as_slice())?;
    Some(read_settings(left, rest)?.with(choice, value))
}

/// The job that the words name.
pub fn plain_job(words: &[Text]) -> Option<Job>
    ensures job { option_map job_of result ≡ job_named words.now }
    ensures within { IfSome result IsWithin }
{
    let [word, rest @ ..] = words else {
        return None;
    };
    let command = command_named(word.as_slice())?;
    let Settings {
        seed,
        members,
        dim,
        port,
        workers,
        connections,
    } = read_settings(command.choices(), rest)?;
    Some(match command {
        Command::Script => Job::Script { seed },
        Command::Schedule => Job::Schedule,
        Command::Generate => Job::Generate { seed, members, dim },
        Command::Serve => Job::Serve {
            port,
            workers,
            seed,
            connections,
        },
    })
}
