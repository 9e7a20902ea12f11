//! The values of the options. Each option has its default until words give it a value.
ghost use Rattle.std.specs.Prelude.{◌≡◌, ◌≤◌, [], ◌∷◌};
ghost use Rattle.vs_defs.specs.ProgramWords as defs;
ghost use Rattle.vs_args.specs.Settings.{IsSettings};
ghost use Rattle.vs_args.specs.Words.{choice_of};

use crate::command::Choice;

/// The values of all options, also of those that a command hasn't.
#[derive(Clone, Copy, Debug, PartialEq, Eq)]
pub struct Settings {
    pub seed: u64,
    pub members: u32,
    pub dim: u32,
    pub port: u16,
    pub workers: u32,
    pub connections: u32,
}

impl Settings {
    /// The defaults.
    pub fn usual() -> Settings
        ensures { IsSettings result [] }
    {
        Settings {
            seed: 0,
            members: 20_000,
            dim: 256,
            port: 6379,
            workers: 8,
            connections: u32::MAX,
        }
    }

    /// With this value of an option.
    pub fn with(self, choice: Choice, value: u64) -> Settings
        requires least { (choice_of choice).least ≤ value }
        requires most { value ≤ (choice_of choice).most }
        ensures { (list : defs.Settings) → IsSettings self list → IsSettings result (((choice_of choice).name, value) ∷ list) }
    {
        match choice {
            Choice::Seed => Settings {
                seed: value,
                ..self
            },
            Choice::Members => Settings {
                members: value as u32,
                ..self
            },
            Choice::Dim => Settings {
                dim: value as u32,
                ..self
            },
            Choice::Port => Settings {
                port: value as u16,
                ..self
            },
            Choice::Workers => Settings {
                workers: value as u32,
                ..self
            },
            Choice::Connections => Settings {
                connections: value as u32,
                ..self
            },
        }
    }
}
