//! The job of the server, over any listeners.
ghost use Rattle.std.specs.Prelude.{◌≡◌, ◌<◌, length};
ghost use Rattle.vs_defs.specs.Store.{usual_limits};
ghost use Rattle.vs_args.specs.Words.{job_named};
ghost use Rattle.vs_server.specs.Chains.{Serves};
ghost use Rattle.vs_program.specs.Server.{DoesServe};

use crate::status::{Status, status_served};
use std::alloc::Global;
use std::sync::Wait;
use std::thread::Threads;
use vs_args::{Job, WordsError, read_words};
use vs_outside::{Gate, Listener, Text};
use vs_server::serve_links;

/// Serves the listeners as the words of `serve` say, each by a worker of its own; how many they are, and over which port, is the caller's.
/// Words that name no job of a server are bad words, and nothing is accepted.
pub fn run_server<L: Listener + Send, R: Threads + Wait + Sync, G: Gate + Sync>(
    rt: &R,
    alloc: Global,
    words: &[Text],
    listeners: &mut Vec<L>,
    gate: &G,
) -> Status
    requires { (0 < length listeners.old.items) × (length listeners.old.items < 4294967296) }
    ensures { DoesServe (λ k s a b t. Serves (λ i. L.Input.left i) (λ i. L.Input.faults i) (λ o. L.Output.written o) (λ o. L.Output.faults o) usual_limits k s a b t) (λ v. L.given v) (λ v. L.closed v) (λ v. L.faults v) listeners.old.items listeners.new.items (job_named words.now) result }
{
    match read_words(alloc, words) {
        Ok(
            Job::Serve {
                seed,
                connections,
                ..
            },
        ) => { status_served(serve_links(rt, alloc, seed, connections, listeners, gate)) }
        Ok(_) | Err(WordsError::BadWords) => Status::BadWords,
        Err(WordsError::NoMemory) => Status::NoMemory,
    }
}
