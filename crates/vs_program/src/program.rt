//! All that `main` does, but for the streams.
ghost use Rattle.std.specs.Prelude.{◌≡◌, ◌≢◌, ◌<◌, ◌↔◌, ◌⊎◌, false, IfOk};
ghost use Rattle.std.specs.Process.{exit_status};
ghost use Rattle.vs_outside.specs.Known.{Adds};
ghost use Rattle.vs_program.specs.Jobs.{bad_words};
ghost use Rattle.vs_program.specs.Program.{words_after_name, words_given as given, names_server as is_server, Runs};
ghost use Rattle.vs_program.specs.Status.{exit_code};

use crate::port::serve_port;
use crate::run::run_alone;
use crate::status::Status;
use std::alloc::{AllocError, Global};
use std::env::Args;
use std::io;
use std::io::Eprint;
use std::net::{Net, TcpListener, TcpStream};
use std::process::{ExitCode, Termination};
use std::sync::Wait;
use std::thread::Threads;
use vs_outside::{List, NoMemory, Sink, Source, Text};

// The program's words: its arguments after its own name.
fn words_of(alloc: Global, mut args: Args) -> Result<List<Text>, NoMemory>
    ensures { IfOk result (λ words. words ≡ words_after_name args) }
{
    let mut words = List::new(alloc);
    let _name = args.next();
    while let Some(word) = args.next() {
        words.push(Text::from_vec(word.into_bytes()))?;
    }
    Ok(words)
}

// The words that the arguments give. Arguments that can't be read, as those that aren't UTF-8, give none.
fn words_given(alloc: Global, args: io::Result<Args>) -> Result<List<Text>, NoMemory>
    ensures { IfOk result (λ words. words ≡ given args) }
{
    match args {
        Ok(args) => words_of(alloc, args),
        Err(error) if error.kind() == io::ErrorKind::OutOfMemory => Err(AllocError),
        Err(_) => Ok(List::new(alloc)),
    }
}

// Whether the words are for a server.
fn names_server(words: &[Text]) -> bool
    ensures { result ≡ is_server words.now }
{
    match words {
        [word, ..] => word.as_slice() == b"serve".as_slice(),
        [] => false,
    }
}

/// Does the job that the program's arguments name, of which the first is its own name. With `serve` it serves a port of loopback and tells
/// on standard error where, or why not; else it reads the source and writes the sink.
pub fn run_program<
    S: Source,
    K: Sink,
    R: Net<Stream = TcpStream, Listener = TcpListener> + Threads + Wait + Eprint + Sync,
>(rt: &R, alloc: Global, args: io::Result<Args>, source: &mut S, sink: &mut K) -> Status
    ensures job { Runs args result (S.left source.old) (S.left source.new) (K.written sink.old) (K.written sink.new) }
    ensures bad_words { is_server (given args) ≡ false → result ≡ Status.BadWords → (K.faults sink.old < K.faults sink.new) ⊎ Adds (K.written sink.old) bad_words (K.written sink.new) }
    ensures read_fault { (result ≡ Status.ReadFault) ↔ (S.faults source.old < S.faults source.new) }
    ensures write_fault { result ≢ Status.BadWords → ((result ≡ Status.WriteFault) ↔ (K.faults sink.old < K.faults sink.new)) }
{
    let Ok(words) = words_given(alloc, args) else {
        return Status::NoMemory;
    };
    if names_server(words.as_slice()) {
        serve_port(rt, alloc, words.as_slice())
    } else {
        run_alone(alloc, words.as_slice(), source, sink)
    }
}

impl Termination for Status {
    fn report<R: Eprint>(self, _rt: &R) -> ExitCode
        ensures { exit_status result ≡ exit_code self }
    {
        ExitCode::from(self.code())
    }
}
