//! The server over a socket on loopback. One line on standard error says where it listens, or why it doesn't; a line that can't be written
//! changes nothing.
ghost use Rattle.std.specs.Prelude.{◌≡◌, ◌<◌, ◌≤◌, IfOk, length};
ghost use Rattle.vs_program.specs.Program.{ServerGives};

use crate::server::run_server;
use crate::status::Status;
use std::alloc::Global;
use std::io::Eprint;
use std::net::{Ipv4Addr, Net, TcpListener, TcpStream};
use std::sync::{Arc, Wait};
use std::thread::Threads;
use vs_args::{Job, WordsError, read_words};
use vs_outside::{IoListener, NoGate, NoMemory, Text};

const USAGE: &str = "vectord: bad words
usage: vectord serve [--port 1..65535] [--workers 1..64] [--seed 0..18446744073709551615] [--connections 1..4294967295]";

// A listener for each worker, all over one socket.
fn listeners_over(
    alloc: Global,
    socket: TcpListener,
    workers: u32,
) -> Result<Vec<IoListener>, NoMemory>
    ensures { IfOk result (λ listeners. length listeners.items ≡ workers) }
{
    let socket = Arc::new(alloc, socket)?;
    let mut listeners = Vec::new(alloc);
    for _ in 0..workers {
        listeners.push(IoListener::new(alloc, Arc::try_clone(&socket)?))?;
    }
    Ok(listeners)
}

// Serves a port of loopback by so many workers.
fn serve_bound<R: Net<Stream = TcpStream, Listener = TcpListener> + Threads + Wait + Eprint + Sync>(
    rt: &R,
    alloc: Global,
    words: &[Text],
    port: u16,
    workers: u32,
) -> Status
    requires { (1 ≤ workers) × (workers ≤ 64) }
    ensures { ServerGives result }
{
    let socket = match TcpListener::bind(rt, (Ipv4Addr::LOCALHOST, port)) {
        Ok(socket) => socket,
        Err(error) => {
            let _ = eprintln!(rt; "vectord: can't listen on 127.0.0.1:{port}: {error}");
            return Status::BindFault;
        }
    };
    let Ok(mut listeners) = listeners_over(alloc, socket, workers) else {
        return Status::NoMemory;
    };
    let _ = eprintln!(rt; "vectord: listening on 127.0.0.1:{port}, {workers} workers");
    run_server(rt, alloc, words, &mut listeners, &NoGate)
}

// Says why the server ended, unless it served all that it was to. A port that can't be had was told before.
fn tell<R: Eprint>(rt: &R, status: Status) {
    let told = match status {
        Status::BadWords => eprintln!(rt; "{USAGE}"),
        Status::NoMemory => eprintln!(rt; "vectord: not enough memory"),
        Status::AcceptFault => eprintln!(rt; "vectord: a connection couldn't be accepted"),
        _ => Ok(()),
    };
    let _ = told;
}

/// Serves as the words of `serve` say. Bad words, and want of memory for the words, are told before anything is opened.
pub(crate) fn serve_port<
    R: Net<Stream = TcpStream, Listener = TcpListener> + Threads + Wait + Eprint + Sync,
>(rt: &R, alloc: Global, words: &[Text]) -> Status
    ensures { ServerGives result }
{
    let status = match read_words(alloc, words) {
        Ok(Job::Serve { port, workers, .. }) => serve_bound(rt, alloc, words, port, workers),
        Ok(_) | Err(WordsError::BadWords) => Status::BadWords,
        Err(WordsError::NoMemory) => Status::NoMemory,
    };
    tell(rt, status);
    status
}
