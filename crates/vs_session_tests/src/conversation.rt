//! Two ends that know of each other, as those of a client that waits for its replies: the source gives its next bytes only where the sink
//! holds the replies to all whole messages given so far, and nothing more; else it fails. It fails as well where more than 16,384 bytes
//! are asked for at once. After its first failure it only fails, and the failure is remembered: a server that passes over it is found out.
ghost use Rattle.std.specs.Prelude.{◌≤◌, None, length, IfSome};

use std::alloc::Global;
use std::cell::RefCell;
use std::rc::Rc;
use vs_connection::SessionEnd;
use vs_outside::{List, NoMemory, Put, Sink, Source, Text, Took};

/// What serves a connection between two ends.
pub trait Serve {
    /// What it needs of its caller.
    ghost ready: { Self → Type 0 };

    fn serve<S: Source, K: Sink>(
        &mut self,
        alloc: Global,
        source: &mut S,
        sink: &mut K,
    ) -> SessionEnd
        requires { ready self.old };
}

/// One message and its reply; none for a message that isn't answered.
pub type Exchange = (&'static [u8], &'static [u8]);

/// Exchanges, and how a connection with them ends.
pub type Conversation = (&'static [Exchange], SessionEnd);

const ARRAYS: &[Exchange] = &[
    (b"*1\r\n$4\r\nPING\r\n", b"+PONG\r\n"),
    (b"*0\r\n", b""),
    (
        b"*8\r\n$4\r\nVADD\r\n$1\r\ns\r\n$6\r\nVALUES\r\n$1\r\n2\r\n$1\r\n1\r\n$1\r\n1\r\n$1\r\na\r\n$3\r\nBIN\r\n",
        b":1\r\n",
    ),
    (b"*2\r\n$5\r\nVCARD\r\n$1\r\ns\r\n", b":1\r\n"),
    (
        b"*3\r\n$4\r\nVEMB\r\n$1\r\ns\r\n$1\r\na\r\n",
        b"*2\r\n$1\r\n1\r\n$1\r\n1\r\n",
    ),
];

const ARRAYS_AND_QUIT: &[Exchange] = &[
    (b"*1\r\n$4\r\nPING\r\n", b"+PONG\r\n"),
    (
        b"*2\r\n$4\r\nFROB\r\n$1\r\nx\r\n",
        b"-ERR unknown command\r\n",
    ),
    (b"*1\r\n$4\r\nQUIT\r\n", b"+OK\r\n"),
    (b"*1\r\n$4\r\nPING\r\n", b""),
];

const LINES: &[Exchange] = &[
    (b"PING\r\n", b"+PONG\r\n"),
    (b"\r\n", b""),
    (b"VADD s VALUES 2 1 1 a\n", b":1\r\n"),
    (b"VISMEMBER s a\r\n", b":1\r\n"),
];

const LINES_AND_QUIT: &[Exchange] = &[
    (b"VCARD  s\n", b":0\r\n"),
    (b"QUIT\r\n", b"+OK\r\n"),
    (b"PING\r\n", b""),
    (b"*x", b""),
];

/// Arrays and lines, to the end of input and to QUIT, of a server whose store is empty before.
pub const CONVERSATIONS: [Conversation; 4] = [
    (ARRAYS, SessionEnd::Ended),
    (ARRAYS_AND_QUIT, SessionEnd::Quit),
    (LINES, SessionEnd::Ended),
    (LINES_AND_QUIT, SessionEnd::Quit),
];

/// How messages are cut into the pieces that reads give.
#[derive(Clone, Copy)]
pub enum Pieces {
    /// Each message, or so many of them, in one piece.
    Messages(usize),
    Bytes,
}

// Bytes that one read gives, and the replies that are due after it.
#[derive(Drop)]
struct Turn {
    piece: Text,
    replies: Text,
}

// What both ends share: which turns were given, whether a read has failed, what is due, and what was written.
#[derive(Drop)]
struct State {
    turns: List<Turn>,
    given: usize,
    has_failed: bool,
    due: Text,
    written: Text,
}

impl State {
    // The number of bytes of the next turn, which are in the buffer then; 0 at the end, and None where the read has to fail.
    fn give(&mut self, into: &mut [u8]) -> Option<usize>
        ensures { IfSome result (λ n. n ≤ length into.new) }
    {
        if self.has_failed
            || into.len() > 16_384
            || self.written.as_slice() != self.due.as_slice()
        {
            return None;
        }
        let Some(turn) = self.turns.get(self.given) else {
            return Some(0);
        };
        let piece = turn.piece.as_slice();
        if piece.len() > into.len() {
            return None;
        }
        into[..piece.len()].copy_from_slice(piece);
        if self.due.extend_from_slice(turn.replies.as_slice()).is_err() {
            return None;
        }
        self.given = self.given.saturating_add(1);
        Some(piece.len())
    }

    // The same, with a failure remembered.
    fn take_turn(&mut self, into: &mut [u8]) -> Option<usize>
        ensures { IfSome result (λ n. n ≤ length into.new) }
    {
        let given = self.give(into);
        self.has_failed = given.is_none();
        given
    }
}

#[derive(Drop)]
struct Asking {
    shared: Rc<RefCell<State>>,
    faults: u64,
}

impl Source for Asking {
    ghost left = { λ _. None };

    ghost faults = { λ s. s.faults };

    fn read(&mut self, into: &mut [u8]) -> Took {
        let given = match self.shared.try_borrow_mut() {
            Ok(mut state) => state.take_turn(into),
            Err(_) => None,
        };
        match given {
            Some(0) => Took::End,
            Some(n) => Took::Bytes(n),
            None if self.faults == u64::MAX => Took::End,
            None => {
                self.faults += 1;
                Took::Failed
            }
        }
    }
}

#[derive(Drop)]
struct Listening {
    shared: Rc<RefCell<State>>,
    faults: u64,
}

impl Sink for Listening {
    ghost written = { λ _. None };

    ghost faults = { λ s. s.faults };

    fn write(&mut self, piece: &[u8]) -> Put {
        let is_kept = match self.shared.try_borrow_mut() {
            Ok(mut state) => state.written.extend_from_slice(piece).is_ok(),
            Err(_) => false,
        };
        if is_kept || self.faults == u64::MAX {
            return Put::Bytes(piece.len());
        }
        self.faults += 1;
        Put::Failed
    }
}

// The exchanges, so many to a turn.
fn by_messages(alloc: Global, exchanges: &[Exchange], many: usize) -> Result<List<Turn>, NoMemory> {
    let mut turns = List::new(alloc);
    for together in exchanges.chunks(many.max(1)) {
        let mut piece = Text::new(alloc);
        let mut replies = Text::new(alloc);
        for (message, reply) in together {
            piece.extend_from_slice(message)?;
            replies.extend_from_slice(reply)?;
        }
        turns.push(Turn { piece, replies })?;
    }
    Ok(turns)
}

// A byte to a turn; the reply is due after a message's last one.
fn by_bytes(alloc: Global, exchanges: &[Exchange]) -> Result<List<Turn>, NoMemory> {
    let mut turns = List::new(alloc);
    for (message, reply) in exchanges {
        for (i, byte) in message.iter().enumerate() {
            let mut piece = Text::new(alloc);
            piece.push(*byte)?;
            let mut replies = Text::new(alloc);
            if i + 1 == message.len() {
                replies.extend_from_slice(reply)?;
            }
            turns.push(Turn { piece, replies })?;
        }
    }
    Ok(turns)
}

/// Whether a connection with these messages ends so, with each reply written before more is read, and no read failed.
pub fn converses<C: Serve>(
    alloc: Global,
    server: &mut C,
    conversation: Conversation,
    pieces: Pieces,
) -> Result<bool, NoMemory>
    requires { C.ready server.old }
{
    let (exchanges, end) = conversation;
    let turns = match pieces {
        Pieces::Messages(many) => by_messages(alloc, exchanges, many)?,
        Pieces::Bytes => by_bytes(alloc, exchanges)?,
    };
    let shared = Rc::new(
        alloc,
        RefCell::new(State {
            turns,
            given: 0,
            has_failed: false,
            due: Text::new(alloc),
            written: Text::new(alloc),
        }),
    )?;
    let mut source = Asking {
        shared: shared.clone()?,
        faults: 0,
    };
    let mut sink = Listening {
        shared: shared.clone()?,
        faults: 0,
    };
    if server.serve(alloc, &mut source, &mut sink) != end {
        return Ok(false);
    }
    let mut replies = Text::new(alloc);
    for (_, reply) in exchanges {
        replies.extend_from_slice(reply)?;
    }
    match shared.try_borrow() {
        Ok(state) => { Ok(!state.has_failed && state.written.as_slice() == replies.as_slice()) }
        Err(_) => Ok(false),
    }
}
