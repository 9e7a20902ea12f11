//! A listener over a socket, and the ends of its links: the trusted edge. They tell nothing of content, and count each error. A call that
//! the system interrupts is made again and is no error.
ghost use Rattle.std.specs.Prelude.{◌≡◌, None};

use crate::{Accepted, IoSink, IoSource, Listener, NoMemory, Put, Sink, Source, Took};
use std::alloc::Global;
use std::io::{Error, ErrorKind, Read, Result as IoResult, Write};
use std::net::{TcpListener, TcpStream};
use std::sync::Arc;

// A connection, which its two ends share. It is closed where both are dropped.
#[derive(Drop)]
struct Connection {
    stream: Arc<TcpStream, Global>,
}

/// The end of a connection that bytes come from.
#[derive(Drop)]
pub struct SocketSource {
    bytes: IoSource<Connection>,
}

/// The end of a connection that bytes go to.
#[derive(Drop)]
pub struct SocketSink {
    bytes: IoSink<Connection>,
}

// The two ends of a connection.
fn ends(alloc: Global, stream: TcpStream) -> Result<(SocketSource, SocketSink), NoMemory> {
    let stream = Arc::new(alloc, stream)?;
    let source = IoSource::new(Connection {
        stream: Arc::try_clone(&stream)?,
    });
    let sink = IoSink::new(Connection { stream });
    Ok((SocketSource { bytes: source }, SocketSink { bytes: sink }))
}

impl Source for SocketSource {
    ghost left = { λ _. None };

    ghost faults = { λ s. s.bytes.faults };

    fn read(&mut self, into: &mut [u8]) -> Took {
        self.bytes.read(into)
    }
}

impl Sink for SocketSink {
    ghost written = { λ _. None };

    ghost faults = { λ s. s.bytes.faults };

    fn write(&mut self, piece: &[u8]) -> Put {
        self.bytes.write(piece)
    }
}

impl Read for Connection {
    fn read(&mut self, into: &mut [u8]) -> IoResult<usize> {
        let mut stream: &TcpStream = &self.stream;
        for _ in 0..u64::MAX {
            match stream.read(into) {
                Err(e) if e.kind() == ErrorKind::Interrupted => {}
                outcome => return outcome,
            }
        }
        Err(Error::from(ErrorKind::Interrupted))
    }
}

impl Write for Connection {
    fn write(&mut self, piece: &[u8]) -> IoResult<usize> {
        let mut stream: &TcpStream = &self.stream;
        for _ in 0..u64::MAX {
            match stream.write(piece) {
                Err(e) if e.kind() == ErrorKind::Interrupted => {}
                outcome => return outcome,
            }
        }
        Err(Error::from(ErrorKind::Interrupted))
    }

    fn flush(&mut self) -> IoResult<()> {
        Ok(())
    }
}

/// A listener over one socket, which several may share.
#[derive(Drop)]
pub struct IoListener {
    alloc: Global,
    socket: Arc<TcpListener, Global>,
    faults: u64,
}

impl IoListener {
    /// A listener with no fault so far.
    pub fn new(alloc: Global, socket: Arc<TcpListener, Global>) -> IoListener
        ensures { result.faults ≡ 0 }
    {
        IoListener {
            alloc,
            socket,
            faults: 0,
        }
    }

    // The next connection whose client is still there. One that the system interrupts, or whose client is gone, is no fault.
    fn next(&self) -> IoResult<TcpStream> {
        for _ in 0..u64::MAX {
            match self.socket.accept() {
                Ok((stream, _)) => return Ok(stream),
                Err(e) if is_passing(e.kind()) => {}
                Err(e) => return Err(e),
            }
        }
        Err(Error::from(ErrorKind::Interrupted))
    }
}

// Whether an accept that failed so is tried again.
fn is_passing(kind: ErrorKind) -> bool {
    matches!(
        kind,
        ErrorKind::Interrupted | ErrorKind::ConnectionAborted | ErrorKind::ConnectionReset
    )
}

impl Listener for IoListener {
    type Input = SocketSource;

    type Output = SocketSink;

    ghost given = { λ _. None };

    ghost closed = { λ _. None };

    ghost faults = { λ l. l.faults };

    fn accept(&mut self) -> Accepted<SocketSource, SocketSink> {
        if let Ok(stream) = self.next() {
            // A reply is to be sent at once. Where the system refuses that, it is sent later.
            let _ = stream.set_nodelay(true);
            if let Ok((source, sink)) = ends(self.alloc, stream) {
                return Accepted::Link(source, sink);
            }
        }
        self.faults = self.faults.saturating_add(1);
        Accepted::Failed
    }

    fn close(&mut self, source: SocketSource, sink: SocketSink) {
        drop(source);
        drop(sink);
    }

    ghost ordered = { λ _. record { no_more = tt } };
}
