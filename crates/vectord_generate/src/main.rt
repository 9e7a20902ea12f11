//! Vectord: a server for vector sets. `vectord serve` serves a port of loopback, `vectord script` standard input on standard output. The
//! programs `vectord_..` are this very file, run with other words on other input.
#![tactic(auto)]

use std::{env, io};
use vs_outside::{IoSink, IoSource};
use vs_program::{Status, run_program};

fn main(rt: HostRuntime) -> Status {
    let mut source = IoSource::new(rt.reader());
    let mut sink = IoSink::new(io::writer(&rt));
    run_program(&rt, rt.alloc(), env::args(&rt), &mut source, &mut sink)
}
