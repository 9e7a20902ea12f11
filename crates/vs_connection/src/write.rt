//! A piece, written whole.
ghost use Rattle.std.specs.Prelude.{◌≡◌, ◌<◌, true, false};
ghost use Rattle.vs_connection.specs.Written.{WrittenOf};

use vs_outside::{Put, Sink};

/// Writes a piece whole, unless a write fails.
pub fn write_all<K: Sink>(sink: &mut K, piece: &[u8]) -> bool
    ensures written { WrittenOf (K.written sink.old) piece.now result (K.written sink.new) }
    ensures failed { result ≡ false → K.faults sink.old < K.faults sink.new }
    ensures unfailed { result ≡ true → K.faults sink.new ≡ K.faults sink.old }
{
    let mut rest = piece;
    while !rest.is_empty() {
        match sink.write(rest) {
            Put::Bytes(n) => {
                let (_, left) = rest.split_at(n);
                rest = left;
            }
            Put::Failed => return false,
        }
    }
    true
}
