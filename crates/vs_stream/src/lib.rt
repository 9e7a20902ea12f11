//! The machine that reads a stream of requests byte by byte, and the laws of the stream.
//!
//! The definitions of the stream read a whole text; a decoder meets bytes one by one. `specs/Machine.antt` has the states between
//! two bytes, and `specs/Reader.antt` says what a reader in such a state stands for. The proofs show that the machine reads what
//! the definitions say; `proofs/Callers.antt` has what a caller of a decoder makes of its clauses.
#![tactic(auto)]

ghost use Rattle.vs_stream.specs.Laws.{EachHasOutcome, OneOutcome, FaultCeases, CeasesFault, NoFaultBegins, FaultStays};

/// The laws of the stream: each text splits in exactly one way into messages and an ending. A fault's place is the first byte at
/// which the text ceases to begin a stream: what stands before it can be continued to whole messages, and with the byte there it
/// can't; a text without a fault can be continued to whole messages; and more bytes leave a fault where it is.
///
/// The call does nothing: its clauses are what it is for.
pub fn stream_laws()
    ensures each_has_outcome { EachHasOutcome }
    ensures one_outcome { OneOutcome }
    ensures fault_ceases { FaultCeases }
    ensures ceases_fault { CeasesFault }
    ensures no_fault_begins { NoFaultBegins }
    ensures fault_stays { FaultStays }
{}
