//! The whole PDUs of a stream of bytes that comes in pieces, as a connection brings it: whatever the pieces are, the same
//! PDUs are given, each as soon as its last byte has come. A stream in which no PDU can begin any more says so from then on.
#![tactic(auto)]

mod fault;
mod front;
mod laws;
mod phase;
mod reassembler;
mod splitting;

pub use fault::StreamFault;
pub use laws::stream_splits_one_way;
pub use phase::Phase;
pub use reassembler::Reassembler;
