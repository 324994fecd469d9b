// Messages: the envelope, what a reader is to find in bytes and a writer to make of an envelope and a replica (specs/), and that each undoes the other
// (proofs/). The crates `reader` and `writer` have the functions.
#![tactic(auto)]

mod answer;
mod envelope;

pub use answer::{Fields, Message, Taken};
pub use envelope::{Envelope, REPLY, REQUEST, SHARE};
