// Writing messages (paper 01, "Message bytes").
#![tactic(auto)]

mod call;
mod fault;
mod field;
mod known;
mod outgoing;
mod outline;
mod pen;
mod whole;

pub use call::{send, write};
