// Reading messages (paper 01, "Message bytes"): the message check, what a message says, its fields without the value, the value as a part of the caller's
// own message, and weights and quorums on a message's sheet.
#![tactic(auto)]

mod head;
mod keep;
mod read;
mod register;
mod sheet;
mod step;
mod tally;
mod whole;

pub use read::{check, fields, quorum, receive, receive_into, value, weight};
