// What servers and desks both hold: values, registers, and a ledger with a register (paper 01: pair) and how two of them join. Nothing here knows of
// messages.
#![tactic(auto)]

mod register;
mod replica;
mod value;

pub use register::{Register, Tag};
pub use replica::Replica;
pub use value::{MOST_VALUE, Value};
