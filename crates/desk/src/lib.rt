// A desk, the client of the store (paper 01, "Desk"). Its record is lent, or goes in by value and comes back by value; every call tests it first.
#![tactic(auto)]

mod ask;
mod begin;
mod hear;
mod heed;
mod lent;
mod margin;
mod operation;
mod record;
mod result;

pub use lent::hear_lent;
pub use operation::Operation;
pub use record::{Desk, DeskAnswer, Heard, Hearing};
pub use result::Told;
