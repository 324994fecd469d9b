// A server of the store (paper 01, "Server"). Its record is lent, or goes in by value and comes back by value; every call tests it first.
#![tactic(auto)]

mod record;
mod serve;
mod share;
mod transfer;

pub use record::{Server, ServerAnswer};
pub use serve::Served;
