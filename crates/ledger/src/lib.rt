// The transfers that a party knows (paper 01: sheet), and what follows from them: weights, quorums, and what two parties know together.
#![tactic(auto)]

mod change;
mod check;
mod join;
mod ledger;
mod map;
mod sums;
mod tally;
mod weight;

pub use check::total_fits;
pub use join::Compared;
pub use ledger::{Changed, Ledger};
pub use map::{count_named, within};
