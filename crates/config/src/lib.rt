// The parameters of a cluster, fixed when a party is opened, and the answers that every crate above gives.
#![tactic(auto)]

mod answer;
mod cluster;
mod list;

pub use answer::Refusal;
pub use cluster::{Config, MOST_SERVERS, MOST_WEIGHT};
pub use list::Lawful;
