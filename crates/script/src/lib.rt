// The lines of a script (docs/SCRIPTS.md): what a line asks for, as a command, and the bytes that it brings.
#![tactic(auto)]

mod command;
mod forms;
mod house;
mod line;
mod text;

pub use command::{Command, DeskCall, Query, ServerCall};
pub use house::{House, List};
pub use line::{Fault, Understood, understand};
pub use text::{MOST_BYTES, SPACE};
