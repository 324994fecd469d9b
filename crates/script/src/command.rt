// Commands: what a line of a script asks for.
use super::house::House;

// What a desk is asked to do. A begin has its note; an ask has the server, and the place and the length of the buffer.
#[derive(Clone, Copy)]
pub enum DeskCall {
    BeginRead(u32),
    BeginWrite(u32),
    Ask(u64, u64, u64),
    Hear,
    Result,
    Margin,
    Drop,
    Record,
}

// What a server is asked to do. A share and a serve have the place and the length of the buffer, a transfer the taker and the amount.
#[derive(Clone, Copy)]
pub enum ServerCall {
    Share(u64, u64),
    Serve(u64, u64),
    Transfer(u64, u64),
    Crash,
    Record,
}

// What is asked of a message, a block or a map, with no record.
#[derive(Clone, Copy)]
pub enum Query {
    Check,
    Weight(u64),
    Quorum(u64),
    Seats,
    Named(u16),
    Value,
}

// What a line asks for. A call has the number of its desk or server; a message has the house of its cluster.
#[derive(Clone, Copy)]
pub enum Command {
    House(House),
    Desk(u64, DeskCall),
    Server(u64, ServerCall),
    Query(Query),
    Message(House),
}

impl Command {
    // The length of the buffer that a command lends; 0 where it lends none.
    pub(crate) fn lent(&self) -> u64 {
        match self {
            Command::Desk(_, DeskCall::Ask(_, _, len)) => *len,
            Command::Server(_, ServerCall::Share(_, len) | ServerCall::Serve(_, len)) => *len,
            _ => 0,
        }
    }
}
