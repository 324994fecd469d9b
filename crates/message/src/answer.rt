// What the calls that read messages answer of a message that passes.
use super::envelope::Envelope;
use ledger::Ledger;
use replica::{Register, Replica, Tag};

// What bytes say: the envelope and the replica.
#[derive(Clone, Copy)]
pub struct Message {
    pub envelope: Envelope,
    pub replica: Replica,
}

// What bytes say but for the ledger, which goes into one that is lent.
#[derive(Clone, Copy)]
pub struct Taken {
    pub envelope: Envelope,
    pub register: Register,
}

// What bytes say but for the register's value, which is a part of the message.
#[derive(Clone, Copy)]
pub struct Fields {
    pub envelope: Envelope,
    pub tag: Tag,
    pub ledger: Ledger,
}
