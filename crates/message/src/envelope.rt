// A message is an envelope and the replica that it carries (paper 01, "Message bytes").

// The kinds of message.
pub const REQUEST: u8 = 1;

pub const REPLY: u8 = 2;

pub const SHARE: u8 = 3;

// The fields of a message beside the replica. Desk, round and note are 0 where absent, as in the byte table; `write` refuses sets of them that no kind has.
#[derive(Clone, Copy)]
pub struct Envelope {
    // A number and no enum: `write` refuses a kind that is none of the three by 4, a clause on just such numbers, and an enum would ask more of its callers.
    pub kind: u8,
    pub server: u8,
    pub desk: u16,
    pub round: u32,
    pub note: u32,
}
