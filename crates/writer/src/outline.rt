// What of an envelope and a replica stands in their message, and whether there is room for it.
ghost use Rattle.std.specs.Prelude.{◌≡◌, ◌+◌, ◌*◌, ◌≤◌, ltb, length, get_or};
ghost use Rattle.quorums.specs.Sum.{sum};
ghost use Rattle.ledger.specs.Ledgers.{count_of, cell_of};
ghost use Rattle.format.specs.Bytes.{stands, marks};
ghost use Rattle.format.specs.Table.{register_mark, row as row_of, rows as rows_of, field_map};
ghost use Rattle.message.specs.Envelopes.{message_of};
ghost use Rattle.writer.specs.Outlines.{Counted, Small, size_of, marks_of};

use super::outgoing::Outgoing;
use config::Config;
use ledger::Ledger;
use message::Envelope;
use replica::Register;

// No message that the reader takes is longer.
const LONGEST: usize = 1111;

// Which fields stand: 1 for each that does, numbers and no flags, since they are what the map and the size are added up from.
#[derive(Clone, Copy)]
struct Marks {
    pub desk: u64,
    pub round: u64,
    pub register: u64,
    pub sheet: u64,
    pub note: u64,
}

impl Marks {
    // By an envelope and a register, and the row map of the rows.
    fn of(envelope: &Envelope, register: &Register, rows: u64) -> Marks
        ensures marks { result ≡ marks_of envelope.now register.now rows }
        ensures small { Small result }
    {
        let tag = u64::from(register.stamp) + u64::from(register.desk);
        Marks {
            desk: mark(u64::from(envelope.desk)),
            round: mark(u64::from(envelope.round)),
            register: mark(tag + u64::from(register.value.length)),
            sheet: mark(rows),
            note: mark(u64::from(envelope.note)),
        }
    }
}

// 1 for a number that isn't 0.
fn mark(x: u64) -> u64
    ensures { (result ≡ stands x) × (result ≤ 1) }
{
    u64::from(x != 0)
}

// The row map of a ledger in which every row whose count is 0 is empty: the counts that stand.
pub(crate) fn row_map(counts: &[u16; 16]) -> u64
    ensures { result ≡ marks 16 (λ i. get_or counts.now i 0) }
{
    let mut map: u16 = 0;
    for (i, &count) in counts.iter().enumerate() {
        map += u16::from(count != 0) << i;
    }
    u64::from(map)
}

// A message's map, from its envelope and register, and the row map of its rows.
pub(crate) fn field_map(envelope: &Envelope, register: &Register, rows: u64) -> u64
    ensures { result ≡ field_map envelope.now.desk envelope.now.round (register_mark register.now.stamp register.now.desk register.now.value.length) rows envelope.now.note }
{
    let marks = Marks::of(envelope, register, rows);
    3 + 4 * marks.desk + 8 * marks.round + 16 * marks.register + 32 * marks.sheet + 64 * marks.note
}

impl Outgoing<'_> {
    // Whether there is less room than the message needs. Its size is found only where the room is less than the longest message needs.
    pub(crate) fn narrow(&self, room: usize) -> bool
        requires { Counted self.now.replica.now.ledger × (length (message_of self.now.config.now self.now.envelope.now self.now.replica.now) ≤ 1111) }
        ensures { result ≡ ltb room (length (message_of self.now.config.now self.now.envelope.now self.now.replica.now)) }
    {
        if LONGEST <= room {
            return false;
        }
        let rows = row_map(&self.replica.ledger.counts);
        let bytes = rows_bytes(&self.replica.ledger);
        (room as u64)
            < measure(
                self.config,
                self.envelope,
                &self.replica.register,
                rows,
                bytes,
            )
    }
}

// How many bytes the rows of a ledger take in which every row whose count is 0 is empty.
fn rows_bytes(ledger: &Ledger) -> u64
    requires { Counted ledger.now }
    ensures { (result ≡ length (rows_of (count_of ledger.now) (cell_of ledger.now))) × (result ≤ 1088) }
{
    let mut bytes: u64 = 0;
    let (rows, _) = ledger.cells.as_chunks::<16>();
    for (&count, row) in ledger.counts.iter().zip(rows) {
        bytes += row_bytes(count, row);
    }
    bytes
}

// The same of one row.
fn row_bytes(count: u16, row: &[u32]) -> u64
    requires { (length row.now ≡ 16) × (count ≡ 0 → sum 16 (λ j. get_or row.now j 0) ≡ 0) }
    ensures { (result ≡ length (row_of count (λ j. get_or row.now j 0))) × (result ≤ 68) }
{
    if count == 0 {
        return 0;
    }
    let mut bytes: u32 = 4;
    for &cell in row {
        bytes += 4 * u32::from(cell != 0);
    }
    u64::from(bytes)
}

// The size of a message, from its envelope and register, and the row map and bytes of its rows.
#[tactic(auto, unfolding(config::specs::Cluster::stamp_bytes))]
fn measure(config: &Config, envelope: &Envelope, register: &Register, rows: u64, bytes: u64) -> u64
    requires { bytes ≤ 1088 }
    ensures { result ≡ size_of config.now envelope.now register.now rows bytes }
{
    let marks = Marks::of(envelope, register, rows);
    let length = register.value.length;
    4 + 2 * marks.desk
        + 4 * marks.round
        + (config.stamp_bytes() + 3) * marks.register
        + u64::from(length)
        + 2 * marks.sheet
        + bytes
        + 4 * marks.note
}
