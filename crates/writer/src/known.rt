// What the types of its numbers say of an envelope and a replica that are lent. A caller knows it of slices and of numbers by themselves, and not of the fields
// behind a reference: so they are lent one by one, to functions that do nothing.
ghost use Rattle.std.specs.Prelude.{ℕ, ◌≤◌, get_or};
ghost use Rattle.message.specs.Envelopes.{Typed};
ghost use Rattle.replica.specs.Replicas.{Typed as TypedReplica};

use message::Envelope;
use replica::{Register, Replica, Value};

// Each number fits its type.
pub(crate) fn known(envelope: &Envelope, replica: &Replica)
    ensures { Typed envelope.now × TypedReplica replica.now }
{
    let Envelope {
        kind: _kind,
        server: _server,
        desk: _desk,
        round: _round,
        note: _note,
    } = *envelope;
    let Register {
        stamp: _stamp,
        desk: _tag_desk,
        value: _,
    } = replica.register;
    let Value {
        length: _length,
        bytes: _,
    } = replica.register.value;
    bytes_known(&replica.register.value.bytes);
    counts_known(&replica.ledger.counts);
    cells_known(&replica.ledger.cells);
}

fn bytes_known(bytes: &[u8])
    ensures { (k : ℕ) → get_or bytes.now k 0 ≤ 255 }
{}

fn counts_known(counts: &[u16])
    ensures { (i : ℕ) → get_or counts.now i 0 ≤ 65535 }
{}

fn cells_known(cells: &[u32])
    ensures { (k : ℕ) → get_or cells.now k 0 ≤ 4294967295 }
{}
