// A whole message, in one pass over its bytes.
ghost use Rattle.std.specs.Prelude.{◌≡◌, OnOk};
ghost use Rattle.message.specs.Scans.{scan_of};
ghost use Rattle.reader.specs.Sheets.{no_counts, no_cells};
ghost use Rattle.reader.specs.Tallies.{NoSums, SumsOf};
ghost use Rattle.reader.specs.Steps.{on_ok};
ghost use Rattle.reader.specs.Wholes.{found_answer, shown_found, counts_taken, cells_taken};

use super::head::read_head;
use super::keep::Keep;
use super::register::{RegisterAt, read_register};
use super::sheet::read_sheet;
use super::step::{MOST_FOUR, bit, read_number};
use super::tally::Tally;
use config::{Config, Refusal};
use message::Envelope;

// What a message says beside its sheet.
#[derive(Clone, Copy)]
pub(crate) struct Found<'a> {
    pub envelope: Envelope,
    pub register: RegisterAt<'a>,
}

// 1 or 15 for the cluster, then the first fault of the message, or what it says; the counts and cells of its sheet are kept as they are read, and what each
// server received and gave is added up.
pub(crate) fn read_message<'a, K: Keep>(
    config: &Config,
    msg: &'a [u8],
    keep: &mut K,
    sums: &mut Tally,
) -> Result<Found<'a>, Refusal>
    requires { NoSums sums.old × K.keeps keep.old no_counts no_cells }
    ensures ends { on_ok shown_found result ≡ found_answer config.now msg.now }
    ensures adds { OnOk result (SumsOf (scan_of config.now msg.now).ledger sums.new) }
    ensures keeps { K.keeps keep.new (counts_taken config.now msg.now) (cells_taken config.now msg.now) }
{
    let least = config.least()?;
    let head = read_head(config, msg)?;
    let register = read_register(config, msg, bit(head.map, 4), head.at)?;
    let at = read_sheet(config, msg, bit(head.map, 5), register.end, keep, sums)?;
    let note = read_number(msg, bit(head.map, 6), 4, 1, MOST_FOUR, at)?;
    if note.at != msg.len() {
        return Err(Refusal::Torn);
    }
    if !sums.above_floor(config, least) {
        return Err(Refusal::Light);
    }
    Ok(Found {
        envelope: Envelope {
            note: note.x as u32,
            ..head.envelope
        },
        register,
    })
}
