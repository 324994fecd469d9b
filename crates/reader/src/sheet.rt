// Bit 5: the sheet, a row map and the rows that it marks. What each server received and gave is added up on the way.
ghost use Rattle.std.specs.Prelude.{ℕ, ◌≡◌, true, ◌+◌, ◌-◌, ◌^◌, ◌≤◌, ◌<◌, length, get_or, OnOk, IfOk};
ghost use Rattle.quorums.specs.Tables.{table};
ghost use Rattle.config.specs.Cluster.{lawful_of};
ghost use Rattle.ledger.specs.Sums.{Sums};
ghost use Rattle.reader.specs.Tallies.{NoSums, SumsOf};
ghost use Rattle.message.specs.Scans.{cell_read, row_cells, row_of, rows_after, count_read, cell_of_row, ledger_read};
ghost use Rattle.reader.specs.Steps.{at_place, read_at, place_answer};
ghost use Rattle.reader.specs.Keeping.{put};
ghost use Rattle.reader.specs.Sheets.{cells_answer, row_answer, no_counts, no_cells, sheet_end, sheet_ledger, sheet_counts, sheet_cells};

use super::keep::Keep;
use super::step::{MOST_FOUR, MOST_TWO, Read, bit, read_number};
use super::tally::Tally;
use config::{Config, Refusal};
use ledger::total_fits;

// The largest map with bits below n only.
fn most_map(config: &Config) -> u64
    requires { lawful_of config.now ≡ true }
    ensures { (result ≡ 2 ^ config.now.n - 1) × (result ≤ 65535) }
{
    (1u64 << (config.n as u32)) - 1
}

// The cells of giver i that a cell map marks, each of them kept, and added to what its taker received: their total, and the place after them. Here as with
// the rows the loop ends with the last bit that stands, since a message has few: a `for` over all 16 would go on over bits that it doesn't have.
fn read_cells<K: Keep>(
    msg: &[u8],
    i: usize,
    map: Read,
    keep: &mut K,
    received: &mut [u64; 16],
) -> Result<Read, Refusal>
    requires { (i < 16) × (map.at ≤ length msg.now) × (map.x ≤ 65535) × Sums 18446744069414584320 received.old }
    ensures ends { (result ≡ cells_answer msg.now map.x (read_at map)) × IfOk result (λ r. r.at ≤ length msg.now) }
    ensures adds { received.new ≡ table 16 (λ j. get_or received.old j 0 + cell_read msg.now map.x (read_at map) j) }
    ensures keeps { (counts : ℕ → ℕ) (cells : ℕ → ℕ → ℕ) → K.keeps keep.old counts cells → ((j : ℕ) → cells i j ≡ 0) → K.keeps keep.new counts (put cells i (cell_read msg.now map.x (read_at map))) }
{
    let mut at = map.at;
    let mut total: u64 = 0;
    let mut rest = map.x;
    let mut j: usize = 0;
    while rest != 0 {
        let cell = read_number(msg, rest % 2, 4, 1, MOST_FOUR, at)?;
        keep.cell(i, j, cell.x as u32);
        received[j] += cell.x;
        total += cell.x;
        at = cell.at;
        rest /= 2;
        j += 1;
    }
    Ok(Read { x: total, at })
}

// The row of giver i: its total, and the place after it.
fn read_row<K: Keep>(
    config: &Config,
    msg: &[u8],
    i: usize,
    at: usize,
    keep: &mut K,
    received: &mut [u64; 16],
) -> Result<Read, Refusal>
    requires { (lawful_of config.now ≡ true) × (i < 16) × (at ≤ length msg.now) × Sums 18446744069414584320 received.old }
    ensures ends { (result ≡ row_answer config.now msg.now i (at_place at)) × IfOk result (λ r. r.at ≤ length msg.now) }
    ensures adds { received.new ≡ table 16 (λ j. get_or received.old j 0 + row_cells config.now msg.now i 1 (at_place at) j) }
    ensures keeps { (counts : ℕ → ℕ) (cells : ℕ → ℕ → ℕ) → K.keeps keep.old counts cells → (counts i ≡ 0) → ((j : ℕ) → cells i j ≡ 0) → K.keeps keep.new (put counts i (row_of config.now msg.now i 1 (at_place at)).count) (put cells i (row_cells config.now msg.now i 1 (at_place at))) }
{
    let count = read_number(msg, 1, 2, 1, MOST_TWO, at)?;
    keep.count(i, count.x as u16);
    let map = read_number(msg, 1, 2, 1, most_map(config), count.at)?;
    if bit(map.x, i) != 0 {
        return Err(Refusal::OddField);
    }
    let cells = read_cells(msg, i, map, keep, received)?;
    if !total_fits(count.x as u16, cells.x) {
        return Err(Refusal::OddField);
    }
    Ok(cells)
}

// The rows that a row map marks, and the place after them.
fn read_rows<K: Keep>(
    config: &Config,
    msg: &[u8],
    map: Read,
    keep: &mut K,
    sums: &mut Tally,
) -> Result<usize, Refusal>
    requires { (lawful_of config.now ≡ true) × (map.at ≤ length msg.now) × (map.x ≤ 65535) × NoSums sums.old × K.keeps keep.old no_counts no_cells }
    ensures ends { (result ≡ place_answer (rows_after config.now msg.now map.x (read_at map) 16)) × IfOk result (λ end. end ≤ length msg.now) }
    ensures adds { OnOk result (SumsOf (ledger_read config.now msg.now map.x (read_at map)) sums.new) }
    ensures keeps { K.keeps keep.new (count_read config.now msg.now map.x (read_at map)) (cell_of_row config.now msg.now map.x (read_at map)) }
{
    let mut at = map.at;
    let mut rest = map.x;
    let mut i: usize = 0;
    while rest != 0 {
        if rest % 2 == 1 {
            let row = read_row(config, msg, i, at, keep, &mut sums.received)?;
            sums.given[i] = row.x;
            at = row.at;
        }
        rest /= 2;
        i += 1;
    }
    Ok(at)
}

// The sheet, which stands where `stands` isn't 0, and the place after it.
pub(crate) fn read_sheet<K: Keep>(
    config: &Config,
    msg: &[u8],
    stands: u64,
    at: usize,
    keep: &mut K,
    sums: &mut Tally,
) -> Result<usize, Refusal>
    requires { (lawful_of config.now ≡ true) × (at ≤ length msg.now) × NoSums sums.old × K.keeps keep.old no_counts no_cells }
    ensures ends { (result ≡ place_answer (sheet_end config.now msg.now stands (at_place at))) × IfOk result (λ end. end ≤ length msg.now) }
    ensures adds { OnOk result (SumsOf (sheet_ledger config.now msg.now stands (at_place at)) sums.new) }
    ensures keeps { K.keeps keep.new (sheet_counts config.now msg.now stands (at_place at)) (sheet_cells config.now msg.now stands (at_place at)) }
{
    let map = read_number(msg, stands, 2, 1, most_map(config), at)?;
    read_rows(config, msg, map, keep, sums)
}
