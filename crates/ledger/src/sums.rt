// What the servers received and gave by the rows and columns of a ledger, and the record test, which finds it in one pass over the rows.
ghost use Rattle.std.specs.Prelude.{◌≡◌, true, ◌+◌, ◌*◌, ◌≤◌, ◌<◌, length, get_or};
ghost use Rattle.quorums.specs.Sum.{sum};
ghost use Rattle.quorums.specs.Tables.{table};
ghost use Rattle.config.specs.Cluster.{lawful_of, least_of};
ghost use Rattle.config.specs.Refusals.{granted};
ghost use Rattle.ledger.specs.Ledgers.{received_of, given_of};
ghost use Rattle.ledger.specs.Checks.{fit_answer};
ghost use Rattle.ledger.specs.Sums.{Sums, Weighs, Covers, no_sums, under as under_of, received_from, given_below, filled_row, row_faults, beyond_from, faults_of};

use super::ledger::Ledger;
use super::map::names;
use super::tally::Tally;
use config::{Config, MOST_WEIGHT, Refusal};

// Up to so many servers are summed one by one, which takes less time than a pass over all cells.
const FEW: u64 = 8;

impl Ledger {
    // What the servers below n that a map names received and gave, put into a tally that has nothing: handed back by value, it would be copied. Where they are
    // few, the column and the row of each are added up, and else all cells in one pass.
    pub(crate) fn sum_named(&self, n: u64, map: u16, tally: &mut Tally)
        requires { (n ≤ 16) × (tally.old.given ≡ no_sums) }
        ensures { Covers n map (received_of self.now) tally.new.received × Covers n map (given_of self.now) tally.new.given }
    {
        if FEW < n && FEW < u64::from(map.count_ones()) {
            self.add_rows(16, tally);
            return;
        }
        for i in 0..n as usize {
            if names(map, i) {
                tally.received[i] = self.column_total(i);
                tally.given[i] = row_total(self.row(i));
            }
        }
    }

    // What server i received: the total of its column, by 16 cells and not by all.
    pub(crate) fn column_total(&self, i: usize) -> u64
        requires { i < 16 }
        ensures { (result ≡ received_of self.now i) × (result ≤ 68719476720) }
    {
        let mut total: u64 = 0;
        for j in 0..16 {
            total += u64::from(self.cells[j * 16 + i]);
        }
        total
    }

    // The record test, for a lawful cluster whose least weight above the floor is `least`: 4 for a count or cell out of range, 5 for a weight not above the
    // floor. Where the ledger passes, the tally has what each server received and gave: handed back by value, it would be copied.
    pub(crate) fn test(&self, config: &Config, least: u64, tally: &mut Tally) -> Result<(), Refusal>
        requires { (lawful_of config.now ≡ true) × (least ≡ least_of config.now) × (tally.old.given ≡ no_sums) }
        ensures { (result ≡ fit_answer config.now self.now) × (result ≡ granted → Weighs config.now self.now tally.new.received tally.new.given) }
    {
        if self.faults(config.n, tally) != 0 {
            return Err(Refusal::OddField);
        }
        if !tally.above_floor(config, least) {
            return Err(Refusal::Light);
        }
        Ok(())
    }

    // How much is wrong with the counts and cells of a ledger of n servers, with what each of them received and gave. It is a sum and no flag, so that no row
    // has to be left early.
    pub(crate) fn faults(&self, n: u64, tally: &mut Tally) -> u64
        requires { (n ≤ 16) × (tally.old.given ≡ no_sums) }
        ensures { (result ≡ faults_of n self.now) × (tally.new.received ≡ table 16 (received_from n self.now)) × (tally.new.given ≡ table 16 (given_below n self.now)) }
    {
        let below = self.add_rows(n, tally);
        below + self.left_over(n, &tally.received)
    }

    // The faults of the rows below n, which have a server each, and their sums. The loop has no way out but its end. What is received is added up in an array
    // of its own, and each row is gone through twice: so a compiler keeps the sums in vectors. In an array that is lent it would write each of them for each
    // cell.
    fn add_rows(&self, n: u64, tally: &mut Tally) -> u64
        requires { (n ≤ 16) × (tally.old.given ≡ no_sums) }
        ensures { (result ≡ sum n (row_faults self.now)) × (result ≤ 68719476752) × (tally.new.received ≡ table 16 (received_from n self.now)) × (tally.new.given ≡ table 16 (given_below n self.now)) }
    {
        let mut received: [u64; 16] = [0; 16];
        let mut faults: u64 = 0;
        for i in 0..n as usize {
            let row = self.row(i);
            let total = row_total(row);
            faults += row_faults(row[i], self.counts[i], total);
            tally.given[i] = total;
            add_row(row, &mut received);
        }
        tally.received = received;
        faults
    }

    // What there is from n on: rows that are not empty, columns and counts.
    fn left_over(&self, n: u64, received: &[u64; 16]) -> u64
        requires { (n ≤ 16) × (received.now ≡ table 16 (received_from n self.now)) × Sums 68719476720 received.now }
        ensures { (result ≡ sum 16 (beyond_from n self.now)) × (result ≤ 2199024304160) }
    {
        let mut rest: u64 = 0;
        for i in n as usize..16 {
            rest += filled(self.row(i)) + received[i] + u64::from(self.counts[i]);
        }
        rest
    }
}

// 1 for a row with a cell that isn't 0, else 0. It looks at all cells, whatever it finds, so that a compiler can look at several at once.
fn filled(row: &[u32]) -> u64
    requires { length row.now ≡ 16 }
    ensures { (result ≡ filled_row (λ j. get_or row.now j 0)) × (result ≤ 1) }
{
    let mut clear = true;
    for cell in row {
        clear &= *cell == 0;
    }
    u64::from(!clear)
}

// The total of a row.
pub(crate) fn row_total(row: &[u32]) -> u64
    requires { length row.now ≡ 16 }
    ensures { (result ≡ sum 16 (λ j. get_or row.now j 0)) × (result ≤ 68719476720) }
{
    let mut total: u64 = 0;
    for amount in row {
        total += u64::from(*amount);
    }
    total
}

// Each cell of a row added to what its taker received.
fn add_row(row: &[u32], sums: &mut [u64; 16])
    requires { (length row.now ≡ 16) × Sums 18446744069414584320 sums.old }
    ensures { sums.new ≡ table 16 (λ j. get_or sums.old j 0 + get_or row.now j 0) }
{
    for j in 0..16 {
        sums[j] += u64::from(row[j]);
    }
}

// What is wrong with a row: what its giver gave itself, and a total that is below its count or above 16,000 times that.
fn row_faults(own: u32, count: u16, total: u64) -> u64
    ensures { (result ≡ own + under_of total count + under_of (16000 * count) total) × (result ≤ 4294967297) }
{
    let count = u64::from(count);
    u64::from(own) + u64::from(total < count) + u64::from(MOST_WEIGHT * count < total)
}
