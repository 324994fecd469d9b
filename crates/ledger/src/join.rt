// The union of what two parties know (paper 01, "Sheets": two sheets join), and how two ledgers compare.
ghost use Rattle.std.specs.Prelude.{◌≡◌, ◌≤◌, min, eqb, leb, length, get_or};
ghost use Rattle.quorums.specs.Sum.{all};
ghost use Rattle.ledger.specs.Ledgers.{Shaped};
ghost use Rattle.ledger.specs.Joins.{agree, joins as joins_of, row_agrees, compared_of, joined, join_answer, equal as equal_of, lacks as lacks_of};

use super::ledger::{Changed, Ledger};
use config::Refusal;

// How a ledger compares with another whose rows agree with its own: whether the first lacks a transfer of the other, and whether the other lacks one of the
// first.
#[derive(Clone, Copy)]
pub struct Compared {
    pub lacks: bool,
    pub ahead: bool,
}

impl Ledger {
    // Both ledgers together: of each giver the row with the larger count, which is this ledger where the other has nothing more. 6, and this ledger as it
    // was, where rows do not agree.
    pub fn join(self, other: Ledger) -> Changed
        ensures { result ≡ join_answer self other }
    {
        if !self.joins(&other) {
            return self.refused(Refusal::Clash);
        }
        let mut ledger = self;
        ledger.take(&other);
        Changed {
            verdict: Ok(()),
            ledger,
        }
    }

    // Whether both ledgers are the same.
    pub fn equal(self, other: Ledger) -> bool
        ensures { result ≡ equal_of self other }
    {
        self == other
    }

    // Whether this ledger lacks a transfer of the other, which then has more.
    pub fn lacks(self, other: Ledger) -> bool
        ensures { result ≡ lacks_of self other }
    {
        for i in 0..16 {
            if self.counts[i] < other.counts[i] {
                return true;
            }
        }
        false
    }

    // How this ledger compares with another, for n servers, or 6 where rows do not agree. Rows in which neither has a transfer are passed over.
    pub fn compare(&self, other: &Ledger, n: u64) -> Result<Compared, Refusal>
        ensures { (result ≡ compared_of n self.now other.now) × Shaped self.now }
    {
        let mut has = true;
        let mut told = true;
        // Counts and rows of both are read at i: zips of the four would be no plainer, here and in `joins`.
        for i in 0..n.min(16) as usize {
            let mine = self.counts[i];
            let theirs = other.counts[i];
            if !row_agrees(mine, theirs, self.row(i), other.row(i)) {
                return Err(Refusal::Clash);
            }
            has &= theirs <= mine;
            told &= mine <= theirs;
        }
        Ok(Compared {
            lacks: !has,
            ahead: !told,
        })
    }

    // Takes each row of another ledger that has more transfers: both together, where they join.
    pub fn take(&mut self, other: &Ledger)
        ensures { self.new ≡ joined self.old other.now }
    {
        for i in 0..16 {
            let mine = self.counts[i];
            let theirs = other.counts[i];
            if mine < theirs {
                self.cells[i * 16..i * 16 + 16].copy_from_slice(other.row(i));
            }
            self.counts[i] = mine.max(theirs);
        }
    }

    // Whether rows with equal counts are equal, and no cell of a later row is smaller.
    fn joins(&self, other: &Ledger) -> bool
        ensures { result ≡ joins_of self.now other.now }
    {
        for i in 0..16 {
            if !row_joins(self.counts[i], other.counts[i], self.row(i), other.row(i)) {
                return false;
            }
        }
        true
    }
}

// Whether two rows agree, where neither is looked at if both have no transfer.
fn row_agrees(count: u16, other_count: u16, row: &[u32], other_row: &[u32]) -> bool
    requires { (length row.now ≡ 16) × (length other_row.now ≡ 16) }
    ensures { result ≡ row_agrees count other_count (λ j. get_or row.now j 0) (λ j. get_or other_row.now j 0) }
{
    if count == 0 && other_count == 0 {
        return true;
    }
    row_joins(count, other_count, row, other_row)
}

// Whether two rows agree.
fn row_joins(count: u16, other_count: u16, row: &[u32], other_row: &[u32]) -> bool
    requires { (length row.now ≡ 16) × (length other_row.now ≡ 16) }
    ensures { result ≡ all 16 (λ j. agree count other_count (get_or row.now j 0) (get_or other_row.now j 0)) }
{
    if count < other_count {
        return none_smaller(other_row, row);
    }
    if other_count < count {
        return none_smaller(row, other_row);
    }
    same_cells(row, other_row)
}

// Whether no cell is smaller than that of an earlier row. It looks at all cells, whatever it finds, so that a compiler can compare several at once.
fn none_smaller(row: &[u32], earlier: &[u32]) -> bool
    requires { (length row.now ≡ 16) × (length earlier.now ≡ 16) }
    ensures { result ≡ all 16 (λ j. leb (get_or earlier.now j 0) (get_or row.now j 0)) }
{
    let mut so_far = true;
    for (cell, before) in row.iter().zip(earlier) {
        so_far &= *before <= *cell;
    }
    so_far
}

// Whether the cells of two rows are the same, which it finds in the same way: `==` on slices is a call, and takes a quarter longer for the ledgers of 16
// servers.
fn same_cells(row: &[u32], other_row: &[u32]) -> bool
    requires { (length row.now ≡ 16) × (length other_row.now ≡ 16) }
    ensures { result ≡ all 16 (λ j. eqb (get_or row.now j 0) (get_or other_row.now j 0)) }
{
    let mut so_far = true;
    for (cell, other) in row.iter().zip(other_row) {
        so_far &= *cell == *other;
    }
    so_far
}
