// The record, and what every module reads of it.
ghost use Rattle.std.specs.Prelude.{◌≡◌, ℕ, ◌<◌, length, get_or};
ghost use Rattle.ledger.specs.Ledgers.{fresh_ledger, row_of, refused as refused_of};

use config::Refusal;

// The transfers known to a party (paper 01: sheet). It lies so in a C host's records, which is why the rows are no structs. counts[i] is the number of transfers that server i made, and cells[16 i + j] what it gave server j in all.
#[repr(C)]
#[derive(Clone, Copy, PartialEq, Eq)]
pub struct Ledger {
    pub counts: [u16; 16],
    pub cells: [u32; 256],
}

// What a call that changes a ledger hands back: the ledger changed, or as it was where the verdict is a refusal. `join_answer` and `add_answer` promise it on
// refusals too, so the two stand side by side.
#[derive(Clone, Copy)]
pub struct Changed {
    pub verdict: Result<(), Refusal>,
    pub ledger: Ledger,
}

impl Ledger {
    // The ledger with no transfer: every count and every cell is 0.
    pub fn fresh() -> Ledger
        ensures { (result ≡ fresh_ledger) × ((k : ℕ) → k < 16 → get_or result.counts k 0 ≡ 0) × ((k : ℕ) → k < 256 → get_or result.cells k 0 ≡ 0) }
    {
        Ledger {
            counts: [0; 16],
            cells: [0; 256],
        }
    }

    // What server i gave each of the 16.
    pub(crate) fn row(&self, i: usize) -> &[u32]
        requires { i < 16 }
        ensures { (result.now ≡ row_of self.now i) × (length result.now ≡ 16) }
    {
        &self.cells[i * 16..i * 16 + 16]
    }

    // A refusal, with the ledger as it was.
    pub(crate) fn refused(self, refusal: Refusal) -> Changed
        ensures { result ≡ refused_of refusal self }
    {
        Changed {
            verdict: Err(refusal),
            ledger: self,
        }
    }
}
