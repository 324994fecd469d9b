// What becomes of the counts and cells of a sheet while it is read.
ghost use Rattle.std.specs.Prelude.{ℕ, ◌<◌};
ghost use Rattle.reader.specs.Keeping.{put, KeptIn, Nowhere};

use ledger::Ledger;

// Who takes them, one after the other.
pub(crate) trait Keep {
    // That it has these counts and cells.
    ghost keeps: { Self → (ℕ → ℕ) → (ℕ → ℕ → ℕ) → Type 0 };

    fn count(&mut self, i: usize, x: u16)
        requires { i < 16 }
        ensures { (counts : ℕ → ℕ) (cells : ℕ → ℕ → ℕ) → keeps self.old counts cells → keeps self.new (put counts i x) cells };

    fn cell(&mut self, i: usize, j: usize, x: u32)
        requires { (i < 16) × (j < 16) }
        ensures { (counts : ℕ → ℕ) (cells : ℕ → ℕ → ℕ) → keeps self.old counts cells → keeps self.new counts (put cells i (put (cells i) j x)) };
}

impl Keep for Ledger {
    ghost keeps = { KeptIn };

    fn count(&mut self, i: usize, x: u16) {
        self.counts[i] = x;
    }

    fn cell(&mut self, i: usize, j: usize, x: u32) {
        self.cells[i * 16 + j] = x;
    }
}

// Keeps nothing: for who asks whether a message passes, for its value, or for weights on its sheet.
#[derive(Clone, Copy)]
pub(crate) struct Nothing;

impl Keep for Nothing {
    ghost keeps = { Nowhere };

    fn count(&mut self, _i: usize, _x: u16) {}

    fn cell(&mut self, _i: usize, _j: usize, _x: u32) {}
}
