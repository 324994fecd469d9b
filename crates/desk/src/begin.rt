// An operation begins (paper 01, "Desk": Begin), and is dropped (Drop).
ghost use Rattle.std.specs.Prelude.{◌≡◌, []};
ghost use Rattle.desk.specs.Operations.{reading, writing};
ghost use Rattle.desk.specs.Begins.{begin_of, drop_of};

use super::operation::{Operation, READ, RUNNING, WRITE};
use super::record::{Desk, DeskAnswer};
use config::Refusal;
use replica::Value;

impl Desk {
    // Begins a read, with a note, or 0 for none: 1 for the record, 8 while an operation runs, 12 in the last round.
    pub fn begin_read(self, note: u32) -> DeskAnswer
        ensures { result ≡ begin_of self reading [] note }
    {
        let mut desk = self;
        let verdict = desk.begin_read_lent(note);
        DeskAnswer { verdict, desk }
    }

    // Begins a write of a value, with a note, or 0 for none: 1 for the record, 14 for a value over 64 bytes, 8 while an operation runs, 12 in the last
    // round.
    pub fn begin_write(self, note: u32, value: &[u8]) -> DeskAnswer
        ensures { result ≡ begin_of self writing value.now note }
    {
        let mut desk = self;
        let verdict = desk.begin_write_lent(note, value);
        DeskAnswer { verdict, desk }
    }

    // Ends the operation that runs without a result: 1 for the record, 9 if none runs.
    pub fn drop(self) -> DeskAnswer
        ensures { result ≡ drop_of self }
    {
        let mut desk = self;
        let verdict = desk.drop_lent();
        DeskAnswer { verdict, desk }
    }

    // The same on a record that is lent, which is left as it was where the verdict is a refusal.

    pub fn begin_read_lent(&mut self, note: u32) -> Result<(), Refusal>
        ensures { (result ≡ (begin_of self.old reading [] note).verdict) × (self.new ≡ (begin_of self.old reading [] note).desk) }
    {
        self.begin(READ, b"", note)
    }

    pub fn begin_write_lent(&mut self, note: u32, value: &[u8]) -> Result<(), Refusal>
        ensures { (result ≡ (begin_of self.old writing value.now note).verdict) × (self.new ≡ (begin_of self.old writing value.now note).desk) }
    {
        self.begin(WRITE, value, note)
    }

    #[tactic(auto, unfolding(crate::specs::Begins::drop_of))]
    pub fn drop_lent(&mut self) -> Result<(), Refusal>
        ensures { (result ≡ (drop_of self.old).verdict) × (self.new ≡ (drop_of self.old).desk) }
    {
        if !self.fits() {
            return Err(Refusal::BadHouse);
        }
        if self.operation.mode != RUNNING {
            return Err(Refusal::Idle);
        }
        self.operation = Operation::none();
        Ok(())
    }

    // Begins an operation of a kind: 1 for the record, 14, 8, 12.
    #[tactic(auto, unfolding(crate::specs::Begins::begin_of, crate::specs::Begins::start_of))]
    fn begin(&mut self, kind: u16, value: &[u8], note: u32) -> Result<(), Refusal>
        ensures { (result ≡ (begin_of self.old kind value.now note).verdict) × (self.new ≡ (begin_of self.old kind value.now note).desk) }
    {
        if !self.fits() {
            return Err(Refusal::BadHouse);
        }
        let value = Value::of(value);
        if !value.fits() {
            return Err(Refusal::Long);
        }
        if self.operation.mode == RUNNING {
            return Err(Refusal::Busy);
        }
        self.round = self.round.checked_add(1).ok_or(Refusal::Spent)?;
        self.operation = Operation::begun(kind, value, note);
        Ok(())
    }
}
