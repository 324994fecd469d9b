// The fields of a message, each from the pen's place on.
ghost use Rattle.std.specs.Prelude.{◌≡◌, ◌≤◌, ℕ, length, get_or};
ghost use Rattle.quorums.specs.Sum.{sum};
ghost use Rattle.ledger.specs.Ledgers.{count_of, cell_of};
ghost use Rattle.format.specs.Table.{head, register as register_of, cell_map, cells as cells_of, row as row_of, rows as rows_of};
ghost use Rattle.replica.specs.Values.{bytes_of};
ghost use Rattle.writer.specs.Outlines.{Counted, CountsBelow};
ghost use Rattle.writer.specs.Places.{HasRoom, Puts};

use super::pen::Pen;
use config::Config;
use ledger::Ledger;
use message::Envelope;
use replica::Register;

impl Pen<'_> {
    // The map, kind, server, desk and round.
    pub(crate) fn head(&mut self, map: u64, envelope: &Envelope)
        requires { HasRoom (head map envelope.now.kind envelope.now.server envelope.now.desk envelope.now.round) self.old }
        ensures { Puts (head map envelope.now.kind envelope.now.server envelope.now.desk envelope.now.round) self.old self.new }
    {
        let desk = u64::from(envelope.desk);
        let round = u64::from(envelope.round);
        self.bytes(2, map);
        self.bytes(1, u64::from(envelope.kind));
        self.bytes(1, u64::from(envelope.server));
        self.number(desk, 2, desk);
        self.number(round, 4, round);
    }

    // The register.
    pub(crate) fn register(&mut self, config: &Config, register: &Register)
        requires short { register.now.value.length ≤ 64 }
        requires room { HasRoom (register_of config.now register.now.stamp register.now.desk (bytes_of register.now.value)) self.old }
        ensures { Puts (register_of config.now register.now.stamp register.now.desk (bytes_of register.now.value)) self.old self.new }
    {
        let stamp = u64::from(register.stamp);
        let desk = u64::from(register.desk);
        let length = u64::from(register.value.length);
        let stands = stamp + desk + length;
        self.number(stands, config.stamp_bytes() as usize, stamp);
        self.number(stands, 2, desk);
        self.number(stands, 1, length);
        // A copy of the value is put, which cannot lie in the buffer: what lies behind a reference might, for all that a compiler knows, and it would call `memmove`.
        let value = register.value;
        self.put(value.bytes());
    }

    // A row, whose cells are all 0 where its count is; they are then not looked at. The cell map is put when the cells are.
    fn row(&mut self, count: u16, row: &[u32])
        requires sixteen { length row.now ≡ 16 }
        requires counted { count ≡ 0 → sum 16 (λ j. get_or row.now j 0) ≡ 0 }
        requires room { HasRoom (row_of count (λ j. get_or row.now j 0)) self.old }
        ensures { Puts (row_of count (λ j. get_or row.now j 0)) self.old self.new }
    {
        if count == 0 {
            return;
        }
        self.bytes(2, u64::from(count));
        let map_at = self.at;
        self.at += 2;
        let map = self.cells(row);
        let end = self.at;
        self.at = map_at;
        self.bytes(2, map);
        self.at = end;
    }

    // The cells of a row that stand, and their map.
    fn cells(&mut self, row: &[u32]) -> u64
        requires sixteen { length row.now ≡ 16 }
        requires room { HasRoom (cells_of (λ j. get_or row.now j 0)) self.old }
        ensures puts { Puts (cells_of (λ j. get_or row.now j 0)) self.old self.new }
        ensures map { result ≡ cell_map (λ j. get_or row.now j 0) }
    {
        let mut map: u64 = 0;
        for (j, &cell) in row.iter().enumerate() {
            if cell != 0 {
                self.bytes(4, u64::from(cell));
                map += 1 << j;
            }
        }
        map
    }

    // All rows of a ledger whose rows from n on are empty, as is every row whose count is 0.
    pub(crate) fn rows(&mut self, ledger: &Ledger, n: usize)
        requires counted { Counted ledger.now }
        requires most { n ≤ 16 }
        requires below { CountsBelow n ledger.now }
        requires room { HasRoom (rows_of (count_of ledger.now) (cell_of ledger.now)) self.old }
        ensures { Puts (rows_of (count_of ledger.now) (cell_of ledger.now)) self.old self.new }
    {
        let (rows, _) = ledger.cells.as_chunks::<16>();
        for (&count, row) in ledger.counts[..n].iter().zip(rows) {
            self.row(count, row);
        }
    }
}
