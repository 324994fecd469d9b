// Houses as lines give them (paper 02, N2): n, f and a list of start weights.
ghost use Rattle.std.specs.Prelude.{◌≡◌, ◌≤◌, length, min, replicate, take};

use super::text::decimal;

// The most start weights that are kept. No house has as many servers: n above 16 is refused before its list is looked at, and for any other n a list of 17
// is as little n long as a longer one. So what is kept of a longer list gets the answers of the whole.
pub const MOST_STARTS: usize = 17;

// What a server starts at in a house that begins level.
const LEVEL: u64 = 1000;

// A list of numbers: those that are kept, at the front of the entries, and how many there are, since there is no heap.
#[derive(Clone, Copy)]
pub struct List {
    pub entries: [u64; MOST_STARTS],
    pub count: usize,
}

impl List {
    // The list that a word stands for: numbers with commas between them, `-` for none.
    pub(crate) fn of(word: &[u8]) -> Option<List> {
        let mut list = List {
            entries: [0; MOST_STARTS],
            count: 0,
        };
        if word == b"-".as_slice() {
            return Some(list);
        }
        for (k, part) in word.split(|c| *c == b',').enumerate() {
            let entry = decimal(part)?;
            if k < MOST_STARTS {
                list.entries[k] = entry;
            }
            list.count = k + 1;
        }
        Some(list)
    }
}

// The numbers n and f, and the start weights.
#[derive(Clone, Copy)]
pub struct House {
    pub n: u64,
    pub f: u64,
    pub starts: List,
}

impl House {
    // The house that begins level.
    pub fn level(n: u64, f: u64) -> House
        ensures { (result.n ≡ n) × (result.f ≡ f) × (result.starts.entries ≡ replicate 17 1000) × (result.starts.count ≡ n) }
    {
        House {
            n,
            f,
            starts: List {
                entries: [LEVEL; MOST_STARTS],
                count: n as usize,
            },
        }
    }

    // The start weights that are kept.
    pub fn kept(&self) -> &[u64]
        ensures { (result.now ≡ take (min self.now.starts.count 17) self.now.starts.entries) × (length result.now ≡ min self.now.starts.count 17) }
    {
        let end = self.starts.count.min(MOST_STARTS);
        &self.starts.entries[..end]
    }
}
