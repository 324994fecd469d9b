// The line that is being read.
ghost use Rattle.std.specs.Prelude.{◌≤◌};
ghost use Rattle.cases.specs.declared.line.TheConstants.{ROOM};

// The room for a line: a character more than the longest, so that one that is too long is known by its filling it.
const ROOM: usize = 8193;

// As much of a line as has come. There is no heap, so it lies in an array with its length beside it.
#[derive(Drop)]
pub(crate) struct Line {
    characters: [u8; ROOM],
    filled: usize,
    ghost within: { filled ≤ ROOM },
}

impl Line {
    pub(crate) fn empty() -> Line {
        Line {
            characters: [0; ROOM],
            filled: 0,
        }
    }

    pub(crate) fn characters(&self) -> &[u8] {
        &self.characters[..self.filled]
    }

    // Adds what comes next, as far as there is room for it.
    pub(crate) fn add(&mut self, next: &[u8]) {
        let room = &mut self.characters[self.filled..];
        let count = next.len().min(room.len());
        room[..count].copy_from_slice(&next[..count]);
        self.filled += count;
    }

    pub(crate) fn clear(&mut self) {
        self.filled = 0;
    }
}
