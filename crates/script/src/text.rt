// The words of a line, and what they stand for.
ghost use Rattle.std.specs.Prelude.{◌≡◌, length};
ghost use Rattle.std.specs.Iterator.{at_most};

// The most bytes that a line may bring, and that a buffer may have.
pub const MOST_BYTES: usize = 2048;

// Room for a line's bytes and one more.
pub const SPACE: usize = MOST_BYTES + 1;

// What words stand apart by.
fn is_space(c: &u8) -> bool {
    matches!(*c, b' ' | b'\t' | b'\r')
}

// The words of a text, first to last: what is left of it.
#[derive(Clone, Copy)]
pub(crate) struct Words<'a>(pub &'a [u8]);

impl<'a> Iterator for Words<'a> {
    type Item = &'a [u8];

    ghost remaining = { λ s. at_most (length s.0.now) };

    fn next(&mut self) -> Option<&'a [u8]> {
        let from = self.0.iter().position(|c| !is_space(c))?;
        let mut parts = self.0[from..].splitn(2, is_space);
        let word = parts.next()?;
        self.0 = parts.next().unwrap_or(&[]);
        Some(word)
    }
}

// The number that a word of decimal digits stands for, if 64 bits hold it. The library's `parse` would take a sign too.
pub(crate) fn decimal(word: &[u8]) -> Option<u64> {
    if word.is_empty() {
        return None;
    }
    let mut x: u64 = 0;
    for c in word {
        let digit = char::from(*c).to_digit(10)?;
        x = x.checked_mul(10)?.checked_add(u64::from(digit))?;
    }
    Some(x)
}

// The byte that a pair of hex digits stands for.
fn byte(pair: &[u8]) -> Option<u8> {
    let [high, low] = pair else {
        return None;
    };
    let high = char::from(*high).to_digit(16)?;
    let low = char::from(*low).to_digit(16)?;
    Some((high * 16 + low) as u8)
}

// The bytes that words stand for, `-` for none, into the front of `out`, and how many it took; those that find no room are read and left out.
pub(crate) fn decode(words: Words, out: &mut [u8]) -> Option<usize>
    ensures { length out.new ≡ length out.old }
{
    let mut rest = words;
    if let (Some(b"-"), None) = (rest.next(), rest.next()) {
        return Some(0);
    }
    let mut count: usize = 0;
    for pair in words.flat_map(|word| word.chunks(2)) {
        let value = byte(pair)?;
        if let Some(place) = out.get_mut(count) {
            *place = value;
            count += 1;
        }
    }
    Some(count)
}
