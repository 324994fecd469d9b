// A place in a buffer. What is written goes there, and the pen then stands after it; all other bytes stay.
ghost use Rattle.std.specs.Prelude.{◌≤◌};
ghost use Rattle.format.specs.Bytes.{bytes, number};
ghost use Rattle.writer.specs.Places.{HasRoom, Puts};

#[derive(Drop)]
pub(crate) struct Pen<'a> {
    pub out: &'a mut [u8],
    pub at: usize,
}

impl Pen<'_> {
    // Bytes as they are.
    pub(crate) fn put(&mut self, part: &[u8])
        requires { HasRoom part.now self.old }
        ensures { Puts part.now self.old self.new }
    {
        let end = self.at + part.len();
        self.out[self.at..end].copy_from_slice(part);
        self.at = end;
    }

    // x in `width` bytes, high byte first.
    pub(crate) fn bytes(&mut self, width: usize, x: u64)
        requires width { width ≤ 8 }
        requires room { HasRoom (bytes width x) self.old }
        ensures { Puts (bytes width x) self.old self.new }
    {
        self.put(&x.to_be_bytes()[8 - width..]);
    }

    // The same of a number that stands where `stands` isn't 0.
    pub(crate) fn number(&mut self, stands: u64, width: usize, x: u64)
        requires width { width ≤ 8 }
        requires room { HasRoom (number stands width x) self.old }
        ensures { Puts (number stands width x) self.old self.new }
    {
        if stands != 0 {
            self.bytes(width, x);
        }
    }
}
