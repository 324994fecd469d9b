// The value of a register: up to 64 bytes.
ghost use Rattle.std.specs.Prelude.{◌≡◌, ◌≤◌, length, min, take};
ghost use Rattle.replica.specs.Values.{value_fits, value_of, empty_value, trimmed as trimmed_of, same as same_of};

// The most bytes that a value has.
pub const MOST_VALUE: u16 = 64;

// The first `length` of the bytes. Those after them mean nothing; what a call stores has zeros there. A length beside its array: the record is C's too.
#[repr(C)]
#[derive(Clone, Copy)]
pub struct Value {
    pub length: u16,
    pub bytes: [u8; 64],
}

impl Value {
    // The value without a byte.
    pub fn empty() -> Value
        ensures { result ≡ empty_value }
    {
        Value {
            length: 0,
            bytes: [0; 64],
        }
    }

    // Whether this value may be held, written and sent: it has at most 64 bytes.
    #[tactic(auto, unfolding(crate::specs::Values::value_fits))]
    pub fn fits(&self) -> bool
        ensures { result ≡ value_fits self.now }
    {
        self.length <= MOST_VALUE
    }

    // The value with the bytes of a slice. Of a longer slice it has the first 64, and a length of 65, which doesn't fit.
    pub fn of(part: &[u8]) -> Value
        ensures { result ≡ value_of part.now }
    {
        let end = part.len().min(64);
        let mut bytes = [0; 64];
        bytes[..end].copy_from_slice(&part[..end]);
        let length = part.len().min(65) as u16;
        Value { length, bytes }
    }

    // The bytes: as many as the length says, and no more than there are.
    pub fn bytes(&self) -> &[u8]
        ensures { (result.now ≡ take (min self.now.length 64) self.now.bytes) × (length result.now ≡ min self.now.length 64) }
    {
        let end = usize::from(self.length).min(64);
        &self.bytes[..end]
    }

    // The same value with zeros after its bytes.
    pub fn trimmed(&self) -> Value
        ensures { result ≡ trimmed_of self.now }
    {
        let kept = Value::of(self.bytes());
        let bytes = kept.bytes;
        Value {
            length: self.length,
            bytes,
        }
    }

    // Whether two values have the same bytes.
    pub fn same(&self, other: &Value) -> bool
        ensures { result ≡ same_of self.now other.now }
    {
        self.length == other.length && self.bytes() == other.bytes()
    }
}
