//! Reading a number off the front of some bytes.

ghost use Rattle.std.specs.Prelude.{◌≡◌, ◌-◌, ◌%◌, ◌≤◌, ◌==◌, ◌&&◌, ◌||◌, nat_lt, slice_index, if◌then◌else◌, Ok, Err};
ghost use Rattle.wire.specs.declared.reading.Fault.TheVariants.{Misspelt};
ghost use Rattle.wire.specs.Faults.{fault_number};
ghost use Rattle.wire.specs.Groups.{worth};
ghost use Rattle.wire.specs.Numbers.{Read};

/// The largest number that can be spelled.
pub const MAX_NUMBER: u32 = 16_777_215;

/// Why no number can be read. Each fault has the number of the question that it answers with no.
#[derive(Clone, Copy, PartialEq, Eq, Debug)]
pub enum Fault {
    /// The bytes end before the number does.
    Ends = 5,
    /// The number is not in its shortest spelling, or is too large.
    Misspelt = 6,
}

impl Fault {
    /// The number of the question that this fault answers with no.
    pub fn number(self) -> u32
        ensures { result ≡ fault_number self }
    {
        self as u32
    }
}

/// A number at the front of some bytes: its value, and how many bytes spell it.
#[derive(Clone, Copy, PartialEq, Eq, Debug)]
pub struct Number {
    pub value: u32,
    pub len: usize,
}

/// The number that `bytes` begin with.
pub fn read_number(bytes: &[u8]) -> Result<Number, Fault>
    ensures { Read bytes.now result }
{
    match bytes {
        [a, ..] if *a < 128 => joined([*a, 0, 0, 0], 1),
        [a, b, ..] if *b < 128 => joined([*a, *b, 0, 0], 2),
        [a, b, c, ..] if *c < 128 => joined([*a, *b, *c, 0], 3),
        [a, b, c, d, ..] if *d < 128 => joined([*a, *b, *c, *d], 4),
        [_, _, _, _, ..] => Err(Fault::Misspelt),
        _ => Err(Fault::Ends),
    }
}

/// The number that `len` bytes spell, the lowest group first, where they are filled up to four with 0.
fn joined(bytes: [u8; 4], len: usize) -> Result<Number, Fault>
    requires some { 1 ≤ len }
    requires few { len ≤ 4 }
    ensures { result ≡ (if nat_lt 7 (slice_index bytes 3) || (nat_lt 1 len && slice_index bytes (len - 1) == 0) then Err Misspelt else Ok (record { value = worth bytes; len = len })) }
{
    let [a, b, c, d] = bytes;
    let value = low(a) + 128 * (low(b) + 128 * (low(c) + 128 * low(d)));
    // a fourth byte above 7 makes the number too large; with nothing in its last group, it has a shorter spelling
    if d > 7 || (len > 1 && bytes[len - 1] == 0) {
        return Err(Fault::Misspelt);
    }
    Ok(Number { value, len })
}

/// The lowest seven bits of a byte.
fn low(byte: u8) -> u32
    ensures { result ≡ byte % 128 }
{
    u32::from(byte % 128)
}
