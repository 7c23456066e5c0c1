//! Writing a number into a lent buffer.

ghost use Rattle.std.specs.Prelude.{◌≡◌, ◌+◌, ◌%◌, ◌≤◌, length, nat_lt, if◌then◌else◌};
ghost use Rattle.wire.specs.Numbers.{largest, spelling};
ghost use Rattle.wire.specs.Writing.{Written};

use super::reading::MAX_NUMBER;

/// Why a number is not written.
#[derive(Clone, Copy, PartialEq, Eq, Debug)]
pub enum Unwritten {
    /// The number is larger than any that can be spelled.
    TooLarge,
    /// The buffer ends before the spelling does.
    NoRoom,
}

/// Writes `value` at the place `at` of the buffer, and answers the place after it.
/// What lies before and after stays; a number that is not written changes nothing.
pub fn write_number(out: &mut [u8], at: usize, value: u32) -> Result<usize, Unwritten>
    ensures { Written out.old at value result out.new }
{
    if value > MAX_NUMBER {
        return Err(Unwritten::TooLarge);
    }
    let len = count_groups(value);
    if at > out.len() || len > out.len() - at {
        return Err(Unwritten::NoRoom);
    }
    write_groups(&mut out[at..at + len], value);
    Ok(at + len)
}

/// How many groups of seven bits a number has.
#[tactic(auto, using(std::proofs::lemmas::Bool::Decides::nat_tests), unfolding(crate::specs::Numbers::spelling))]
fn count_groups(value: u32) -> usize
    requires { value ≤ largest }
    ensures { result ≡ length (spelling value) }
{
    match value {
        0..=127 => 1,
        128..=16_383 => 2,
        16_384..=2_097_151 => 3,
        _ => 4,
    }
}

/// Writes the groups of a number, the lowest first, one to a cell.
fn write_groups(cells: &mut [u8], value: u32)
    requires small { value ≤ largest }
    requires room { length cells.old ≡ length (spelling value) }
    ensures { cells.new ≡ spelling value }
{
    let mut rest = value;
    for cell in cells.iter_mut() {
        *cell = lowest(rest);
        rest /= 128;
    }
}

/// The lowest group of a number, under a top bit that says whether more follow.
fn lowest(value: u32) -> u8
    ensures { result ≡ (if nat_lt value 128 then value else value % 128 + 128) }
{
    if value < 128 {
        value as u8
    } else {
        (value % 128 + 128) as u8
    }
}
