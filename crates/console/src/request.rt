//! What a line asks for: a source, by its name and numbers.

ghost use Rattle.std.specs.Prelude.{◌≡◌};
ghost use Rattle.console.specs.Hex.{hex_value, hex_byte};

use super::refusal::Refusal;
use std::alloc::Global;

/// A source as a line names it: lags, the outermost first, over a steady offset or a list.
#[derive(Drop)]
pub struct Request {
    pub lags: Vec<u32>,
    pub base: Base,
}

#[derive(Drop)]
pub enum Base {
    Steady(u32),
    Listed(Vec<u8>),
}

impl Request {
    /// Reads `steady X`, `listed HEX`, or one of them after some `late L`.
    pub(crate) fn read(heap: Global, words: &[&str]) -> Result<Request, Refusal> {
        let [lags @ .., name, value] = words else {
            return Err(Refusal::NotUnderstood);
        };
        Ok(Request {
            lags: lags.chunks(2).map(read_lag).try_collect(heap)?,
            base: read_base(heap, name, value)?,
        })
    }
}

fn read_lag(words: &[&str]) -> Result<u32, Refusal> {
    match words {
        ["late", lag] => Ok(lag.parse()?),
        _ => Err(Refusal::NotUnderstood),
    }
}

fn read_base(heap: Global, name: &str, value: &str) -> Result<Base, Refusal> {
    match name {
        "steady" => Ok(Base::Steady(value.parse()?)),
        "listed" => Ok(Base::Listed(read_hex(heap, value.as_bytes())?)),
        _ => Err(Refusal::NotUnderstood),
    }
}

/// The bytes that pairs of hexadecimal digits spell.
fn read_hex(heap: Global, digits: &[u8]) -> Result<Vec<u8>, Refusal> {
    digits
        .chunks(2)
        .map(|pair| byte(pair).ok_or(Refusal::NotUnderstood))
        .try_collect(heap)
}

/// The byte that a pair of hexadecimal digits spells.
fn byte(pair: &[u8]) -> Option<u8>
    ensures { result ≡ hex_byte pair.now }
{
    match pair {
        [high, low] => Some(16 * digit(*high)? + digit(*low)?),
        _ => None,
    }
}

/// The value of a hexadecimal digit.
fn digit(byte: u8) -> Option<u8>
    ensures { result ≡ hex_value byte }
{
    let value = char::from(byte).to_digit(16)?;
    Some(value as u8)
}
