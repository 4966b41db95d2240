// The words of a command, and of an answer. A word that is not there, or does not read, stands for 0, and a word too many for nothing.
ghost use Rattle.std.specs.Prelude.{◌<◌};

use rule::Parts;
use std::alloc::{AllocError, Global};

// A word that stands for no bytes at all.
const NOTHING: &str = "-";

pub(crate) fn number(words: &[&str], at: usize) -> u32 {
    words
        .get(at)
        .and_then(|word| word.parse::<u32>().ok())
        .unwrap_or(0)
}

// The five parts of a rule, from a place on. A number that is too large for its part becomes the largest one.
pub(crate) fn parts(words: &[&str], from: usize) -> Parts {
    let at = from.min(1000);
    Parts {
        address: number(words, at),
        prefix: u8::try_from(number(words, at + 1)).unwrap_or(u8::MAX),
        action: u8::try_from(number(words, at + 2)).unwrap_or(u8::MAX),
        first: u16::try_from(number(words, at + 3)).unwrap_or(u16::MAX),
        last: u16::try_from(number(words, at + 4)).unwrap_or(u16::MAX),
    }
}

// By hand, since `hex::decode` takes capital letters, too, and refuses what is no digit.
fn digit(byte: u8) -> u8
    ensures { result < 16 }
{
    match byte {
        b'0'..=b'9' => byte - b'0',
        b'a'..=b'f' => byte - b'a' + 10,
        _ => 0,
    }
}

// The bytes that the digits of a word spell, two digits to a byte.
pub(crate) fn bytes(heap: Global, words: &[&str], at: usize) -> Result<Vec<u8>, AllocError> {
    let mut bytes = Vec::new(heap);
    let word = words.get(at).copied().unwrap_or(NOTHING);
    if word != NOTHING {
        for pair in word.as_bytes().chunks(2) {
            let [high, low] = match pair {
                [high, low, ..] => [*high, *low],
                [high] => [*high, b'0'],
                [] => [b'0', b'0'],
            };
            bytes.push(digit(high) * 16 + digit(low))?;
        }
    }
    Ok(bytes)
}

// The bytes as digits, without the zero bytes at the end.
pub(crate) fn digits(heap: Global, bytes: &[u8]) -> Result<String, AllocError> {
    let end = bytes
        .iter()
        .rposition(|byte| *byte != 0)
        .map_or(0, |last| last + 1);
    if end == 0 {
        return String::from_str(heap, NOTHING);
    }
    hex::encode(heap, &bytes[..end])
}
