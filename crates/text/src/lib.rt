// Numbers in text: where a text is cut, which number its bytes write, and how a number is written.
//
// A number has one text, in decimal without a leading zero: that text, and no other, reads as the number, and it is what is written.
// Every call takes any bytes; what does not read is `None`.
#![tactic(auto)]

mod writing;

ghost use Rattle.std.specs.Prelude.{◌≡◌, ℕ, ◌≤◌, ◌==◌, [], ◌∷◌, IfSome, Some, decimal};
ghost use Rattle.std.specs.List.{position};
ghost use Rattle.std.specs.Option.{option_map};
ghost use Rattle.text.specs.Cutting.{split, held};
ghost use Rattle.text.specs.Numbers.{number_of, number_after, well_led};
ghost use Rattle.text.specs.Octets.{one_digit, two_digits, three_digits, octet_of};

pub use writing::push_number;

// Where the first byte `at` stands.
fn place_of(bytes: &[u8], at: u8) -> Option<usize>
    ensures { result ≡ position (λ b. b == at) bytes.now }
{
    bytes.iter().position(|byte| *byte == at)
}

// What stands before and behind the first byte `at`.
#[tactic(auto, using(crate::proofs::Cuts::split_first))]
pub fn split_once(bytes: &[u8], at: u8) -> Option<(&[u8], &[u8])>
    ensures { option_map held result ≡ split at bytes.now }
{
    let place = place_of(bytes, at)?;
    Some((&bytes[..place], &bytes[place + 1..]))
}

// Whether there is a byte, and no zero with more behind it.
fn is_well_led(bytes: &[u8]) -> bool
    ensures { result ≡ well_led bytes.now }
{
    !matches!(bytes, [] | [b'0', _, ..])
}

// The number so far with one digit more, if it stays within the limit.
fn with_digit(so_far: u64, byte: u8, limit: u64) -> Option<u64>
    ensures { result ≡ number_after limit so_far (byte ∷ []) }
{
    let digit = char::from(byte).to_digit(10)?;
    let next = so_far.checked_mul(10)?.checked_add(u64::from(digit))?;
    (next <= limit).then_some(next)
}

// The number that digits write, leading zeros too, if it is within the limit.
fn digits(bytes: &[u8], limit: u64) -> Option<u64>
    ensures { result ≡ number_after limit 0 bytes.now }
{
    let mut number = 0;
    for byte in bytes {
        number = with_digit(number, *byte, limit)?;
    }
    Some(number)
}

// A decimal number without a leading zero, if it is within the limit.
#[tactic(auto, using(crate::proofs::Decimal::decimal_number))]
pub fn number(bytes: &[u8], limit: u64) -> Option<u64>
    ensures value { result ≡ number_of limit bytes.now }
    ensures within { IfSome result (λ n. n ≤ limit) }
    ensures one_text { (n : ℕ) → result ≡ Some n → bytes.now ≡ decimal n }
    ensures reads_back { (n : ℕ) → n ≤ limit → bytes.now ≡ decimal n → result ≡ Some n }
{
    if !is_well_led(bytes) {
        return None;
    }
    digits(bytes, limit)
}

fn one_digit(ones: u8) -> Option<u8>
    ensures { result ≡ one_digit ones }
{
    match ones {
        b'0'..=b'9' => Some(ones - b'0'),
        _ => None,
    }
}

fn two_digits(tens: u8, ones: u8) -> Option<u8>
    ensures { result ≡ two_digits tens ones }
{
    match (tens, ones) {
        // no leading zero
        (b'0'..=b'9', b'0'..=b'9') if tens != b'0' => Some(10 * (tens - b'0') + (ones - b'0')),
        _ => None,
    }
}

fn three_digits(hundreds: u8, tens: u8, ones: u8) -> Option<u8>
    ensures { result ≡ three_digits hundreds tens ones }
{
    match (hundreds, tens, ones) {
        (b'1', b'0'..=b'9', b'0'..=b'9') => Some(100 + 10 * (tens - b'0') + (ones - b'0')),
        (b'2', b'0'..=b'4', b'0'..=b'9') => Some(200 + 10 * (tens - b'0') + (ones - b'0')),
        (b'2', b'5', b'0'..=b'9') if ones <= b'5' => Some(250 + (ones - b'0')),
        _ => None,
    }
}

// An octet of an address: the dec-octet of RFC 3986, which is a number of at most 255.
#[tactic(auto, using(crate::proofs::Grammar::octet_number))]
pub fn octet(bytes: &[u8]) -> Option<u8>
    ensures value { result ≡ octet_of bytes.now }
    ensures number { result ≡ number_of 255 bytes.now }
{
    match bytes {
        [ones] => one_digit(*ones),
        [tens, ones] => two_digits(*tens, *ones),
        [hundreds, tens, ones] => three_digits(*hundreds, *tens, *ones),
        _ => None,
    }
}
