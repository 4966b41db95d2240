// Numbers written in decimal.
ghost use Rattle.std.specs.Prelude.{◌≡◌, ◌++◌, is_ok, if◌then◌else◌, decimal};

use std::alloc::AllocError;

// No number of 64 bits has more digits.
const MOST_DIGITS: usize = 20;

// Writes a number behind what was written before. Where there is no memory for it, nothing is written.
pub fn push_number(out: &mut Vec<u8>, number: u64) -> Result<(), AllocError>
    ensures { out.new.items ≡ (if is_ok result then out.old.items ++ decimal number else out.old.items) }
{
    // from the last digit to the first, at the end of the array
    let mut digits = [0; MOST_DIGITS];
    let mut from = MOST_DIGITS;
    let mut left = number;
    while left >= 10 {
        from -= 1;
        digits[from] = b'0' + (left % 10) as u8;
        left /= 10;
    }
    from -= 1;
    digits[from] = b'0' + left as u8;
    out.extend_from_slice(&digits[from..])
}
