// The check of RFC 1071.
ghost use Rattle.std.specs.Prelude.{◌≡◌, ◌+◌, ◌/◌, ◌%◌, ◌≤◌, length};
ghost use Rattle.block.specs.Check.{check};

// The carries out of the low 16 bits, added back to them.
#[tactic(auto, using(std::proofs::lemmas::Nat::and_mask))]
fn carried(sum: u32) -> u32
    ensures { result ≡ sum % 65536 + sum / 65536 }
{
    (sum & 0xffff) + (sum >> 16)
}

// The check of an even number of bytes.
//
// The words are added up plainly and low byte first, as the processor reads them, which is quick. A sum in one's complement
// comes out the same that way, but for the order of its two bytes.
pub(crate) fn checksum(bytes: &[u8]) -> u16
    requires { (length bytes.now ≤ 512) × (length bytes.now % 2 ≡ 0) }
    ensures { result ≡ check bytes.now }
{
    let (words, _) = bytes.as_chunks::<2>();
    let sum: u32 = words
        .iter()
        .map(|word| u32::from(u16::from_le_bytes(*word)))
        .sum();
    // adding the first carries back can carry once more
    let sum = carried(carried(sum)) as u16;
    !sum.swap_bytes()
}
