// A word of a line, read as a number.
ghost use Rattle.std.specs.Prelude.{◌<◌, ◌≤◌, ◌≡◌};
ghost use Rattle.script.specs.Numbers.{digit_of, negative_of, number_of, unsigned_of};

// The number that a word says: decimal digits; `-` before them for the two's complement; `0x` before hex digits.
pub fn number(word: &[u8]) -> Option<u64>
    ensures { result ≡ number_of word.now }
{
    match word {
        [b'-', magnitude @ ..] => negative(unsigned(magnitude, 10, 20)?),
        [b'0', b'x', digits @ ..] => unsigned(digits, 16, 16),
        _ => unsigned(word, 10, 20),
    }
}

// One to `most` digits in a base of at most 16, whose value fits 64 bits. Not by `u64::from_str_radix`, which takes a sign too, and any number of digits.
fn unsigned(word: &[u8], base: u32, most: usize) -> Option<u64>
    requires { (2 ≤ base) × (base ≤ 16) }
    ensures { result ≡ unsigned_of base most word.now }
{
    if word.is_empty() || most < word.len() {
        return None;
    }
    let mut sum: u64 = 0;
    for b in word {
        let digit = char::from(*b).to_digit(base)?;
        sum = sum
            .checked_mul(u64::from(base))?
            .checked_add(u64::from(digit))?;
    }
    Some(sum)
}

// The two's complement of a magnitude of at most 2^63.
fn negative(magnitude: u64) -> Option<u64>
    ensures { result ≡ negative_of (Some magnitude) }
{
    if magnitude <= 1 << 63 {
        Some(magnitude.wrapping_neg())
    } else {
        None
    }
}

// The hex digit, of the lower case, that says a number.
#[tactic(auto, using(crate::proofs::Digits::low_digit, crate::proofs::Digits::high_digit))]
pub fn hex(d: u8) -> u8
    requires { d < 16 }
    ensures { digit_of result ≡ d }
{
    if d < 10 { b'0' + d } else { b'a' - 10 + d }
}
