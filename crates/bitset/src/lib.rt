// A set of numbers as bits of words: 64 to a word. A caller sees the set as a test, `bit_at`, and never a bit.
#![tactic(auto)]

ghost use Rattle.std.specs.Prelude.{◌≡◌, ◌+◌, ◌<◌, ◌/◌, length};
ghost use Rattle.bitset.specs.Bitset.{word_bits, bit_at, also, nowhere};

// A word has 64 bits.
pub const WORD_BITS: usize = 64;

#[tactic(auto, unfolding(crate::specs::Bitset::bit_at))]
pub fn marked(bits: &[u64], h: usize) -> bool
    requires { h / word_bits < length bits.now }
    ensures { result ≡ bit_at bits.now h }
{
    let i = h / WORD_BITS;
    let k = h % WORD_BITS;
    (bits[i] >> k) % 2 == 1
}

// Whether a number of any size is in the set.
#[tactic(auto, using(crate::proofs::Bit::past_bits))]
pub fn contains(bits: &[u64], h: u64) -> bool
    ensures { result ≡ bit_at bits.now h }
{
    let at = h as usize;
    if at / WORD_BITS >= bits.len() {
        return false;
    }
    marked(bits, at)
}

#[tactic(auto, using(crate::proofs::Bit::marks))]
pub fn mark(bits: &mut [u64], h: usize)
    requires { h / word_bits < length bits.old }
    ensures { bit_at bits.new ≡ also h (bit_at bits.old) }
{
    let i = h / WORD_BITS;
    let k = h % WORD_BITS;
    bits[i] |= 1 << k;
}

#[tactic(auto, using(crate::proofs::Bit::filled))]
pub fn clear(bits: &mut [u64])
    ensures { bit_at bits.new ≡ nowhere }
{
    bits.fill(0);
}
