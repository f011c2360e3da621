// Bytes as words, eight a word, lowest first. And reading the words of a store in two sources: `words`, and then `tail`, whose bytes hold further words. A plain store has an empty tail.
#![tactic(auto)]

ghost use Rattle.std.specs.Prelude.{◌≡◌, ◌++◌, ◌+◌, ◌<◌, ◌≤◌, length, take, drop, get_or};
ghost use Rattle.source.specs.Packed.{of_bytes};
ghost use Rattle.source.specs.Source.{stored};

// A byte as a word.
pub fn wide(b: u8) -> u64
    ensures { (result ≡ b) × (result < 256) }
{
    u64::from(b)
}

// Four bytes of a text that has them, from a position on, as a number.
#[tactic(auto, using(crate::proofs::Number::four_bytes))]
fn four(text: &[u8], at: usize) -> u64
    requires { at + 4 ≤ length text.now }
    ensures { (result ≡ of_bytes (take 4 (drop at text.now))) × (result < 4294967296) }
{
    let low = wide(text[at]) + 256 * wide(text[at + 1]);
    let high = wide(text[at + 2]) + 256 * wide(text[at + 3]);
    low + 65536 * high
}

// The same for eight bytes. They are written out and not counted, so that a processor reads them as one word: with std's from_le_bytes on a copied array it does not, and row 1 on bytes took up to a half longer.
#[tactic(auto, using(crate::proofs::Number::eight_bytes))]
pub fn eight(text: &[u8], at: usize) -> u64
    requires { at + 8 ≤ length text.now }
    ensures { result ≡ of_bytes (take 8 (drop at text.now)) }
{
    four(text, at) + 4294967296 * four(text, at + 4)
}

// The word at a position.
#[tactic(auto, using(crate::proofs::Both::in_words, crate::proofs::Both::byte_room, crate::proofs::Both::in_bytes))]
pub fn word_at(words: &[u64], tail: &[u8], p: usize) -> u64
    requires { p < length (stored words.now tail.now) }
    ensures { result ≡ get_or (stored words.now tail.now) p 0 }
{
    if p < words.len() {
        return words[p];
    }
    eight(tail, 8 * (p - words.len()))
}

// Copies n words from a position on to the front of `e`.
#[tactic(auto, using(crate::proofs::Both::length_stored, crate::proofs::Both::gather_more, words::proofs::Copy::front_none))]
pub fn gather(words: &[u64], tail: &[u8], at: usize, n: usize, e: &mut [u64])
    requires n_in_bounds { at + n ≤ length (stored words.now tail.now) }
    requires n_in_bounds_2 { n ≤ length e.old }
    ensures { e.new ≡ take n (drop at (stored words.now tail.now)) ++ drop n e.old }
{
    for i in 0..n {
        e[i] = word_at(words, tail, at + i);
    }
}
