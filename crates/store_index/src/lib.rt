// The index of an opened store: which words start an entry, and the chains in which an equal entry is found. It takes in what a call appended.
#![tactic(auto)]

ghost use Rattle.std.specs.Prelude.{◌≡◌, true, ◌*◌, ◌≤◌, ◌<◌, length, take, drop};
ghost use Rattle.words.specs.Words.{fills};
ghost use Rattle.words.specs.Table.{starts};
ghost use Rattle.bitset.specs.Bitset.{bit_at, word_bits};
ghost use Rattle.wellformed.specs.Form.{well_formed, longest_allowed};
ghost use Rattle.store_index.specs.StoreIndex.{marks_size, IndexOf};
ghost use Rattle.store_index.specs.Steps.{Stale, Unmarked};

// How many words of an index mark the entries of a list of n words.
pub fn marks_size(n: usize) -> usize
    requires { n ≤ longest_allowed }
    ensures { (result ≡ marks_size n) × (result ≤ marks_size longest_allowed) }
{
    n / bitset::WORD_BITS + 1
}

// Marks the entries from `from` on.
#[tactic(auto, using(crate::proofs::Marks::marking))]
fn mark_from(words: &[u64], from: usize, used: usize, bits: &mut [u64])
    requires from_le_used { (from ≤ used) × (used ≤ length words.now) × (used < word_bits * length bits.old) }
    requires words_value { (fills 0 (drop 1 (take from words.now)) ≡ true) × (1 ≤ from) × (fills 0 (drop 1 (take used words.now)) ≡ true) × (bit_at bits.old ≡ starts (take from words.now)) }
    ensures { bit_at bits.new ≡ starts (take used words.now) }
{
    // From entry to entry, by the size of each: no iterator fits.
    let mut at = from;
    while at < used {
        bitset::mark(bits, at);
        at += words::size(words[at]);
    }
}

// Takes the entries that are not in the index yet into it, if there are any.
#[tactic(auto, using(crate::proofs::Store::extending))]
pub fn extend(words: &[u64], index: &mut [u64])
    requires words_value { well_formed words.now ≡ true }
    requires stale { Stale words.now index.old }
    ensures { IndexOf words.now index.new }
{
    let used = words[0] as usize;
    let k = marks_size(words.len());
    let from = index::covered(&index[k..]);
    if from == used {
        return;
    }
    mark_from(words, from, used, &mut index[..k]);
    index::extend(words, used, &mut index[k..]);
}

// Marks the entries from `from` on, which are in the chains already.
#[tactic(auto, using(crate::proofs::Store::marking))]
pub fn mark_new(words: &[u64], from: usize, index: &mut [u64])
    requires words_value { well_formed words.now ≡ true }
    requires unmarked { Unmarked words.now from index.old }
    ensures { IndexOf words.now index.new }
{
    let end = words[0] as usize;
    let k = marks_size(words.len());
    mark_from(words, from, end, &mut index[..k]);
}
