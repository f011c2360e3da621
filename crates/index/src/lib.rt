// Making an entry: the lowest equal one is handed back, else the entry is appended. What is searched first is an index, a hash table in a lent list
// of words, which is read only while an operation runs: it has the entries of the first words of the store, and those behind them are looked
// through one by one. With an index of no words, all are.
#![tactic(auto)]

ghost use Rattle.std.specs.Prelude.{◌≡◌, true, ◌++◌, ℕ, ◌+◌, ◌/◌, ◌<◌, ◌≤◌, length, take, drop, get_or};
ghost use Rattle.words.specs.Words.{size_of, eqs, fills};
ghost use Rattle.words.specs.Table.{find_in, starts as startsIn};
ghost use Rattle.words.specs.Made.{make};
ghost use Rattle.words.specs.Ran.{Segments, Runs};
ghost use Rattle.index.specs.Digest.{stirred, hash_from, slot_of, bucket_of};
ghost use Rattle.index.specs.Chains.{added};
ghost use Rattle.index.specs.Covers.{indexed_to, Covers, Blank, Opened};

use words::{Interned, Wanted};

// The numbers of the hash (specs/Digest.antt).
const HALF: u64 = 4294967296;

const LOWER_FACTOR: u64 = 2654435769;

const UPPER_FACTOR: u64 = 2246822519;

// ---- where an entry is looked for

// A word more of a hash.
#[tactic(auto, unfolding(crate::specs::Digest::stirred))]
pub fn stir(x: u64) -> u64
    ensures { result ≡ stirred x }
{
    let y = ((x % HALF) * LOWER_FACTOR) ^ ((x / HALF) * UPPER_FACTOR);
    y ^ (y / HALF)
}

#[tactic(auto, using(crate::proofs::Hashed::hash_word, crate::proofs::Hashed::hash_all))]
fn hash<W: Wanted>(entry: W) -> u64
    ensures { result ≡ hash_from 0 (W.entry entry) }
{
    let mut h = 0;
    for i in 0..entry.size() {
        h = stir(h ^ entry.word(i));
    }
    h
}

// The slot of a hash among n.
#[tactic(auto, using(crate::proofs::Hashed::slot_fraction, crate::proofs::Hashed::slot_rest))]
pub fn slot(n: usize, h: u64) -> usize
    requires { 0 < n }
    ensures { (result ≡ slot_of n h) × (result < n) }
{
    if n < HALF as usize {
        return ((h % HALF) * (n as u64) / HALF) as usize;
    }
    (h % (n as u64)) as usize
}

#[tactic(auto, unfolding(crate::specs::Digest::bucket_of))]
fn bucket<W: Wanted>(half: usize, entry: W) -> usize
    requires { 0 < half }
    ensures { (result ≡ bucket_of half (W.entry entry)) × (result < half) }
{
    slot(half, hash(entry))
}

// How many of the words are in the index.
#[tactic(auto, using(std::proofs::lemmas::Bool::Decides::nat_tests), unfolding(crate::specs::Covers::indexed_to))]
pub fn covered(index: &[u64]) -> usize
    ensures { result ≡ indexed_to index.now }
{
    let half = index.len() / 2;
    if half == 0 {
        return 1;
    }
    index[half] as usize
}

// ---- the search

// Whether the entry at a handle is this one.
fn is_at<W: Wanted>(old: &[u64], new: &[u64], used: usize, at: usize, entry: W) -> bool
    requires { Segments old.now new.now used × (startsIn (take used (old.now ++ new.now)) at ≡ true) }
    ensures { result ≡ eqs (take (size_of (get_or (take used (old.now ++ new.now)) at 0)) (drop at (take used (old.now ++ new.now)))) (W.entry entry) }
{
    if at < old.len() {
        return entry.same(words::entry_at(old, at));
    }
    entry.same(words::entry_at(new, at - old.len()))
}

// The lowest handle of an entry equal to `entry` among those in the index. A chain goes from the newest to the oldest, and copies stay in it: the
// last equal entry is the lowest.
fn search<W: Wanted>(
    old: &[u64],
    new: &[u64],
    used: usize,
    entry: W,
    index: &[u64],
) -> Option<usize>
    requires segments { Segments old.now new.now used }
    requires covers { Covers (take used (old.now ++ new.now)) index.now }
    ensures { result ≡ find_in (take (indexed_to index.now) (take used (old.now ++ new.now))) (W.entry entry) }
{
    let half = index.len() / 2;
    if half == 0 {
        return None;
    }
    let b = bucket(half, entry);
    let mut at = index[b] as usize;
    let mut lowest = None;
    while at != 0 {
        if is_at(old, new, used, at, entry) {
            lowest = Some(at);
        }
        at = (index[half + at] - 1) as usize;
    }
    lowest
}

// The lowest handle of an entry equal to `entry`.
pub fn find<W: Wanted>(
    old: &[u64],
    new: &[u64],
    used: usize,
    entry: W,
    index: &[u64],
) -> Option<usize>
    requires segments { Segments old.now new.now used }
    requires covers { Covers (take used (old.now ++ new.now)) index.now }
    ensures { result ≡ find_in (take used (old.now ++ new.now)) (W.entry entry) }
{
    if let Some(h) = search(old, new, used, entry, index) {
        return Some(h);
    }
    words::find(old, new, used, covered(index), entry).found
}

// Hands back the lowest handle of an entry equal to `entry`, else appends it, where it fits.
pub fn intern_wanted<W: Wanted>(
    old: &[u64],
    new: &mut [u64],
    used: usize,
    entry: W,
    index: &[u64],
) -> Option<Interned>
    requires segments { Segments old.now new.old used }
    requires covers { Covers (take used (old.now ++ new.old)) index.now }
    ensures { Runs (λ u. make u (W.entry entry)) old.now new.old used new.new result }
{
    if let Some(handle) = find(old, new, used, entry, index) {
        return Some(Interned { handle, used });
    }
    let at = used - old.len();
    let n = entry.size();
    if new.len() - at < n {
        return None;
    }
    entry.write(&mut new[at..]);
    Some(Interned {
        handle: used,
        used: used + n,
    })
}

// The same for an entry whose words are lent.
pub fn intern(
    old: &[u64],
    new: &mut [u64],
    used: usize,
    entry: &[u64],
    index: &[u64],
) -> Option<Interned>
    requires segments { Segments old.now new.old used }
    requires covers { Covers (take used (old.now ++ new.old)) index.now }
    ensures { Runs (λ u. make u entry.now) old.now new.old used new.new result }
{
    intern_wanted(old, new, used, entry, index)
}

// ---- making the index

// Adds an entry, the newest, to the index.
#[tactic(auto, unfolding(crate::specs::Chains::added))]
fn add(index: &mut [u64], at: usize, entry: &[u64])
    requires { (at < length index.old / 2) × ((b : ℕ) → b < length index.old / 2 → get_or index.old b 0 ≤ at) }
    ensures { index.new ≡ added index.old at entry.now }
{
    let half = index.len() / 2;
    let b = bucket(half, entry);
    index[half + at] = index[b] + 1;
    index[b] = at as u64;
}

// Takes the entries behind those of the index into it, where there is room for all.
pub fn extend(words: &[u64], used: usize, index: &mut [u64])
    requires { (used ≤ length words.now) × (fills 0 (drop 1 (take used words.now)) ≡ true) × Covers (take used words.now) index.old }
    ensures { Opened (take used words.now) index.new }
{
    let half = index.len() / 2;
    if half < used {
        return;
    }
    let mut at = covered(index);
    // By its position: the step is the size of the entry there, so that no iterator fits.
    while at < used {
        let entry = words::entry_at(words, at);
        add(index, at, entry);
        at += entry.len();
    }
    index[half] = at as u64;
}

// Makes an index of no entry.
#[tactic(auto, using(crate::proofs::Keep::blank_none, crate::proofs::Keep::blank_one, words::proofs::Zeros::blank_word))]
pub fn blank(index: &mut [u64])
    ensures { Blank index.new }
{
    words::clear(index);
    let half = index.len() / 2;
    if half == 0 {
        return;
    }
    index[half] = 1;
}

// Makes the index of the used words, where there is room for them.
pub fn open(words: &[u64], used: usize, index: &mut [u64])
    requires { (1 ≤ used) × (used ≤ length words.now) × (fills 0 (drop 1 (take used words.now)) ≡ true) }
    ensures { Opened (take used words.now) index.new }
{
    blank(index);
    extend(words, used, index);
}
