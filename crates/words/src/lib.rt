// The store: reading its words, looking through its entries one by one, and writing an entry. A store's words stand in two segments, `old` and
// then `new`; entries are appended to `new` only.
#![tactic(auto)]

ghost use Rattle.std.specs.Prelude.{◌≡◌, true, ◌+◌, ◌^◌, ◌<◌, ◌≤◌, List, ℕ, ◌∷◌, ◌++◌, length, take, drop, get_or, replicate};
ghost use Rattle.std.proofs.Math.Seq.{slice};
ghost use Rattle.words.specs.Words.{words_after, size_of, eqs, fills};
ghost use Rattle.words.specs.Table.{rows};
ghost use Rattle.words.specs.Search.{Searched};
ghost use Rattle.words.specs.Ran.{Segments, Tail, PassedOver};

pub mod columns;
pub mod fresh;
pub mod kinds;
pub mod limits;

// What a search tells: the handle of the lowest equal entry, if there is one, and how many entries it did not pass over (specs/Search.antt).
#[derive(Clone, Copy)]
pub struct Search {
    pub found: Option<usize>,
    pub count: usize,
}

// The number of words of an entry whose n is 0, from its kind.
#[tactic(auto, using(std::proofs::lemmas::Bool::Decides::nat_tests), unfolding(crate::specs::Words::words_after))]
fn least_size(kind: u64) -> usize
    ensures { result ≡ 1 + words_after kind 0 }
{
    match kind {
        kinds::INT | kinds::FLOAT | kinds::MEM_PTR | kinds::MEM => 3,
        kinds::STRUCT | kinds::FREF => 2,
        _ => 1,
    }
}

// The number of words of an entry, from its head.
#[tactic(auto, using(std::proofs::lemmas::Bool::Decides::nat_tests), unfolding(crate::specs::Words::words_after, crate::specs::Words::size_of))]
pub fn size(head: u64) -> usize
    ensures { result ≡ size_of head }
{
    let kind = head % kinds::DEPTH;
    if head < kinds::COUNT {
        return least_size(kind);
    }
    let n = (head / kinds::COUNT) as usize;
    match kind {
        kinds::NAME => 1 + (n + 7) / 8, // n bytes, eight a word
        kinds::TUPLE => 1 + n,
        kinds::STRUCT => columns::FIELDS + columns::FIELD * n,
        _ => least_size(kind),
    }
}

// The same, where the size is known of the head before it, `last`. Equal heads often stand in a row; a processor that expects another one then knows where the next entry begins without waiting for this head.
fn size_after(last: u64, n: usize, head: u64) -> usize
    requires { n ≡ size_of last }
    ensures { result ≡ size_of head }
{
    if head == last {
        return n;
    }
    size(head)
}

// The entry at a position.
#[tactic(auto, using(crate::proofs::Walk::size_pos))]
pub fn entry_at(words: &[u64], at: usize) -> &[u64]
    requires { at + size_of (get_or words.now at 0) ≤ length words.now }
    ensures { result.now ≡ take (size_of (get_or words.now at 0)) (drop at words.now) }
{
    let n = size(words[at]);
    &words[at..at + n]
}

// Whether two lists of words are the same.
#[tactic(auto, using(crate::proofs::Alike::pointwise_eqs))]
pub fn same(a: &[u64], b: &[u64]) -> bool
    ensures { result ≡ eqs a.now b.now }
{
    a == b
}

// The word at a position, 0 past the used words.
pub fn word(old: &[u64], new: &[u64], used: usize, p: usize) -> u64
    requires { (length old.now ≤ used) × (used ≤ length old.now + length new.now) }
    ensures { result ≡ get_or (take used (old.now ++ new.now)) p 0 }
{
    if p < old.len() {
        return old[p];
    }
    if p < used {
        return new[p - old.len()];
    }
    0
}

// ---- what is looked for

// An entry that is looked for or made: one whose words are lent, or one whose words are made one at a time of something else (`names::Name`).
pub trait Wanted: Copy {
    // its words
    ghost entry: { Self → List ℕ };

    // How many they are.
    fn size(&self) -> usize
        ensures { result ≡ length (entry self.now) };

    // The first, its head; 0 where it has none.
    fn head(&self) -> u64
        ensures { result ≡ get_or (entry self.now) 0 0 };

    // One of them.
    fn word(&self, i: usize) -> u64
        requires { i < length (entry self.now) }
        ensures { result ≡ get_or (entry self.now) i 0 };

    // Whether a list of words is the same. Word by word: most lists that are compared in a search are short and differ at the second, where `==` of slices is slower.
    fn same(&self, words: &[u64]) -> bool
        ensures { result ≡ eqs words.now (entry self.now) }
    {
        if words.len() != self.size() {
            return false;
        }
        for i in 0..words.len() {
            if words[i] != self.word(i) {
                return false;
            }
        }
        true
    }

    // Fills the first words of `dst` with them.
    fn write(&self, dst: &mut [u64])
        requires { length (entry self.now) ≤ length dst.old }
        ensures { dst.new ≡ entry self.now ++ drop (length (entry self.now)) dst.old }
    {
        for i in 0..self.size() {
            dst[i] = self.word(i);
        }
    }
}

impl Wanted for &[u64] {
    ghost entry = { λ s. s.now };

    fn size(&self) -> usize {
        self.len()
    }

    fn head(&self) -> u64 {
        self.first().copied().unwrap_or(0)
    }

    fn word(&self, i: usize) -> u64 {
        self[i]
    }

    fn write(&self, dst: &mut [u64]) {
        write(dst, *self);
    }
}

// ---- the search: the head word is compared first, and an entry with another head is passed over

// Where the first entry with this head, which has this size, stands among those from `from` to `to`. The entries before it have another head and are passed over whole.
#[tactic(auto, using(crate::proofs::Walk::inside, crate::proofs::Walk::size_pos, crate::proofs::Passing::stops))]
pub fn pass_over(words: &[u64], from: usize, to: usize, head: u64, size: usize) -> usize
    requires { (to ≤ length words.now) × (fills 0 (slice from to words.now) ≡ true) × (size ≡ size_of head) }
    ensures { PassedOver words.now from to head result }
{
    let mut at = from;
    let mut last = head;
    let mut n = size;
    // By its position: the step is the size of the entry there, so that no iterator fits.
    while at < to {
        let w = words[at];
        if w == head {
            return at;
        }
        n = size_after(last, n, w);
        last = w;
        at += n;
    }
    at
}

// The first entry equal to `entry` among those from `from` to `to` of one segment, whose first word is at position `base` of the store.
fn look<W: Wanted>(words: &[u64], base: usize, from: usize, to: usize, entry: W) -> Search
    requires { (to ≤ length words.now) × (base + length words.now < 2 ^ 63) × (fills 0 (slice from to words.now) ≡ true) }
    ensures { Searched (rows (base + from) 0 (slice from to words.now)) (W.entry entry) result.found result.count }
{
    let head = entry.head();
    let n = size(head);
    let mut at = from;
    let mut count = 0;
    // By its position, as in `pass_over`.
    while at < to {
        at = pass_over(words, at, to, head, n);
        if to <= at {
            return Search { found: None, count };
        }
        if entry.same(&words[at..at + n]) {
            return Search {
                found: Some(base + at),
                count: count + 1,
            };
        }
        count += 1;
        at += n;
    }
    Search { found: None, count }
}

// The first entry equal to `entry` among those from `from` on; from 1 on, among all.
pub fn find<W: Wanted>(old: &[u64], new: &[u64], used: usize, from: usize, entry: W) -> Search
    requires { Segments old.now new.now used × Tail old.now (take used (old.now ++ new.now)) from }
    ensures { Searched (rows from 0 (drop from (take used (old.now ++ new.now)))) (W.entry entry) result.found result.count }
{
    if old.len() <= from {
        return look(new, old.len(), from - old.len(), used - old.len(), entry);
    }
    let first = look(old, 0, from, old.len(), entry);
    if first.found.is_some() {
        return first;
    }
    let second = look(new, old.len(), 0, used - old.len(), entry);
    Search {
        found: second.found,
        count: first.count + second.count,
    }
}

// An entry that is there: its handle, and how many words are used then.
#[derive(Clone, Copy)]
pub struct Interned {
    pub handle: usize,
    pub used: usize,
}

// Fills the first words of `dst` with an entry. Word by word: `copy_from_slice` would have the library for C call `memmove`, which it needs from nowhere else.
pub fn write(dst: &mut [u64], entry: &[u64])
    requires { length entry.now ≤ length dst.old }
    ensures { dst.new ≡ entry.now ++ drop (length entry.now) dst.old }
{
    for i in 0..entry.len() {
        dst[i] = entry[i];
    }
}

// Fills the first words of `dst` with a head and a list.
pub fn headed(dst: &mut [u64], head: u64, list: &[u64])
    requires { 1 + length list.now ≤ length dst.old }
    ensures { dst.new ≡ (head ∷ list.now) ++ drop (1 + length list.now) dst.old }
{
    write(&mut dst[1..], list);
    dst[0] = head;
}

// Zeroes the words of a list.
pub fn clear(words: &mut [u64])
    ensures { words.new ≡ replicate (length words.old) 0 }
{
    words.fill(0);
}
