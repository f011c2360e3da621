// What every call begins and ends with, and the tests that calls make on handles.
#![tactic(auto)]

ghost use Rattle.std.specs.Prelude.{◌≡◌, ◌++◌, ◌+◌, ◌*◌, ◌≤◌, ◌<◌, min, length, take};
ghost use Rattle.words.specs.Words.{depth_of};
ghost use Rattle.bitset.specs.Bitset.{bit_at, word_bits};
ghost use Rattle.wellformed.specs.Entry.{kind_in, kind_at, all, deepest};
ghost use Rattle.call.specs.Refusals.{number_of};
ghost use Rattle.call.specs.Call.{made, left};
ghost use Rattle.call.specs.Steps.{Beginning, finish_in};
ghost use Rattle.words.specs.Columns.{word, kind_on};
ghost use Rattle.wellformed.specs.Form.{longest_allowed};

use words::{Interned, kinds};

// Why a call was turned back: the numbered rows of documents 01 and 02, each with the row's words.
#[derive(Clone, Copy, Debug, PartialEq, Eq)]
pub enum Refusal {
    // store length out of limits, or not well formed
    NoStore = 1,
    // handle starts no entry
    NoEntry = 2,
    // entry of a kind the call does not take
    WrongKind = 3,
    // a value the call does not take: a float's size or bits, an unfinished field, an alias, a flag
    WrongValue = 4,
    // over 255 name bytes, elements or fields
    TooMany = 5,
    // depth over 32
    TooDeep = 6,
    // fields wanted of a forward reference
    NoFields = 7,
    // offset index above the field count
    PastFields = 8,
    // no log size
    NoLogSize = 9,
    // array body a pointer without nil
    NeverNil = 10,
    // output shorter than the answer
    ShortOutput = 11,
    // the entries to append do not fit
    NoRoom = 12,
    // list over 4,096
    LongList = 13,
    // trailer missing or not fitting the length
    NoTrailer = 14,
    // words that form no store, or one with two equal entries
    WrongWords = 15,
}

impl From<Refusal> for u8 {
    ghost from_gives = { λ e n. n ≡ number_of e };

    fn from(e: Refusal) -> u8 {
        e as u8
    }
}

impl From<Refusal> for u32 {
    ghost from_gives = { λ e n. n ≡ number_of e };

    fn from(e: Refusal) -> u32 {
        e as u32
    }
}

// The answer of a call that only reads, by the call: a handle, a number, yes or no; a signed number, as its two's complement word; that there is none; or what a float
// is read as, a constant with its bits or a size alone, as a two's complement word.
#[derive(Clone, Copy)]
pub enum Answer {
    Handle(u64),
    Number(u64),
    Flag(bool),
    Signed(u64),
    Absent,
    Constant(u64),
    Size(u64),
}

// ---- the beginning

// Row 1: the number of used words. If it is answered, the bits mark where the entries start.
pub fn begin(words: &[u64], bits: &mut [u64]) -> Result<usize, Refusal>
    requires { min (length words.now) longest_allowed ≤ word_bits * length bits.old }
    ensures { Beginning words.now bits.new result }
{
    if !wellformed::verify(words, bits) {
        return Err(Refusal::NoStore);
    }
    Ok(words[0] as usize)
}

// ---- the end

// Writes word 0, once; or zeroes the words past `used`, and refuses.
#[tactic(auto, using(crate::proofs::Ways::fin_full))]
pub fn finish(words: &mut [u64], used: usize, r: Option<Interned>) -> Result<u64, Refusal>
    requires { (0 < length words.old) × (used ≤ length words.old) }
    ensures { left (made result) words.new ≡ finish_in used r words.old }
{
    match r {
        Some(m) => {
            words[0] = m.used as u64;
            Ok(m.handle as u64)
        }
        None => {
            words::clear(&mut words[used..]);
            Err(Refusal::NoRoom)
        }
    }
}

// ---- handles

// Whether all handles start entries: row 2.
pub fn all_start(bits: &[u64], hs: &[u64]) -> bool
    ensures { result ≡ all (bit_at bits.now) hs.now }
{
    hs.iter().all(|h| bitset::contains(bits, *h))
}

// The kind of the entry at h.
pub fn kind_on(old: &[u64], new: &[u64], used: usize, h: u64) -> u64
    requires { (length old.now ≤ used) × (used ≤ length old.now + length new.now) }
    ensures { result ≡ kind_on (take used (old.now ++ new.now)) h }
{
    words::word(old, new, used, h as usize) % kinds::DEPTH
}

// Whether the kinds of all entries are from low to high: row 3.
pub fn all_kinds(old: &[u64], new: &[u64], used: usize, hs: &[u64], low: u64, high: u64) -> bool
    requires { (length old.now ≤ used) × (used ≤ length old.now + length new.now) }
    ensures { result ≡ all (kind_at (word (take used (old.now ++ new.now))) (kind_in low high)) hs.now }
{
    hs.iter().all(|h| {
        let k = kind_on(old, new, used, *h);
        low <= k && k <= high
    })
}

// The depth of the entry at h, one byte of its head.
pub fn depth_on(old: &[u64], new: &[u64], used: usize, h: u64) -> u64
    requires { (length old.now ≤ used) × (used ≤ length old.now + length new.now) }
    ensures { (result ≡ depth_of (word (take used (old.now ++ new.now)) h)) × (result < 256) }
{
    words::word(old, new, used, h as usize) / kinds::DEPTH % kinds::DEPTH
}

// The depth of the deepest of the entries at the handles.
pub fn deep(old: &[u64], new: &[u64], used: usize, hs: &[u64]) -> u64
    requires { (length old.now ≤ used) × (used ≤ length old.now + length new.now) }
    ensures { (result ≡ deepest (word (take used (old.now ++ new.now))) hs.now) × (result < 256) }
{
    let mut d: u64 = 0;
    for h in hs {
        d = d.max(depth_on(old, new, used, *h));
    }
    d
}
