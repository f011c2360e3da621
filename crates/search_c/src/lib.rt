// The search for an equal entry, with an index and without, and as it was before an entry was passed over by its head, for the benchmark, whose caller keeps what the functions
// require; no part of the library. An index of no words makes every search look through all entries.
#![tactic(auto)]

ghost use Rattle.std.specs.Prelude.{◌≡◌, true, [], ◌≤◌, length, take, drop};
ghost use Rattle.std.proofs.Math.Seq.{slice};
ghost use Rattle.words.specs.Words.{size_of, fills};
ghost use Rattle.words.specs.Table.{rows, entries, first_of, find_in};
ghost use Rattle.words.specs.Made.{make};
ghost use Rattle.words.specs.Ran.{Segments};
ghost use Rattle.index.specs.Covers.{Covers, Opened};
ghost use Rattle.names.specs.Name.{name_entry, longest_text};
ghost use Rattle.search_c.specs.Handle.{of_found, of_interned, Ready, Left, Told};

use names::Name;
use words::{Interned, Search, Wanted, columns, kinds};

// A handle, 0 for nothing.
fn of_found(f: Option<usize>) -> u64
    ensures { result ≡ of_found f }
{
    f.unwrap_or(0) as u64
}

// A handle, 0 where the entry did not fit.
fn of_interned(i: Option<Interned>) -> u64
    ensures { result ≡ of_interned i }
{
    match i {
        Some(m) => m.handle as u64,
        None => 0,
    }
}

// Makes the index of a store; false, and no index, where the words are not well formed.
#[unsafe(no_mangle)]
pub extern "C" fn bench_open(words: &[u64], index: &mut [u64]) -> bool
    ensures { Ready words.now index.new result }
{
    if !wellformed::well_formed(words) {
        return false;
    }
    let used = words[0];
    index::open(words, used as usize, index);
    true
}

// Takes the entries behind those of the index into it.
#[unsafe(no_mangle)]
pub extern "C" fn bench_extend(words: &[u64], used: usize, index: &mut [u64])
    requires { (used ≤ length words.now) × (fills 0 (drop 1 (take used words.now)) ≡ true) × Covers (take used words.now) index.old }
    ensures { Opened (take used words.now) index.new }
{
    index::extend(words, used, index);
}

// The lowest handle of an entry, 0 for nothing.
#[unsafe(no_mangle)]
pub extern "C" fn bench_find(words: &[u64], used: usize, entry: &[u64], index: &[u64]) -> u64
    requires segments { Segments [] words.now used }
    requires covers { Covers (take used words.now) index.now }
    ensures { result ≡ of_found (find_in (take used words.now) entry.now) }
{
    of_found(index::find(&[], words, used, entry, index))
}

// The handle of an entry, which is appended where there is none; 0 where it does not fit. Word 0 stays as it is.
#[unsafe(no_mangle)]
pub extern "C" fn bench_intern(words: &mut [u64], used: usize, entry: &[u64], index: &[u64]) -> u64
    requires segments { Segments [] words.old used }
    requires covers { Covers (take used words.old) index.now }
    ensures { Left used (make (take used words.old) entry.now) words.old words.new result }
{
    of_interned(index::intern(&[], words, used, entry, index))
}

// The same for a name.
#[unsafe(no_mangle)]
pub extern "C" fn bench_intern_name(
    words: &mut [u64],
    used: usize,
    name: &[u8],
    index: &[u64],
) -> u64
    requires segments { Segments [] words.old used }
    requires name_len_bound { length name.now ≤ longest_text }
    requires covers { Covers (take used words.old) index.now }
    ensures { Left used (make (take used words.old) (name_entry name.now)) words.old words.new result }
{
    of_interned(names::intern_name(&[], words, used, name, false, index))
}

// ---- the search alone, with the number of entries not passed over

// A handle, 0 for nothing; the number goes to `count`.
fn tell(s: Search, count: &mut u64) -> u64
    ensures { (result ≡ of_found s.found) × (count.new ≡ s.count) }
{
    *count = s.count as u64;
    of_found(s.found)
}

// The lowest handle of an entry, 0 for nothing, by looking through all entries.
#[tactic(auto, unfolding(words::specs::Table::entries))]
#[unsafe(no_mangle)]
pub extern "C" fn bench_search(words: &[u64], used: usize, entry: &[u64], count: &mut u64) -> u64
    requires { Segments [] words.now used }
    ensures { Told (entries (take used words.now)) entry.now result count.new }
{
    tell(words::find(&[], words, used, 1, entry), count)
}

// The same for a name.
#[tactic(auto, unfolding(words::specs::Table::entries, names::specs::Name::wrapped))]
#[unsafe(no_mangle)]
pub extern "C" fn bench_search_name(words: &[u64], used: usize, name: &[u8], count: &mut u64) -> u64
    requires segments { Segments [] words.now used }
    requires name_len_bound { length name.now ≤ longest_text }
    ensures { Told (entries (take used words.now)) (name_entry name.now) result count.new }
{
    let name = Name {
        text: name,
        wrap: false,
    };
    tell(words::find(&[], words, used, 1, name), count)
}

// ---- the search as it was before: each entry's size by one match, and each entry compared whole. The benchmark measures it beside the one above, in one run.

// The number of words of an entry, from its head.
#[tactic(auto, using(std::proofs::lemmas::Bool::Decides::nat_tests), unfolding(words::specs::Words::words_after, words::specs::Words::size_of))]
fn size_before(head: u64) -> usize
    ensures { result ≡ size_of head }
{
    let kind = head % kinds::DEPTH;
    let n = (head / kinds::COUNT) as usize;
    match kind {
        kinds::NAME => 1 + (n + 7) / 8, // n bytes, eight a word
        kinds::INT | kinds::FLOAT | kinds::MEM_PTR | kinds::MEM => 3,
        kinds::TUPLE => 1 + n,
        kinds::STRUCT => columns::FIELDS + columns::FIELD * n,
        kinds::FREF => 2,
        _ => 1,
    }
}

// The first entry equal to `entry` among those from `from` to `to`.
fn look_before<W: Wanted>(words: &[u64], from: usize, to: usize, entry: W) -> Option<usize>
    requires { (to ≤ length words.now) × (fills 0 (slice from to words.now) ≡ true) }
    ensures { result ≡ first_of (rows from 0 (slice from to words.now)) (W.entry entry) }
{
    let mut at = from;
    // By its position, as in `words::pass_over`.
    while at < to {
        let n = size_before(words[at]);
        if entry.same(&words[at..at + n]) {
            return Some(at);
        }
        at += n;
    }
    None
}

// The lowest handle of an entry, 0 for nothing.
#[tactic(auto, unfolding(words::specs::Table::find_in, words::specs::Table::entries))]
#[unsafe(no_mangle)]
pub extern "C" fn bench_find_before(words: &[u64], used: usize, entry: &[u64]) -> u64
    requires { Segments [] words.now used }
    ensures { result ≡ of_found (find_in (take used words.now) entry.now) }
{
    of_found(look_before(words, 1, used, entry))
}

// The same for a name.
#[tactic(auto, unfolding(words::specs::Table::find_in, words::specs::Table::entries, names::specs::Name::wrapped))]
#[unsafe(no_mangle)]
pub extern "C" fn bench_find_name_before(words: &[u64], used: usize, name: &[u8]) -> u64
    requires segments { Segments [] words.now used }
    requires name_len_bound { length name.now ≤ longest_text }
    ensures { result ≡ of_found (find_in (take used words.now) (name_entry name.now)) }
{
    let name = Name {
        text: name,
        wrap: false,
    };
    of_found(look_before(words, 1, used, name))
}
