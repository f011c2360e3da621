// Row 1 of the refusals: whether a list of words is well formed.
#![tactic(auto)]

ghost use Rattle.std.specs.Prelude.{◌≡◌, ◌≢◌, ◌+◌, ◌-◌, ◌*◌, ◌<◌, ◌≤◌, max, min, length, drop, get_or};
ghost use Rattle.source.specs.Source.{unpacked, stored};
ghost use Rattle.words.specs.Kinds.{Name, Tuple, Struct};
ghost use Rattle.words.specs.Words.{size_of, field_size};
ghost use Rattle.bitset.specs.Bitset.{word_bits, bit_at};
ghost use Rattle.wellformed.specs.Entry.{zero_filled, float_ok, kind_in, kind_at, is_name, is_type, deepest_allowed, ok_entry};
ghost use Rattle.wellformed.specs.Form.{all_zero, heads_at, longest_allowed, well_formed, behind_fresh};
ghost use Rattle.wellformed.specs.Scan.{head_depth, part_depth, field_depth, parts_depth, fields_depth, one_over, Marks, Passed, Window, Going, Scanned, Verified, largest_entry};
ghost use Rattle.words.specs.Columns.{struct_size, first_field, kind_on, depth_on, count_on};

use words::{columns, kinds, limits};

// Whether all words are 0.
#[tactic(auto, using(crate::proofs::Zero::not_zero, crate::proofs::Zero::a_zero, crate::proofs::Zero::no_more))]
pub fn zeros(a: &[u64]) -> bool
    ensures { result ≡ all_zero a.now }
{
    for w in a {
        if *w != 0 {
            return false;
        }
    }
    true
}

// Whether what follows a name's bytes in the last word is 0.
#[tactic(auto, unfolding(crate::specs::Entry::zero_filled))]
pub fn padding(e: &[u64]) -> bool
    requires { 1 ≤ length e.now }
    ensures { result ≡ zero_filled e.now }
{
    let n = e[0] / kinds::COUNT;
    let s = 8 * (n % 8);
    s == 0 || e[e.len() - 1] >> s == 0
}

// An entry keeps a float's size plus 64: the five sizes are multiples of 32 from 0 to 128, and size 0, a constant's, is 64.
pub const SIZE_ZERO: u64 = 64;

pub const LARGEST_SIZE: u64 = 2 * SIZE_ZERO;

// Whether a float's size and constant are ones that the maker takes.
#[tactic(auto, unfolding(crate::specs::Entry::float_ok))]
pub fn float_ok(size: u64, bits: u64) -> bool
    ensures { result ≡ float_ok size bits }
{
    size == SIZE_ZERO || bits == 0 && size <= LARGEST_SIZE && size % 32 == 0
}

pub fn larger(a: u64, b: u64) -> u64
    ensures { result ≡ max a b }
{
    a.max(b)
}

// An entry is checked against the words of its store, in two sources, and the bits that mark where the earlier entries start. They are three arguments, and not one struct: with a struct, lent or copied, row 1 took up to a sixth longer, since the compiler knew no more how long a list may be where a handle is looked up.

// The head of the earlier entry at h, which stands in `words`, or a head of no kind. A plain store's words are all there.
#[tactic(auto, using(crate::proofs::Parts::bit_room, crate::proofs::Parts::unmarked, crate::proofs::Parts::near_head))]
fn near_head(words: &[u64], tail: &[u8], bits: &[u64], h: u64) -> u64
    requires marks { Marks (stored words.now tail.now) bits.now }
    requires h_in_bounds { h < length words.now }
    ensures { result ≡ heads_at (bit_at bits.now) (stored words.now tail.now) h }
{
    let at = h as usize;
    if !bitset::marked(bits, at) {
        return kinds::NO_HEAD;
    }
    words[at]
}

// The head of the earlier entry at h, or a head of no kind.
#[tactic(auto, using(crate::proofs::Parts::marked_in, crate::proofs::Parts::unmarked, crate::proofs::Parts::marked_head))]
fn head_at(words: &[u64], tail: &[u8], bits: &[u64], h: u64) -> u64
    requires { Marks (stored words.now tail.now) bits.now }
    ensures { result ≡ heads_at (bit_at bits.now) (stored words.now tail.now) h }
{
    if h < words.len() as u64 {
        return near_head(words, tail, bits, h);
    }
    if !bitset::contains(bits, h) {
        return kinds::NO_HEAD;
    }
    source::word_at(words, tail, h as usize)
}

// The depth in a head, if its kind is from low to high.
#[tactic(auto, using(crate::proofs::Parts::too_low, crate::proofs::Parts::too_high, crate::proofs::Parts::right_kind))]
fn depth_in(head: u64, low: u64, high: u64) -> Option<u64>
    ensures { result ≡ head_depth (kind_in low high) head }
{
    let kind = head % kinds::DEPTH;
    if kind < low || kind > high {
        return None;
    }
    Some(head / kinds::DEPTH % kinds::DEPTH)
}

// The depth of the earlier entry at h, if its kind is from low to high.
#[tactic(auto, using(crate::proofs::Parts::by_head))]
fn part(words: &[u64], tail: &[u8], bits: &[u64], h: u64, low: u64, high: u64) -> Option<u64>
    requires { Marks (stored words.now tail.now) bits.now }
    ensures { result ≡ part_depth (heads_at (bit_at bits.now) (stored words.now tail.now)) (kind_in low high) h }
{
    depth_in(head_at(words, tail, bits, h), low, high)
}

// The same of an entry that stands in `words`, if it is a type.
#[tactic(auto, using(crate::proofs::Parts::by_head))]
fn near_type(words: &[u64], tail: &[u8], bits: &[u64], h: u64) -> Option<u64>
    requires marks { Marks (stored words.now tail.now) bits.now }
    requires h_in_bounds { h < length words.now }
    ensures { result ≡ part_depth (heads_at (bit_at bits.now) (stored words.now tail.now)) is_type h }
{
    depth_in(near_head(words, tail, bits, h), kinds::BOT, kinds::MEM)
}

// The depth of the deepest of the types whose handles are `parts`, and of one that is `deepest` deep.
#[tactic(auto, using(crate::proofs::Parts::no_part, crate::proofs::Parts::bad_part))]
fn far_elements(
    words: &[u64],
    tail: &[u8],
    bits: &[u64],
    parts: &[u64],
    deepest: u64,
) -> Option<u64>
    requires { Marks (stored words.now tail.now) bits.now }
    ensures { result ≡ parts_depth (heads_at (bit_at bits.now) (stored words.now tail.now)) deepest parts.now }
{
    let mut d = deepest;
    for h in parts {
        d = larger(d, part(words, tail, bits, *h, kinds::BOT, kinds::MEM)?);
    }
    Some(d)
}

// The depth of the deepest of the types whose handles are `parts`. At the first that is not in `words` the loop is left for another, so that for a plain store it has nothing to do with bytes: with both in one loop row 1 took up to a quarter longer.
#[tactic(auto, using(crate::proofs::Parts::no_part, crate::proofs::Parts::bad_part))]
fn elements(words: &[u64], tail: &[u8], bits: &[u64], parts: &[u64]) -> Option<u64>
    requires { Marks (stored words.now tail.now) bits.now }
    ensures { result ≡ parts_depth (heads_at (bit_at bits.now) (stored words.now tail.now)) 0 parts.now }
{
    let mut d = 0;
    for (i, h) in parts.iter().enumerate() {
        if *h >= words.len() as u64 {
            return far_elements(words, tail, bits, &parts[i..], d);
        }
        d = larger(d, near_type(words, tail, bits, *h)?);
    }
    Some(d)
}

// The depth of a field's type, if the field is right, from the heads of its name and its type.
#[tactic(auto, unfolding(crate::specs::Scan::field_depth))]
fn field(name: u64, flags: u64, type_head: u64) -> Option<u64>
    ensures { result ≡ field_depth name flags type_head }
{
    if name % kinds::DEPTH != kinds::NAME || flags > limits::LARGEST_FLAGS {
        return None;
    }
    depth_in(type_head, kinds::BOT, kinds::MEM)
}

// The depth of the deepest type of a struct's n fields from index `from` on, and of one that is `deepest` deep.
#[tactic(auto, using(crate::proofs::Parts::no_field, crate::proofs::Parts::bad_field))]
fn far_fields(
    words: &[u64],
    tail: &[u8],
    bits: &[u64],
    e: &[u64],
    from: usize,
    n: usize,
    deepest: u64,
) -> Option<u64>
    requires marks { Marks (stored words.now tail.now) bits.now }
    requires e_len { length e.now ≡ struct_size n }
    requires from_in_bounds { from ≤ n }
    ensures { result ≡ fields_depth (heads_at (bit_at bits.now) (stored words.now tail.now)) deepest (n - from) (first_field 0 + field_size * from) e.now }
{
    let mut d = deepest;
    for j in from..n {
        let i = columns::FIELDS + columns::FIELD * j;
        let name = head_at(words, tail, bits, e[i]);
        let t = head_at(words, tail, bits, e[i + columns::FIELD_TYPE]);
        d = larger(d, field(name, e[i + columns::FLAGS], t)?);
    }
    Some(d)
}

// The depth of the deepest type of a struct's n fields. The loop is left at the first handle that is not in `words`, as above.
#[tactic(auto, using(crate::proofs::Parts::no_field, crate::proofs::Parts::bad_field))]
fn fields(words: &[u64], tail: &[u8], bits: &[u64], e: &[u64], n: usize) -> Option<u64>
    requires marks { Marks (stored words.now tail.now) bits.now }
    requires e_len { length e.now ≡ struct_size n }
    ensures { result ≡ fields_depth (heads_at (bit_at bits.now) (stored words.now tail.now)) 0 n (first_field 0) e.now }
{
    let mut d = 0;
    for j in 0..n {
        let i = columns::FIELDS + columns::FIELD * j;
        let h = e[i];
        let k = e[i + columns::FIELD_TYPE];
        if h >= words.len() as u64 || k >= words.len() as u64 {
            return far_fields(words, tail, bits, e, j, n, d);
        }
        let name = near_head(words, tail, bits, h);
        let t = near_head(words, tail, bits, k);
        d = larger(d, field(name, e[i + columns::FLAGS], t)?);
    }
    Some(d)
}

// Whether a depth is one more than that of the deepest part.
#[tactic(auto, using(crate::proofs::Parts::not_zero, crate::proofs::Parts::one_over_is, crate::proofs::Parts::over_bad))]
fn over(depth: u64, d: Option<u64>) -> bool
    ensures { result ≡ one_over depth d }
{
    let Some(x) = d else {
        return false;
    };
    depth > 0 && depth - 1 == x
}

// Whether the earlier entry at h is a name.
fn is_name(words: &[u64], tail: &[u8], bits: &[u64], h: u64) -> bool
    requires { Marks (stored words.now tail.now) bits.now }
    ensures { result ≡ kind_at (heads_at (bit_at bits.now) (stored words.now tail.now)) is_name h }
{
    head_at(words, tail, bits, h) % kinds::DEPTH == kinds::NAME
}

// The same as `entry`, of an entry whose n is 0 and whose kind does not count.
#[tactic(auto, using(crate::proofs::ByKind::other_kind))]
fn uncounted(words: &[u64], tail: &[u8], bits: &[u64], e: &[u64]) -> bool
    requires marks { Marks (stored words.now tail.now) bits.now }
    requires e_len { length e.now ≡ size_of (get_or e.now 0 0) }
    requires none { count_on e.now 0 ≡ 0 }
    requires shallow { depth_on e.now 0 ≤ deepest_allowed }
    requires no_name { kind_on e.now 0 ≢ Name }
    requires no_tuple { kind_on e.now 0 ≢ Tuple }
    requires no_struct { kind_on e.now 0 ≢ Struct }
    ensures { result ≡ ok_entry (heads_at (bit_at bits.now) (stored words.now tail.now)) e.now }
{
    let head = e[0];
    let depth = head / kinds::DEPTH % kinds::DEPTH;
    match head % kinds::DEPTH {
        kinds::BOT..=kinds::INT => depth == 1,
        kinds::FLOAT => float_ok(e[columns::SIZE], e[columns::BITS]) && depth == 1,
        kinds::FREF => is_name(words, tail, bits, e[columns::NAME]) && depth == 1,
        kinds::MEM_PTR => {
            let target = e[columns::TARGET];
            e[columns::NIL] <= limits::LARGEST_FLAG
                && over(
                    depth,
                    part(words, tail, bits, target, kinds::STRUCT, kinds::FREF),
                )
        }
        kinds::MEM => {
            let inner = e[columns::INNER];
            e[columns::ALIAS] <= limits::LARGEST_ALIAS
                && over(
                    depth,
                    part(words, tail, bits, inner, kinds::BOT, kinds::MEM),
                )
        }
        _ => false,
    }
}

// Whether an entry is one that a maker could have made, with its parts among the marked handles.
pub fn entry(words: &[u64], tail: &[u8], bits: &[u64], e: &[u64]) -> bool
    requires marks { Marks (stored words.now tail.now) bits.now }
    requires e_len { length e.now ≡ size_of (get_or e.now 0 0) }
    ensures { result ≡ ok_entry (heads_at (bit_at bits.now) (stored words.now tail.now)) e.now }
{
    let head = e[0];
    let depth = head / kinds::DEPTH % kinds::DEPTH;
    let n = (head / kinds::COUNT) as usize;
    if n > limits::MOST_COUNTED || depth > limits::DEEPEST {
        return false;
    }
    match head % kinds::DEPTH {
        kinds::NAME => depth == 0 && padding(e),
        kinds::TUPLE => over(depth, elements(words, tail, bits, &e[columns::ELEMENTS..])),
        kinds::STRUCT => {
            is_name(words, tail, bits, e[columns::NAME])
                && over(depth, fields(words, tail, bits, e, n))
        }
        _ => n == 0 && uncounted(words, tail, bits, e),
    }
}

// Checks the entries in a window of the used words, the first at index `from` of it, and marks them. It stops at the window's end, or before an entry that runs past it, and says at which index of the window; None if an entry is not right.
// The window begins at position `base`; `used` words are used. The only place that calls `entry`, so that the compiler puts it here.
fn run(
    words: &[u64],
    tail: &[u8],
    used: usize,
    bits: &mut [u64],
    window: &[u64],
    base: usize,
    from: usize,
) -> Option<usize>
    requires used_in_bounds { (used ≤ length (stored words.now tail.now)) × (length (stored words.now tail.now) ≤ word_bits * length bits.old) }
    requires window { Window (stored words.now tail.now) used base window.now }
    requires from_in_bounds { (from ≤ length window.now) × (Passed (stored words.now tail.now) used bits.old (base + from)) }
    ensures { Going (stored words.now tail.now) used bits.new base (length window.now) result }
{
    // By its index: the step is the size of the entry there, so that no iterator fits.
    let mut i = from;
    while i < window.len() {
        let n = words::size(window[i]);
        if n > window.len() - i {
            return Some(i);
        }
        if !entry(words, tail, bits, &window[i..i + n]) {
            return None;
        }
        bitset::mark(bits, base + i);
        i += n;
    }
    Some(i)
}

// Whether entries fill the words from 1 to used, each with its parts before it. If so, the bits mark where they start. The words are one window.
fn entries(words: &[u64], used: usize, bits: &mut [u64]) -> bool
    requires { (1 ≤ used) × (used ≤ length words.now) × (length words.now ≤ word_bits * length bits.old) }
    ensures { Scanned words.now used bits.new result }
{
    bitset::clear(bits);
    run(words, &[], used, bits, &words[..used], 0, 1) == Some(used)
}

// The same for words in two sources, in windows that are copied to `room`, which has room for the largest entry.
#[tactic(auto, using(crate::proofs::Passed::all_good))]
fn entries_in(words: &[u64], tail: &[u8], used: usize, bits: &mut [u64], room: &mut [u64]) -> bool
    requires le_used { (1 ≤ used) × (used ≤ length (stored words.now tail.now)) × (length (stored words.now tail.now) ≤ word_bits * length bits.old) }
    requires largest_entry_in_bounds { largest_entry ≤ length room.old }
    ensures { Scanned (stored words.now tail.now) used bits.new result }
{
    bitset::clear(bits);
    // By its position: the step is how far the entries of the window went.
    let mut at = 1;
    while at < used {
        let m = room.len().min(used - at);
        source::gather(words, tail, at, m, room);
        let Some(i) = run(words, tail, used, bits, &room[..m], at, 0) else {
            return false;
        };
        if i == 0 {
            return false;
        }
        at += i;
    }
    true
}

// The words 1 to 93 of every store.
pub const FRESH: [u64; limits::FRESH_ENTRIES] = [
    262144,
    1347376164,
    262144,
    1414480420,
    257,
    258,
    259,
    260,
    261,
    0,
    0,
    261,
    1,
    1,
    261,
    0,
    1,
    264,
    1,
    264,
    3,
    261,
    9223372036854775807,
    9223372036854775808,
    261,
    9223372036854775808,
    9223372036854775807,
    261,
    2,
    2,
    261,
    18446744073709551488,
    127,
    261,
    18446744073709518848,
    32767,
    261,
    18446744071562067968,
    2147483647,
    261,
    0,
    255,
    261,
    0,
    65535,
    261,
    0,
    4294967295,
    262,
    0,
    0,
    262,
    32,
    0,
    262,
    64,
    0,
    262,
    96,
    0,
    262,
    128,
    0,
    131591,
    7,
    7,
    131591,
    8,
    8,
    131591,
    7,
    8,
    131591,
    8,
    7,
    523,
    4294967295,
    6,
    523,
    4294967295,
    5,
    522,
    20,
    1,
    522,
    18,
    0,
    522,
    18,
    1,
    522,
    20,
    0,
];

// Whether a list of words is well formed. If so, the bits mark where its entries start.
pub fn verify(words: &[u64], bits: &mut [u64]) -> bool
    requires { min (length words.now) longest_allowed ≤ word_bits * length bits.old }
    ensures { Verified words.now bits.new result }
{
    if words.len() < limits::FRESH_LENGTH {
        return false;
    }
    if words.len() > limits::LONGEST {
        return false;
    }
    if !words::same(&words[1..limits::FRESH_LENGTH], &FRESH) {
        return false;
    }
    let w = words[0];
    if w < limits::FRESH_LENGTH as u64 {
        return false;
    }
    if w > words.len() as u64 {
        return false;
    }
    let used = w as usize;
    if !zeros(&words[used..]) {
        return false;
    }
    entries(words, used, bits)
}

// A window of a file's words: at least as long as the largest entry.
const WINDOW: usize = 1024;

// How many words a store has behind the fresh ones, at most.
pub const MOST_LATER: usize = limits::LONGEST - limits::FRESH_LENGTH;

// Row 1 for the store whose words behind the fresh ones are in `tail`, in a list of just that length. If so, the bits mark where its entries start.
pub fn verify_tail(tail: &[u8], bits: &mut [u64]) -> bool
    requires { min (length (behind_fresh (unpacked tail.now))) longest_allowed ≤ word_bits * length bits.old }
    ensures { Verified (behind_fresh (unpacked tail.now)) bits.new result }
{
    let k = tail.len() / 8;
    if k > MOST_LATER {
        return false;
    }
    let used = limits::FRESH_LENGTH + k;
    let mut first = [0u64; limits::FRESH_LENGTH];
    words::headed(&mut first, used as u64, &FRESH);
    let mut room = [0u64; WINDOW];
    entries_in(&first, tail, used, bits, &mut room)
}

// How many words of bits mark the entries of a list, for lists of up to so many words: one bit for each word.
pub const SMALL_MARKS: usize = 64;

pub const SMALL_LIST: usize = bitset::WORD_BITS * SMALL_MARKS;

pub const MIDDLE_MARKS: usize = 1024;

pub const MIDDLE_LIST: usize = bitset::WORD_BITS * MIDDLE_MARKS;

pub const LARGE_MARKS: usize = 16384;

pub const LARGE_LIST: usize = bitset::WORD_BITS * LARGE_MARKS;

// Row 1 with so many words of bits, which stand in this frame. It is put into no other function, so that a small list needs little stack.
#[inline(never)]
fn verify_with<const MARKS: usize>(words: &[u64]) -> bool
    requires enough { min (length words.now) longest_allowed ≤ word_bits * MARKS }
    requires few { MARKS ≤ longest_allowed }
    ensures { result ≡ well_formed words.now }
{
    let mut bits = [0u64; MARKS];
    verify(words, &mut bits)
}

// Row 1.
#[tactic(auto, using(crate::proofs::Limits::no_longer))]
pub fn well_formed(words: &[u64]) -> bool
    ensures { result ≡ well_formed words.now }
{
    let n = words.len();
    if n > limits::LONGEST {
        return false;
    }
    if n <= SMALL_LIST {
        return verify_with::<SMALL_MARKS>(words);
    }
    if n <= MIDDLE_LIST {
        return verify_with::<MIDDLE_MARKS>(words);
    }
    verify_with::<LARGE_MARKS>(words)
}
