// The makers on a store that row 1 has passed: each makes an entry whose parts are there, and leaves word 0 to the call.
#![tactic(auto)]

ghost use Rattle.std.specs.Prelude.{◌≡◌, true, ◌∷◌, ◌++◌, ◌+◌, ◌*◌, ◌≤◌, ◌<◌, length, take, drop};
ghost use Rattle.std.specs.Float.{binary64};
ghost use Rattle.std.specs.Float.Ieee.{of_bits};
ghost use Rattle.index.specs.Covers.{Covers};
ghost use Rattle.words.specs.Made.{make};
ghost use Rattle.words.specs.Ran.{Segments, Runs};
ghost use Rattle.type_float.specs.Float.{word_of, is_size};
ghost use Rattle.wellformed.specs.Entry.{deepest, most_counted};
ghost use Rattle.words.specs.Columns.{word, struct_size};
ghost use Rattle.words.specs.Words.{field_size};
ghost use Rattle.makers.specs.Entries.{int_entry, float_entry, tuple_entry, fref_entry, pointer_entry, memory_entry, field_count, field_types, field_words, struct_entry};
ghost use Rattle.makers.specs.Fit.{ValuesFit};

use type_float::Float;
use words::{Interned, columns, kinds, limits};

// The words of entries with few parts and with the most: few parts are given few words, since all of them are cleared at each call.
const FEW_ELEMENTS: usize = 7;

const SHORT_TUPLE: usize = 1 + FEW_ELEMENTS;

const LONGEST_TUPLE: usize = 1 + limits::MOST_COUNTED;

const FEW_FIELDS: usize = 10;

const SHORT_STRUCT: usize = columns::FIELDS + columns::FIELD * FEW_FIELDS;

const LONGEST_STRUCT: usize = columns::FIELDS + columns::FIELD * limits::MOST_COUNTED;

pub fn int(
    old: &[u64],
    new: &mut [u64],
    used: usize,
    min: u64,
    max: u64,
    index: &[u64],
) -> Option<Interned>
    requires segments { Segments old.now new.old used }
    requires covers { Covers (take used (old.now ++ new.old)) index.now }
    ensures { Runs (λ u. make u (int_entry min max)) old.now new.old used new.new result }
{
    index::intern(old, new, used, &[kinds::INT_HEAD, min, max], index)
}

// A float's size and constant come as a struct. The bits stand beside it, since all NaNs are one f64.
pub fn float(
    old: &[u64],
    new: &mut [u64],
    used: usize,
    f: Float,
    bits: u64,
    index: &[u64],
) -> Option<Interned>
    requires segments { Segments old.now new.old used }
    requires sz_value { (is_size f.sz ≡ true) × (f.con ≡ of_bits binary64 bits) }
    requires covers { Covers (take used (old.now ++ new.old)) index.now }
    ensures { Runs (λ u. make u (float_entry (word_of f.sz) bits)) old.now new.old used new.new result }
{
    let size = type_float::size_word(f.sz);
    let con = type_float::bits_of(f.con, bits);
    index::intern(old, new, used, &[kinds::FLOAT_HEAD, size, con], index)
}

// A tuple, whose entry is built in the first of some words.
fn tuple_in<const WORDS: usize>(
    old: &[u64],
    new: &mut [u64],
    used: usize,
    types: &[u64],
    index: &[u64],
) -> Option<Interned>
    requires segments { Segments old.now new.old used }
    requires types_len_bound { (length types.now ≤ most_counted) × (1 + length types.now ≤ WORDS) × (WORDS ≤ 65536) }
    requires covers { Covers (take used (old.now ++ new.old)) index.now }
    ensures { Runs (λ u. make u (tuple_entry types.now u)) old.now new.old used new.new result }
{
    let d = call::deep(old, new, used, types);
    let n = types.len();
    let mut e = [0u64; WORDS];
    words::headed(
        &mut e,
        kinds::TUPLE + kinds::DEPTH * (1 + d) + kinds::COUNT * (n as u64),
        types,
    );
    index::intern(old, new, used, &e[..1 + n], index)
}

// Few elements are given few words for their entry, since all of them are cleared at each call.
pub fn tuple(
    old: &[u64],
    new: &mut [u64],
    used: usize,
    types: &[u64],
    index: &[u64],
) -> Option<Interned>
    requires segments { Segments old.now new.old used }
    requires types_len_bound { length types.now ≤ most_counted }
    requires covers { Covers (take used (old.now ++ new.old)) index.now }
    ensures { Runs (λ u. make u (tuple_entry types.now u)) old.now new.old used new.new result }
{
    if types.len() <= FEW_ELEMENTS {
        return tuple_in::<SHORT_TUPLE>(old, new, used, types, index);
    }
    tuple_in::<LONGEST_TUPLE>(old, new, used, types, index)
}

pub fn fref(old: &[u64], new: &mut [u64], used: usize, name: u64, index: &[u64]) -> Option<Interned>
    requires segments { Segments old.now new.old used }
    requires covers { Covers (take used (old.now ++ new.old)) index.now }
    ensures { Runs (λ u. make u (fref_entry name)) old.now new.old used new.new result }
{
    index::intern(old, new, used, &[kinds::FREF_HEAD, name], index)
}

pub fn pointer(
    old: &[u64],
    new: &mut [u64],
    used: usize,
    to: u64,
    nil: u64,
    index: &[u64],
) -> Option<Interned>
    requires segments { Segments old.now new.old used }
    requires covers { Covers (take used (old.now ++ new.old)) index.now }
    ensures { Runs (λ u. make u (pointer_entry to nil u)) old.now new.old used new.new result }
{
    let d = call::depth_on(old, new, used, to);
    index::intern(
        old,
        new,
        used,
        &[kinds::MEM_PTR + kinds::DEPTH * (1 + d), to, nil],
        index,
    )
}

pub fn memory(
    old: &[u64],
    new: &mut [u64],
    used: usize,
    alias: u64,
    t: u64,
    index: &[u64],
) -> Option<Interned>
    requires segments { Segments old.now new.old used }
    requires covers { Covers (take used (old.now ++ new.old)) index.now }
    ensures { Runs (λ u. make u (memory_entry alias t u)) old.now new.old used new.new result }
{
    let d = call::depth_on(old, new, used, t);
    index::intern(
        old,
        new,
        used,
        &[kinds::MEM + kinds::DEPTH * (1 + d), alias, t],
        index,
    )
}

// The depth of the deepest of the lent fields' types.
pub fn fields_deep(old: &[u64], new: &[u64], used: usize, fields: &[u64]) -> u64
    requires { (length old.now ≤ used) × (used ≤ length old.now + length new.now) }
    ensures { (result ≡ deepest (word (take used (old.now ++ new.now))) (field_types fields.now)) × (result < 256) }
{
    let mut d = 0;
    for i in 0..fields.len() / columns::LENT_FIELD {
        let t = fields[columns::LENT_TYPE + columns::LENT_FIELD * i];
        d = call::depth_on(old, new, used, t).max(d);
    }
    d
}

// Fills the first words of `dst` with the words of the lent fields.
fn field_words(dst: &mut [u64], fields: &[u64])
    requires fields_in_bounds { field_size * field_count fields.now ≤ length dst.old }
    requires values_fit { ValuesFit fields.now }
    ensures { dst.new ≡ field_words (field_count fields.now) 0 fields.now ++ drop (field_size * field_count fields.now) dst.old }
{
    for i in 0..fields.len() / columns::LENT_FIELD {
        let at = columns::LENT_FIELD * i;
        let flags = 2 * fields[at + columns::LENT_ALIAS] + fields[at + columns::LENT_FINAL];
        words::write(
            &mut dst[columns::FIELD * i..],
            &[fields[at], fields[at + columns::LENT_TYPE], flags],
        );
    }
}

// The entry of a struct, in the first words of `e`.
fn struct_words(e: &mut [u64], head: u64, name: u64, fields: &[u64])
    requires fields_in_bounds { struct_size (field_count fields.now) ≤ length e.old }
    requires values_fit { ValuesFit fields.now }
    ensures { e.new ≡ (head ∷ name ∷ field_words (field_count fields.now) 0 fields.now) ++ drop (struct_size (field_count fields.now)) e.old }
{
    field_words(&mut e[columns::FIELDS..], fields);
    e[columns::NAME] = name;
    e[0] = head;
}

// A struct, whose entry is built in the first of some words.
fn structure_in<const WORDS: usize>(
    old: &[u64],
    new: &mut [u64],
    used: usize,
    name: u64,
    fields: &[u64],
    index: &[u64],
) -> Option<Interned>
    requires segments { Segments old.now new.old used }
    requires fields_bound { (field_count fields.now ≤ most_counted) × (struct_size (field_count fields.now) ≤ WORDS) × (WORDS ≤ 65536) × ValuesFit fields.now }
    requires covers { Covers (take used (old.now ++ new.old)) index.now }
    ensures { Runs (λ u. make u (struct_entry name fields.now u)) old.now new.old used new.new result }
{
    let d = fields_deep(old, new, used, fields);
    let n = fields.len() / columns::LENT_FIELD;
    let mut e = [0u64; WORDS];
    struct_words(
        &mut e,
        kinds::STRUCT + kinds::DEPTH * (1 + d) + kinds::COUNT * (n as u64),
        name,
        fields,
    );
    index::intern(
        old,
        new,
        used,
        &e[..columns::FIELDS + columns::FIELD * n],
        index,
    )
}

// Few fields are given few words for their entry, since all of them are cleared at each call.
pub fn structure(
    old: &[u64],
    new: &mut [u64],
    used: usize,
    name: u64,
    fields: &[u64],
    index: &[u64],
) -> Option<Interned>
    requires segments { Segments old.now new.old used }
    requires fields_bound { (field_count fields.now ≤ most_counted) × ValuesFit fields.now }
    requires covers { Covers (take used (old.now ++ new.old)) index.now }
    ensures { Runs (λ u. make u (struct_entry name fields.now u)) old.now new.old used new.new result }
{
    if fields.len() / columns::LENT_FIELD <= FEW_FIELDS {
        return structure_in::<SHORT_STRUCT>(old, new, used, name, fields, index);
    }
    structure_in::<LONGEST_STRUCT>(old, new, used, name, fields, index)
}
