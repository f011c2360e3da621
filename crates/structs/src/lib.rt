// A tuple, or a struct, made again with other types, on a store that row 1 has passed. The types come as 32-bit numbers and the finals as bytes: a walk down to depth 32 has a list of them in each of its
// frames, and handles are below 2 to the 20.
#![tactic(auto)]

ghost use Rattle.std.specs.Prelude.{◌≡◌, true, ◌++◌, ◌+◌, ◌*◌, ◌≤◌, ◌<◌, length, take, drop};
ghost use Rattle.index.specs.Covers.{Covers};
ghost use Rattle.words.specs.Made.{make};
ghost use Rattle.words.specs.Ran.{Segments, Runs};
ghost use Rattle.wellformed.specs.Entry.{all, is_flag, is_alias_final, most_counted};
ghost use Rattle.words.specs.Columns.{every, first_field, first_flags_on};
ghost use Rattle.structs.specs.Remade.{fields_with, remake};
ghost use Rattle.wellformed.specs.Form.{longest_allowed};
ghost use Rattle.makers.specs.Entries.{lent_size, tuple_entry};

use words::{Interned, columns, limits};

// ---- tuples

// Tuples of few elements are given few words, since all of them are cleared at each call.
const FEW_ELEMENTS: usize = 8;

// Fills the first words of `dst` with these types.
fn widened(dst: &mut [u64], types: &[u32])
    requires { length types.now ≤ length dst.old }
    ensures { dst.new ≡ types.now ++ drop (length types.now) dst.old }
{
    for i in 0..types.len() {
        dst[i] = u64::from(types[i]);
    }
}

// A tuple of these types, which are widened into the first of some words.
fn tuple_in<const WORDS: usize>(
    old: &[u64],
    new: &mut [u64],
    used: usize,
    types: &[u32],
    index: &[u64],
) -> Option<Interned>
    requires segments { Segments old.now new.old used }
    requires types_len_bound { (length types.now ≤ most_counted) × (length types.now ≤ WORDS) × (WORDS ≤ 65536) }
    requires covers { Covers (take used (old.now ++ new.old)) index.now }
    ensures { Runs (λ u. make u (tuple_entry types.now u)) old.now new.old used new.new result }
{
    let n = types.len();
    let mut handles = [0u64; WORDS];
    widened(&mut handles, types);
    makers::tuple(old, new, used, &handles[..n], index)
}

// Makes a tuple of these types.
pub fn tuple_of(
    old: &[u64],
    new: &mut [u64],
    used: usize,
    types: &[u32],
    index: &[u64],
) -> Option<Interned>
    requires segments { Segments old.now new.old used }
    requires types_len_bound { length types.now ≤ most_counted }
    requires covers { Covers (take used (old.now ++ new.old)) index.now }
    ensures { Runs (λ u. make u (tuple_entry types.now u)) old.now new.old used new.new result }
{
    if types.len() <= FEW_ELEMENTS {
        return tuple_in::<FEW_ELEMENTS>(old, new, used, types, index);
    }
    tuple_in::<{ limits::MOST_COUNTED }>(old, new, used, types, index)
}

// ---- structs

// Structs of few fields are given few words, since all of them are cleared at each call: how many fields are few, and the words of so many lent ones, and of the most.
const FEW_FIELDS: usize = 8;

const FEW_LENT: usize = columns::LENT_FIELD * FEW_FIELDS;

const MOST_LENT: usize = columns::LENT_FIELD * limits::MOST_COUNTED;

// Fills the first words of `dst` with the fields whose words stand from p on, with these types and finals.
fn fields_with(
    dst: &mut [u64],
    old: &[u64],
    new: &[u64],
    used: usize,
    p: usize,
    types: &[u32],
    finals: &[u8],
)
    requires len_bound { (length old.now ≤ used) × (used ≤ length old.now + length new.now) }
    requires types_len_bound { (length types.now ≤ most_counted) × (length types.now ≡ length finals.now) × (lent_size * length types.now ≤ length dst.old) × (p ≤ first_field longest_allowed) }
    ensures { dst.new ≡ fields_with (take used (old.now ++ new.now)) p types.now finals.now ++ drop (lent_size * length types.now) dst.old }
{
    for i in 0..types.len() {
        let at = p + columns::FIELD * i;
        let name = words::word(old, new, used, at);
        let alias = words::word(old, new, used, at + columns::FLAGS) / 2;
        words::write(
            &mut dst[columns::LENT_FIELD * i..],
            &[name, u64::from(types[i]), alias, u64::from(finals[i])],
        );
    }
}

// The same struct with these types and finals, its fields laid out in the first of some words.
fn made_again_in<const WORDS: usize>(
    old: &[u64],
    new: &mut [u64],
    used: usize,
    a: usize,
    types: &[u32],
    finals: &[u8],
    index: &[u64],
) -> Option<Interned>
    requires segments { Segments old.now new.old used }
    requires types_len_bound { (length types.now ≤ most_counted) × (length types.now ≡ length finals.now) × (lent_size * length types.now ≤ WORDS) × (WORDS ≤ 65536) × (a ≤ longest_allowed) }
    requires a_value { (all is_alias_final (first_flags_on (take used (old.now ++ new.old)) (length types.now) a) ≡ true) × (all is_flag finals.now ≡ true) }
    requires covers { Covers (take used (old.now ++ new.old)) index.now }
    ensures { Runs (remake a types.now finals.now) old.now new.old used new.new result }
{
    let n = types.len();
    let mut fields = [0u64; WORDS];
    fields_with(
        &mut fields,
        old,
        new,
        used,
        a + columns::FIELDS,
        types,
        finals,
    );
    let name = words::word(old, new, used, a + columns::NAME);
    makers::structure(
        old,
        new,
        used,
        name,
        &fields[..columns::LENT_FIELD * n],
        index,
    )
}

// Makes the struct at a again with these types and finals. Few fields are given few words, since all of them are cleared at each call.
pub fn made_again(
    old: &[u64],
    new: &mut [u64],
    used: usize,
    a: usize,
    types: &[u32],
    finals: &[u8],
    index: &[u64],
) -> Option<Interned>
    requires segments { Segments old.now new.old used }
    requires types_len_bound { (length types.now ≤ most_counted) × (length types.now ≡ length finals.now) × (a ≤ longest_allowed) }
    requires a_value { (all is_alias_final (first_flags_on (take used (old.now ++ new.old)) (length types.now) a) ≡ true) × (all is_flag finals.now ≡ true) }
    requires covers { Covers (take used (old.now ++ new.old)) index.now }
    ensures { Runs (remake a types.now finals.now) old.now new.old used new.new result }
{
    if types.len() <= FEW_FIELDS {
        return made_again_in::<FEW_LENT>(old, new, used, a, types, finals, index);
    }
    made_again_in::<MOST_LENT>(old, new, used, a, types, finals, index)
}
