// make_ro, on a store that row 1 has passed: a type, a struct and a field's type call each other. Parts are earlier entries, so that three
// times the handle falls, plus one in a type's call, and plus two in a field's. A pointer or a struct is looked up in a memory of answers first, and, unless it is
// a struct that is final, noted in it last; types that are final are kept in the set that is_final has.
#![tactic(auto)]

ghost use Rattle.std.specs.Prelude.{◌≡◌, true, false, ◌++◌, ◌+◌, ◌≤◌, length, replicate, take};
ghost use Rattle.index.specs.Covers.{Covers};
ghost use Rattle.words.specs.Ran.{Segments, Runs};
ghost use Rattle.wellformed.specs.Entry.{all, is_alias_final, most_counted};
ghost use Rattle.words.specs.Columns.{every, kind_on, first_flags_on};
ghost use Rattle.structs.specs.Remade.{remake};
ghost use Rattle.parts.specs.Parts.{ReadyOne};
ghost use Rattle.finals.specs.Final.{is_final_of};
ghost use Rattle.make_ro.specs.MadeRo.{MadeRo, FieldRo};
ghost use Rattle.make_ro.specs.Remembered.{Remembers, Remembered};
ghost use Rattle.wellformed.specs.Form.{longest_allowed};
ghost use Rattle.words.specs.Kinds.{Struct};

use words::{Interned, columns, kinds, limits};

// Makes the struct at a again with these types, every field final.
#[tactic(auto, using(crate::proofs::Finals::ones_many, crate::proofs::Finals::ones_fit))]
fn made_final(
    old: &[u64],
    new: &mut [u64],
    used: usize,
    a: usize,
    types: &[u32],
    index: &[u64],
) -> Option<Interned>
    requires segments { Segments old.now new.old used }
    requires types_len_bound { (length types.now ≤ most_counted) × (a ≤ longest_allowed) × (all is_alias_final (first_flags_on (take used (old.now ++ new.old)) (length types.now) a) ≡ true) }
    requires covers { Covers (take used (old.now ++ new.old)) index.now }
    ensures { Runs (remake a types.now (replicate (length types.now) 1)) old.now new.old used new.new result }
{
    let n = types.len();
    let finals = [1u8; limits::MOST_COUNTED];
    structs::made_again(old, new, used, a, types, &finals[..n], index)
}

// What a type is remembered under: its handle; or 0, which is nothing, for a type that is its own answer. No Option: `memo::recall` says why.
fn ro_key(kind: u64, a: usize) -> u64
    ensures { (result ≡ 0 → ⊥) → result ≡ a }
{
    if kind == kinds::STRUCT {
        return a as u64;
    }
    if kind == kinds::MEM_PTR {
        return a as u64;
    }
    0
}

#[cycle(make_field_ro_make_ro_make_struct_ro)]
pub fn make_ro(
    old: &[u64],
    new: &mut [u64],
    used: usize,
    a: usize,
    memo: &mut [u64],
    known: &mut [u64],
    index: &[u64],
) -> Option<Interned>
    requires ready_one { ReadyOne old.now new.old used a }
    requires remembers { Remembers (take used (old.now ++ new.old)) memo.old known.old }
    requires covers { Covers (take used (old.now ++ new.old)) index.now }
    ensures made_ro { MadeRo old.now new.old used a new.new result }
    ensures remembered { Remembered old.now new.new result memo.new known.new }
{
    let kind = words::word(old, new, used, a) % kinds::DEPTH;
    let key = ro_key(kind, a);
    if let Some(h) = memo::recall(memo, key) {
        return Some(Interned {
            handle: h as usize,
            used,
        });
    }
    if kind == kinds::MEM_PTR {
        let to = words::word(old, new, used, a + columns::TARGET) as usize;
        let nil = words::word(old, new, used, a + columns::NIL);
        let m = make_ro(old, new, used, to, memo, known, index)?;
        if m.handle == to {
            return memo::noted(
                memo,
                key,
                Some(Interned {
                    handle: a,
                    used: m.used,
                }),
            );
        }
        let r = makers::pointer(old, new, m.used, m.handle as u64, nil, index);
        return memo::noted(memo, key, r);
    }
    if kind != kinds::STRUCT {
        return Some(Interned { handle: a, used });
    }
    if finals::is_final(old, new, used, a, known) {
        return Some(Interned { handle: a, used });
    }
    let r = make_struct_ro(old, new, used, a, memo, known, index);
    memo::noted(memo, key, r)
}

// The field types first, left to right.
#[cycle(make_field_ro_make_ro_make_struct_ro)]
fn make_struct_ro(
    old: &[u64],
    new: &mut [u64],
    used: usize,
    a: usize,
    memo: &mut [u64],
    known: &mut [u64],
    index: &[u64],
) -> Option<Interned>
    requires ready_one { ReadyOne old.now new.old used a }
    requires remembers { Remembers (take used (old.now ++ new.old)) memo.old known.old }
    requires a_value { (kind_on (take used (old.now ++ new.old)) a ≡ Struct) × (is_final_of (take used (old.now ++ new.old)) a ≡ false) }
    requires covers { Covers (take used (old.now ++ new.old)) index.now }
    ensures made_ro { MadeRo old.now new.old used a new.new result }
    ensures remembered { Remembered old.now new.new result memo.new known.new }
{
    let n = (words::word(old, new, used, a) / kinds::COUNT) as usize;
    let mut types = [0u32; limits::MOST_COUNTED];
    let mut v = used;
    for i in 0..n {
        let p = a + columns::FIELD_TYPES + columns::FIELD * i;
        let t = words::word(old, new, used, p) as usize;
        let value = words::word(old, new, used, p + columns::FLAGS_BEHIND_TYPE);
        let m = make_field_ro(old, new, v, value, t, memo, known, index)?;
        types[i] = m.handle as u32;
        v = m.used;
    }
    made_final(old, new, v, a, &types[..n], index)
}

// A final field keeps its type; value is 2 × alias + final.
#[cycle(make_field_ro_make_ro_make_struct_ro)]
fn make_field_ro(
    old: &[u64],
    new: &mut [u64],
    used: usize,
    value: u64,
    t: usize,
    memo: &mut [u64],
    known: &mut [u64],
    index: &[u64],
) -> Option<Interned>
    requires ready_one { ReadyOne old.now new.old used t }
    requires remembers { Remembers (take used (old.now ++ new.old)) memo.old known.old }
    requires covers { Covers (take used (old.now ++ new.old)) index.now }
    ensures field_ro { FieldRo old.now new.old used value t new.new result }
    ensures remembered { Remembered old.now new.new result memo.new known.new }
{
    if value % 2 == 1 {
        return Some(Interned { handle: t, used });
    }
    make_ro(old, new, used, t, memo, known, index)
}
