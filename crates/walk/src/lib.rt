// dual, glb and lub, on a store that row 1 has passed: one walk of a type, with the operation as a parameter. A type's walk and a struct's walk
// call each other through fields. Parts are earlier entries, so that twice the handle, plus one in a type's walk, falls. A type with parts is looked up in a
// memory of answers first, and noted in it last: a type that stands in many places is walked once.
#![tactic(auto)]

ghost use Rattle.std.specs.Prelude.{◌≡◌, ◌++◌, take};
ghost use Rattle.words.specs.Columns.{kind_on};
ghost use Rattle.index.specs.Covers.{Covers};
ghost use Rattle.parts.specs.Parts.{ReadyOne};
ghost use Rattle.walk_rules.specs.Tables.{form_for};
ghost use Rattle.walk_rules.specs.declared.Form.TheVariants.{AStruct};
ghost use Rattle.walk.specs.Walked.{Walked};
ghost use Rattle.walk.specs.Remembered.{Remembers, Remembered};

use walk_rules::{Form, Walk};
use words::{Interned, columns, kinds, limits};

// What a type is remembered under: its handle; or 0, which is nothing, for a type whose walk meets no parts and is over soon. No Option: `memo::recall` says why.
fn walk_key(form: Form, a: usize) -> u64
    ensures { (result ≡ 0 → ⊥) → result ≡ a }
{
    match form {
        Form::Is(_h) => 0,
        Form::AnInt => 0,
        Form::AFloat => 0,
        Form::AStruct => a as u64,
        Form::APointer => a as u64,
        Form::AMemory => a as u64,
        Form::ATuple => a as u64,
    }
}

#[cycle(walk_struct_walk_type)]
pub fn walk_type(
    op: Walk,
    old: &[u64],
    new: &mut [u64],
    used: usize,
    a: usize,
    memo: &mut [u64],
    index: &[u64],
) -> Option<Interned>
    requires ready_one { ReadyOne old.now new.old used a }
    requires remembers { Remembers op (take used (old.now ++ new.old)) memo.old }
    requires covers { Covers (take used (old.now ++ new.old)) index.now }
    ensures walked { Walked op old.now new.old used a new.new result }
    ensures remembered { Remembered op old.now new.new result memo.new }
{
    let form = walk_answers::form_of(op, old, new, used, a);
    let key = walk_key(form, a);
    if let Some(h) = memo::recall(memo, key) {
        return Some(Interned {
            handle: h as usize,
            used,
        });
    }
    match form {
        Form::Is(h) => Some(Interned { handle: h, used }),
        Form::AnInt => walk_answers::int_of(op, old, new, used, a, index),
        Form::AFloat => walk_answers::float_of(op, old, new, used, a, index),
        Form::AStruct => {
            let r = walk_struct(op, old, new, used, a, memo, index);
            memo::noted(memo, key, r)
        }
        Form::APointer => {
            let x = words::word(old, new, used, a + columns::TARGET) as usize;
            let nil = walk_rules::nil_of(op, words::word(old, new, used, a + columns::NIL));
            let m = walk_type(op, old, new, used, x, memo, index)?;
            let r = makers::pointer(old, new, m.used, m.handle as u64, nil, index);
            memo::noted(memo, key, r)
        }
        Form::AMemory => {
            let alias = words::word(old, new, used, a + columns::ALIAS);
            let x = words::word(old, new, used, a + columns::INNER) as usize;
            let m = walk_type(op, old, new, used, x, memo, index)?;
            let r = makers::memory(old, new, m.used, alias, m.handle as u64, index);
            memo::noted(memo, key, r)
        }
        Form::ATuple => {
            let n = (words::word(old, new, used, a) / kinds::COUNT) as usize;
            let mut parts = [0u32; limits::MOST_COUNTED];
            let mut v = used;
            for i in 0..n {
                let x = words::word(old, new, used, a + columns::ELEMENTS + i) as usize;
                let m = walk_type(op, old, new, v, x, memo, index)?;
                parts[i] = m.handle as u32;
                v = m.used;
            }
            let r = structs::tuple_of(old, new, v, &parts[..n], index);
            memo::noted(memo, key, r)
        }
    }
}

#[cycle(walk_struct_walk_type)]
fn walk_struct(
    op: Walk,
    old: &[u64],
    new: &mut [u64],
    used: usize,
    a: usize,
    memo: &mut [u64],
    index: &[u64],
) -> Option<Interned>
    requires ready_one { ReadyOne old.now new.old used a }
    requires a_value { form_for op a (kind_on (take used (old.now ++ new.old)) a) ≡ AStruct }
    requires remembers { Remembers op (take used (old.now ++ new.old)) memo.old }
    requires covers { Covers (take used (old.now ++ new.old)) index.now }
    ensures walked { Walked op old.now new.old used a new.new result }
    ensures remembered { Remembered op old.now new.new result memo.new }
{
    let n = (words::word(old, new, used, a) / kinds::COUNT) as usize;
    let mut types = [0u32; limits::MOST_COUNTED];
    let mut v = used;
    for i in 0..n {
        let x = words::word(
            old,
            new,
            used,
            a + columns::FIELD_TYPES + columns::FIELD * i,
        ) as usize;
        let m = walk_type(op, old, new, v, x, memo, index)?;
        types[i] = m.handle as u32;
        v = m.used;
    }
    walk_fields::fields_of(op, old, new, v, a, &types[..n], index)
}
