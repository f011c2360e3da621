// meet, on a store that row 1 has passed: a type's meet and a struct's meet call each other through fields and pointers. Parts are earlier
// entries, so that twice the larger handle, plus one in a type's meet, falls. Many types may share a part, so that a pair whose parts are met is
// looked up in a memory of answers first: each pair is opened once, as long as the memory has a line for it.
#![tactic(auto)]

ghost use Rattle.std.specs.Prelude.{◌≡◌, ◌++◌, ◌<◌, take};
ghost use Rattle.index.specs.Covers.{Covers};
ghost use Rattle.parts.specs.Parts.{Ready};
ghost use Rattle.meet.specs.Met.{Met, MetStruct};
ghost use Rattle.meet_types.specs.Remembered.{pair_key, Remembers, Remembered};
ghost use Rattle.wellformed.specs.Form.{longest_allowed};
ghost use Rattle.words.specs.Kinds.{Bot, Struct, Fref, last_kind};

use meet_rules::{Rule, StructRule};
use words::{Interned, columns, fresh, kinds, limits};

// The key under which a pair is remembered.
fn pair_key(a: usize, b: usize) -> u64
    requires { (a < longest_allowed) × (b < longest_allowed) }
    ensures { result ≡ pair_key a b }
{
    (a as u64) * memo::ANSWERS + (b as u64)
}

// The same for two types, by the rule that decides; 0, under which nothing is remembered, where no part is met, and for structs, which the struct's
// meet remembers. No Option: `memo::recall` says why.
fn meet_key(rule: Rule, a: usize, b: usize) -> u64
    requires { (a < longest_allowed) × (b < longest_allowed) }
    ensures { (result ≡ 0 → ⊥) → result ≡ pair_key a b }
{
    match rule {
        Rule::First | Rule::Second | Rule::Bottom | Rule::Ints | Rule::Floats | Rule::Structs => 0,
        Rule::Pointers | Rule::Memories | Rule::Tuples => pair_key(a, b),
    }
}

#[cycle(meet_struct_meet_type)]
pub fn meet_type(
    old: &[u64],
    new: &mut [u64],
    used: usize,
    a: usize,
    b: usize,
    memo: &mut [u64],
    index: &[u64],
) -> Option<Interned>
    requires ready { Ready old.now new.old used Bot last_kind a b }
    requires remembers { Remembers (take used (old.now ++ new.old)) memo.old }
    requires covers { Covers (take used (old.now ++ new.old)) index.now }
    ensures met { Met old.now new.old used a b new.new result }
    ensures remembered { Remembered old.now new.new result memo.new }
{
    let rule = meet_rules::type_rule(old, new, used, a, b);
    let key = meet_key(rule, a, b);
    if let Some(h) = memo::recall(memo, key) {
        return Some(Interned {
            handle: h as usize,
            used,
        });
    }
    match rule {
        Rule::First => Some(Interned { handle: a, used }),
        Rule::Second => Some(Interned { handle: b, used }),
        Rule::Bottom => Some(Interned {
            handle: fresh::BOT,
            used,
        }),
        Rule::Ints => meet_answers::meet_int(old, new, used, a, b, index),
        Rule::Floats => Some(Interned {
            handle: meet_answers::meet_float(old, new, used, a, b),
            used,
        }),
        Rule::Structs => meet_struct(old, new, used, a, b, memo, index),
        Rule::Pointers => {
            let x = words::word(old, new, used, a + columns::TARGET) as usize;
            let y = words::word(old, new, used, b + columns::TARGET) as usize;
            let nil = wellformed::larger(
                words::word(old, new, used, a + columns::NIL),
                words::word(old, new, used, b + columns::NIL),
            );
            let m = meet_struct(old, new, used, x, y, memo, index)?;
            let pointer = makers::pointer(old, new, m.used, m.handle as u64, nil, index);
            memo::noted(memo, key, pointer)
        }
        Rule::Memories => {
            let alias = meet_rules::shared_alias(
                words::word(old, new, used, a + columns::ALIAS),
                words::word(old, new, used, b + columns::ALIAS),
            );
            let x = words::word(old, new, used, a + columns::INNER) as usize;
            let y = words::word(old, new, used, b + columns::INNER) as usize;
            let m = meet_type(old, new, used, x, y, memo, index)?;
            let memory = makers::memory(old, new, m.used, alias, m.handle as u64, index);
            memo::noted(memo, key, memory)
        }
        Rule::Tuples => {
            let n = (words::word(old, new, used, a) / kinds::COUNT) as usize;
            let mut parts = [0u32; limits::MOST_COUNTED];
            let mut v = used;
            for i in 0..n {
                let x = words::word(old, new, used, a + columns::ELEMENTS + i) as usize;
                let y = words::word(old, new, used, b + columns::ELEMENTS + i) as usize;
                let m = meet_type(old, new, v, x, y, memo, index)?;
                parts[i] = m.handle as u32;
                v = m.used;
            }
            let tuple = structs::tuple_of(old, new, v, &parts[..n], index);
            memo::noted(memo, key, tuple)
        }
    }
}

#[cycle(meet_struct_meet_type)]
fn meet_struct(
    old: &[u64],
    new: &mut [u64],
    used: usize,
    a: usize,
    b: usize,
    memo: &mut [u64],
    index: &[u64],
) -> Option<Interned>
    requires ready { Ready old.now new.old used Struct Fref a b }
    requires remembers { Remembers (take used (old.now ++ new.old)) memo.old }
    requires covers { Covers (take used (old.now ++ new.old)) index.now }
    ensures met_struct { MetStruct old.now new.old used a b new.new result }
    ensures remembered { Remembered old.now new.new result memo.new }
{
    let rule = struct_rules::struct_rule(old, new, used, a, b);
    match rule {
        StructRule::Former => Some(Interned { handle: a, used }),
        StructRule::Latter => Some(Interned { handle: b, used }),
        StructRule::Lowest => Some(Interned {
            handle: fresh::STRUCT_BOT,
            used,
        }),
        StructRule::Fields => {
            let key = pair_key(a, b);
            if let Some(h) = memo::recall(memo, key) {
                return Some(Interned {
                    handle: h as usize,
                    used,
                });
            }
            let n = (words::word(old, new, used, a) / kinds::COUNT) as usize;
            let mut types = [0u32; limits::MOST_COUNTED];
            let mut v = used;
            for i in 0..n {
                let x = words::word(
                    old,
                    new,
                    used,
                    a + columns::FIELD_TYPES + columns::FIELD * i,
                ) as usize;
                let y = words::word(
                    old,
                    new,
                    used,
                    b + columns::FIELD_TYPES + columns::FIELD * i,
                ) as usize;
                let m = meet_type(old, new, v, x, y, memo, index)?;
                types[i] = m.handle as u32;
                v = m.used;
            }
            let fields = meet_fields::meet_fields(old, new, v, a, b, &types[..n], index);
            memo::noted(memo, key, fields)
        }
    }
}
