// A type without zero, on a store that row 1 has passed.
#![tactic(auto)]

ghost use Rattle.std.specs.Prelude.{◌++◌, take};
ghost use Rattle.words.specs.Ran.{Segments, Runs};
ghost use Rattle.index.specs.Covers.{Covers};
ghost use Rattle.parts.specs.Parts.{ReadyOne};
ghost use Rattle.lent_memory.specs.Memory.{Right, RightThen};
ghost use Rattle.every_call.specs.NonZero.{non_zero_int, non_zero_of};

use walk_rules::Walk;
use words::{Interned, columns, fresh, kinds};

// The word of -1.
const MINUS_ONE: u64 = 0xFFFF_FFFF_FFFF_FFFF;

fn non_zero_int(
    old: &[u64],
    new: &mut [u64],
    used: usize,
    a: usize,
    min: u64,
    max: u64,
    index: &[u64],
) -> Option<Interned>
    requires segments { Segments old.now new.old used }
    requires covers { Covers (take used (old.now ++ new.old)) index.now }
    ensures { Runs (non_zero_int a min max) old.now new.old used new.new result }
{
    if type_integer::is_less(max, min) {
        return Some(Interned { handle: a, used });
    }
    if min == 0 {
        return makers::int(old, new, used, 1, type_integer::larger_of(max, 1), index);
    }
    if max == 0 {
        return makers::int(old, new, used, min, MINUS_ONE, index);
    }
    Some(Interned { handle: a, used })
}

pub fn non_zero(
    old: &[u64],
    new: &mut [u64],
    used: usize,
    a: usize,
    memory: &mut [u64],
    index: &[u64],
) -> Option<Interned>
    requires ready_one { ReadyOne old.now new.old used a }
    requires right { Right (take used (old.now ++ new.old)) memory.old }
    requires covers { Covers (take used (old.now ++ new.old)) index.now }
    ensures runs { Runs (λ u. non_zero_of u a) old.now new.old used new.new result }
    ensures right_then { RightThen old.now new.new result memory.new }
{
    let k = words::word(old, new, used, a) % kinds::DEPTH;
    if k == kinds::INT {
        let min = words::word(old, new, used, a + columns::MIN);
        let max = words::word(old, new, used, a + columns::MAX);
        return non_zero_int(old, new, used, a, min, max, index);
    }
    if k == kinds::MEM_PTR {
        return Some(Interned {
            handle: fresh::PTR_VOID,
            used,
        });
    }
    lent_memory::walk(Walk::Glb, old, new, used, a, memory, index)
}
