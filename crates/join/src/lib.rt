// join, on a store that row 1 has passed: dual, dual, meet, dual, each made. The first half of `memory` is a memory of its duals, the second half one of its meet; an odd last word is not used.
#![tactic(auto)]

ghost use Rattle.std.specs.Prelude.{◌++◌, take};
ghost use Rattle.index.specs.Covers.{Covers};
ghost use Rattle.words.specs.Ran.{Runs};
ghost use Rattle.parts.specs.Parts.{Ready};
ghost use Rattle.join.specs.Join.{dual_of_meet, join_with, join_of};
ghost use Rattle.join.specs.Memory.{Remembers, Remembered};
ghost use Rattle.words.specs.Kinds.{Bot, last_kind};

use walk_rules::Walk;
use words::Interned;

fn dual_of_meet(
    old: &[u64],
    new: &mut [u64],
    used: usize,
    a: usize,
    b: usize,
    memory: &mut [u64],
    index: &[u64],
) -> Option<Interned>
    requires ready { Ready old.now new.old used Bot last_kind a b }
    requires remembers { Remembers (take used (old.now ++ new.old)) memory.old }
    requires covers { Covers (take used (old.now ++ new.old)) index.now }
    ensures runs { Runs (λ u. dual_of_meet u a b) old.now new.old used new.new result }
    ensures remembered { Remembered old.now new.new result memory.new }
{
    let k = memory.len() / 2; // the first half is the duals', the second the meets'
    let m = meet_types::meet_type(old, new, used, a, b, &mut memory[k..2 * k], index)?;
    walk::walk_type(
        Walk::Dual,
        old,
        new,
        m.used,
        m.handle,
        &mut memory[..k],
        index,
    )
}

fn join_with(
    old: &[u64],
    new: &mut [u64],
    used: usize,
    a: usize,
    b: usize,
    memory: &mut [u64],
    index: &[u64],
) -> Option<Interned>
    requires ready { Ready old.now new.old used Bot last_kind a b }
    requires remembers { Remembers (take used (old.now ++ new.old)) memory.old }
    requires covers { Covers (take used (old.now ++ new.old)) index.now }
    ensures runs { Runs (λ u. join_with u a b) old.now new.old used new.new result }
    ensures remembered { Remembered old.now new.new result memory.new }
{
    let k = memory.len() / 2;
    let d = walk::walk_type(Walk::Dual, old, new, used, b, &mut memory[..k], index)?;
    dual_of_meet(old, new, d.used, a, d.handle, memory, index)
}

pub fn join(
    old: &[u64],
    new: &mut [u64],
    used: usize,
    a: usize,
    b: usize,
    memory: &mut [u64],
    index: &[u64],
) -> Option<Interned>
    requires ready { Ready old.now new.old used Bot last_kind a b }
    requires remembers { Remembers (take used (old.now ++ new.old)) memory.old }
    requires covers { Covers (take used (old.now ++ new.old)) index.now }
    ensures runs { Runs (λ u. join_of u a b) old.now new.old used new.new result }
    ensures remembered { Remembered old.now new.new result memory.new }
{
    if a == b {
        return Some(Interned { handle: a, used });
    }
    let k = memory.len() / 2;
    let d = walk::walk_type(Walk::Dual, old, new, used, a, &mut memory[..k], index)?;
    join_with(old, new, d.used, d.handle, b, memory, index)
}
