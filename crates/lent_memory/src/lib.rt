// The operations that walk, with a memory that is lent and lives on from call to call; where the lent list has fewer than six words, with one of their own
// (own_memory). The memory is one list in six equal parts: 0 duals, 1 meets, 2 glb, 3 lub, 4 make_ro, and 5 the set of types that are known to be final.
// Each operation is lent its part alone, join the first two, and make_ro of a larger type the last two, one after the other. Without a lent memory the set of final types is `scratch`, and where that has no words, none.
#![tactic(auto)]

ghost use Rattle.std.specs.Prelude.{◌≡◌, [], ◌++◌, take};
ghost use Rattle.index.specs.Covers.{Covers};
ghost use Rattle.words.specs.Ran.{Runs};
ghost use Rattle.parts.specs.Parts.{Ready, ReadyOne};
ghost use Rattle.later.specs.Right.{RightAfter};
ghost use Rattle.memo.specs.Memo.{Lines};
ghost use Rattle.meet.specs.Meet.{meet_of, isa_of};
ghost use Rattle.walk.specs.Walk.{walk_of};
ghost use Rattle.join.specs.Join.{join_of};
ghost use Rattle.finals.specs.Known.{Finals};
ghost use Rattle.make_ro.specs.ReadOnly.{make_ro_of};
ghost use Rattle.make_ro.specs.MadeRo.{MadeRo};
ghost use Rattle.make_ro.specs.Remembered.{Settled};
ghost use Rattle.lent_memory.specs.Memory.{Right, RightThen};
ghost use Rattle.words.specs.Kinds.{Bot, last_kind};

use own_memory::Operation;
use walk_rules::Walk;
use words::Interned;

// A lent memory has six parts of one length, in this order: the answers of dual, of meet, of glb, of lub, of make_ro, and the types known to be final.
const PARTS: usize = 6;

// where the answers of glb begin, behind those of dual and of meet; those of make_ro; and the final types
const GLBS: usize = 2;

const ROS: usize = 4;

const FINALS: usize = 5;

pub fn meet(
    old: &[u64],
    new: &mut [u64],
    used: usize,
    a: usize,
    b: usize,
    memory: &mut [u64],
    index: &[u64],
) -> Option<Interned>
    requires ready { Ready old.now new.old used Bot last_kind a b }
    requires right { Right (take used (old.now ++ new.old)) memory.old }
    requires covers { Covers (take used (old.now ++ new.old)) index.now }
    ensures runs { Runs (λ u. meet_of u a b) old.now new.old used new.new result }
    ensures right_then { RightThen old.now new.new result memory.new }
{
    let n = memory.len() / PARTS;
    if n == 0 {
        let mut known = [0u64; 0];
        return own_memory::run(Operation::Meet(b), old, new, used, a, &mut known, index);
    }
    meet_types::meet_type(old, new, used, a, b, &mut memory[n..GLBS * n], index)
}

// dual, glb and lub.
pub fn walk(
    op: Walk,
    old: &[u64],
    new: &mut [u64],
    used: usize,
    a: usize,
    memory: &mut [u64],
    index: &[u64],
) -> Option<Interned>
    requires ready_one { ReadyOne old.now new.old used a }
    requires right { Right (take used (old.now ++ new.old)) memory.old }
    requires covers { Covers (take used (old.now ++ new.old)) index.now }
    ensures runs { Runs (λ u. walk_of op u a) old.now new.old used new.new result }
    ensures right_then { RightThen old.now new.new result memory.new }
{
    let n = memory.len() / PARTS;
    if n == 0 {
        let mut known = [0u64; 0];
        return own_memory::run(Operation::Walk(op), old, new, used, a, &mut known, index);
    }
    let from = memory_steps::part_of(op) * n;
    let end = from + n;
    walk::walk_type(op, old, new, used, a, &mut memory[from..end], index)
}

// Parts 0 and 1 are lent together: the first half is for the duals, the second for the meet.
pub fn join(
    old: &[u64],
    new: &mut [u64],
    used: usize,
    a: usize,
    b: usize,
    memory: &mut [u64],
    index: &[u64],
) -> Option<Interned>
    requires ready { Ready old.now new.old used Bot last_kind a b }
    requires right { Right (take used (old.now ++ new.old)) memory.old }
    requires covers { Covers (take used (old.now ++ new.old)) index.now }
    ensures runs { Runs (λ u. join_of u a b) old.now new.old used new.new result }
    ensures right_then { RightThen old.now new.new result memory.new }
{
    let n = memory.len() / PARTS;
    if n == 0 {
        return own_memory::join(old, new, used, a, b, index);
    }
    join::join(old, new, used, a, b, &mut memory[..GLBS * n], index)
}

// make_ro of a small type, which needs no set of final types: its walk is over soon.
fn make_ro_small(
    old: &[u64],
    new: &mut [u64],
    used: usize,
    a: usize,
    memo: &mut [u64],
    index: &[u64],
) -> Option<Interned>
    requires ready_one { ReadyOne old.now new.old used a }
    requires lines { Lines (Settled (take used (old.now ++ new.old))) memo.old }
    requires covers { Covers (take used (old.now ++ new.old)) index.now }
    ensures made_ro { MadeRo old.now new.old used a new.new result }
    ensures right_after { RightAfter Settled old.now new.new result memo.new }
{
    let mut known = [0u64; 0];
    make_ro::make_ro(old, new, used, a, memo, &mut known, index)
}

// make_ro of a larger type: the set of final types is the lent one, the answers on the way are kept in a memory of its own, since two parts of one list are not lent
// at the same time, and the answer is noted in the lent one.
fn make_ro_large(
    old: &[u64],
    new: &mut [u64],
    used: usize,
    a: usize,
    memory: &mut [u64],
    index: &[u64],
) -> Option<Interned>
    requires ready_one { ReadyOne old.now new.old used a }
    requires right { Right (take used (old.now ++ new.old)) memory.old }
    requires covers { Covers (take used (old.now ++ new.old)) index.now }
    ensures runs { Runs (λ u. make_ro_of u a) old.now new.old used new.new result }
    ensures right_then { RightThen old.now new.new result memory.new }
{
    let n = memory.len() / PARTS;
    let r = own_memory::run(
        Operation::MakeRo,
        old,
        new,
        used,
        a,
        &mut memory[FINALS * n..PARTS * n],
        index,
    );
    memo::noted(&mut memory[ROS * n..FINALS * n], a as u64, r)
}

// An answer that is remembered is handed back at once. Without a lent memory `scratch` is the set of final types, whatever it holds.
pub fn make_ro(
    old: &[u64],
    new: &mut [u64],
    used: usize,
    a: usize,
    scratch: &mut [u64],
    memory: &mut [u64],
    index: &[u64],
) -> Option<Interned>
    requires ready_one { ReadyOne old.now new.old used a }
    requires right { Right (take used (old.now ++ new.old)) memory.old }
    requires covers { Covers (take used (old.now ++ new.old)) index.now }
    ensures runs { Runs (λ u. make_ro_of u a) old.now new.old used new.new result }
    ensures right_then { RightThen old.now new.new result memory.new }
{
    let n = memory.len() / PARTS;
    if n == 0 {
        return own_memory::make_ro(old, new, used, a, scratch, index);
    }
    if let Some(h) = memo::recall(&memory[ROS * n..FINALS * n], a as u64) {
        return Some(Interned {
            handle: h as usize,
            used,
        });
    }
    if small::is_small(old, new, used, a) {
        return make_ro_small(old, new, used, a, &mut memory[ROS * n..FINALS * n], index);
    }
    make_ro_large(old, new, used, a, memory, index)
}

// Without a lent memory `scratch` is the set of types that are known to be final, whatever it holds.
pub fn is_final(
    old: &[u64],
    new: &[u64],
    used: usize,
    a: usize,
    scratch: &mut [u64],
    memory: &mut [u64],
) -> bool
    requires ready_one { ReadyOne old.now new.now used a }
    requires right { Right (take used (old.now ++ new.now)) memory.old }
    ensures finals { Finals (take used (old.now ++ new.now)) a result }
    ensures right_2 { Right (take used (old.now ++ new.now)) memory.new }
{
    let n = memory.len() / PARTS;
    if n == 0 {
        return own_memory::is_final(old, new, used, a, scratch);
    }
    finals::is_final(old, new, used, a, &mut memory[FINALS * n..PARTS * n])
}

// Whether the meet of a and b would be b, by meeting them. The used words are lent to be read, with no word behind them, so that nothing is appended; and so the
// memory stays right for them whatever the answer is.
pub fn isa(words: &[u64], used: usize, a: u64, b: u64, memory: &mut [u64], index: &[u64]) -> bool
    requires ready { Ready [] words.now used Bot last_kind a b }
    requires right { Right (take used words.now) memory.old }
    requires covers { Covers (take used words.now) index.now }
    ensures value { result ≡ isa_of (take used words.now) a b }
    ensures right_2 { Right (take used words.now) memory.new }
{
    let mut none = [0u64; 0];
    let n = memory.len() / PARTS;
    if n == 0 {
        let m = own_memory::ask(
            &words[..used],
            &mut none,
            used,
            a as usize,
            b as usize,
            index,
        );
        return memory_steps::is_second(m, b);
    }
    let m = meet_types::meet_type(
        &words[..used],
        &mut none,
        used,
        a as usize,
        b as usize,
        &mut memory[n..GLBS * n],
        index,
    );
    memory_steps::is_second(m, b)
}
