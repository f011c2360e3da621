// is_final, on a store that row 1 has passed: the walk of a type through pointers and fields. Parts are earlier entries, so that the
// handle falls. Pointers and structs that were found to be final are kept in a set, `known`, and not walked again; a set without room for one does not keep
// it. A type that is not final ends the walk, so that nothing has to be kept of it.
#![tactic(auto)]

ghost use Rattle.std.specs.Prelude.{◌≡◌, ◌++◌, take};
ghost use Rattle.parts.specs.Parts.{ReadyOne};
ghost use Rattle.finals.specs.Known.{Knows, Kept, Finals};

use words::{columns, kinds};

// From now on a is known, if the answer for it is yes, and there is room; on the answer's way through.
fn kept(known: &mut [u64], a: usize, r: bool) -> bool
    ensures value { result ≡ r }
    ensures kept { Kept known.old a r known.new }
{
    if !r {
        return r;
    }
    if a / bitset::WORD_BITS < known.len() {
        bitset::mark(known, a);
    }
    r
}

pub fn is_final(old: &[u64], new: &[u64], used: usize, a: usize, known: &mut [u64]) -> bool
    requires ready_one { ReadyOne old.now new.now used a }
    requires knows { Knows (take used (old.now ++ new.now)) known.old }
    ensures finals { Finals (take used (old.now ++ new.now)) a result }
    ensures knows_2 { Knows (take used (old.now ++ new.now)) known.new }
{
    let head = words::word(old, new, used, a);
    let kind = head % kinds::DEPTH;
    if bitset::contains(known, a as u64) {
        return true;
    }
    if kind == kinds::MEM_PTR {
        let to = words::word(old, new, used, a + columns::TARGET) as usize;
        let r = is_final(old, new, used, to, known);
        return kept(known, a, r);
    }
    if kind != kinds::STRUCT {
        return true;
    }
    let n = (head / kinds::COUNT) as usize;
    for i in 0..n {
        let p = a + columns::FIELD_TYPES + columns::FIELD * i;
        let flag = words::word(old, new, used, p + columns::FLAGS_BEHIND_TYPE) % 2;
        if flag != 1 {
            return false;
        }
        let t = words::word(old, new, used, p) as usize;
        if !is_final(old, new, used, t, known) {
            return false;
        }
    }
    kept(known, a, true)
}
