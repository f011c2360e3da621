// Whether a type is small: a walk that remembers nothing comes to few types, so that a memory of a few lines holds all that it asks. Only the size of
// a memory goes by the answer, and nothing else depends on it.
#![tactic(auto)]

ghost use Rattle.std.specs.Prelude.{◌+◌, ◌≤◌, length};

use words::{columns, kinds, limits};

// The most types that a walk of a small type comes to, and one more; and as many depths as there are, 0 to 32.
pub const MOST_TYPES: usize = 16;

const TOO_MANY: usize = MOST_TYPES + 1;

const DEPTHS: usize = 1 + limits::DEEPEST as usize;

// How far apart the parts stand in an entry, and how far behind its head the first, which happen to be one number: a tuple's elements follow the head one by one, a struct's field types
// stand every third word from the third on.
fn step(kind: u64) -> usize
    ensures { result ≤ 3 }
{
    if kind == kinds::TUPLE {
        return columns::ELEMENTS;
    }
    columns::FIELD_TYPES
}

// What is left of `left` when each type that a walk of a comes to has taken one, the same type again included; 0 where they are too many. Parts are
// less deep: `deep` falls. No store has more than 1,048,576 words.
fn count_down(old: &[u64], new: &[u64], used: usize, a: usize, deep: usize, left: usize) -> usize
    requires { (length old.now ≤ used) × (used ≤ length old.now + length new.now) × (used ≤ 1048576) }
    ensures { result ≤ left }
{
    if left == 0 || deep == 0 || used <= a {
        return 0;
    }
    let head = words::word(old, new, used, a);
    if head / kinds::DEPTH % kinds::DEPTH <= 1 {
        return left - 1;
    }
    let kind = head % kinds::DEPTH;
    if kind == kinds::MEM_PTR {
        let to = words::word(old, new, used, a + columns::TARGET) as usize;
        return count_down(old, new, used, to, deep - 1, left - 1);
    }
    if kind == kinds::MEM {
        let t = words::word(old, new, used, a + columns::INNER) as usize;
        return count_down(old, new, used, t, deep - 1, left - 1);
    }
    let n = (head / kinds::COUNT) as usize;
    let s = step(kind);
    let mut rest = left - 1;
    for i in 0..n {
        if rest == 0 {
            return 0;
        }
        let t = words::word(old, new, used, a + s + s * i) as usize;
        rest = count_down(old, new, used, t, deep - 1, rest);
    }
    rest
}

// Whether a walk of a comes to at most 16 types.
pub fn is_small(old: &[u64], new: &[u64], used: usize, a: usize) -> bool
    requires { (length old.now ≤ used) × (used ≤ length old.now + length new.now) × (used ≤ 1048576) }
{
    0 < count_down(old, new, used, a, DEPTHS, TOO_MANY)
}
