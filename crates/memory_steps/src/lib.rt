// The steps around an operation with a lent memory: which part of the memory a walk is lent, what isa reads off the answer of a meet, and what is forgotten where
// an answer did not fit.
#![tactic(auto)]

ghost use Rattle.std.specs.Prelude.{◌≡◌};
ghost use Rattle.memory_steps.specs.Steps.{part_of, second, Forgot};

use walk_rules::Walk;
use words::Interned;

// The part with the answers of a walk.
pub fn part_of(op: Walk) -> usize
    ensures { result ≡ part_of op }
{
    match op {
        Walk::Dual => 0,
        Walk::Glb => 2,
        Walk::Lub => 3,
    }
}

// Whether an answer is b. One that did not fit is not: what would have to be appended is no old handle.
pub fn is_second(m: Option<Interned>, b: u64) -> bool
    ensures { result ≡ second m b }
{
    match m {
        Some(m) => m.handle as u64 == b,
        None => false,
    }
}

// Where the answer did not fit, the store is put back as it was, and lines that were noted on the way may speak of entries that are gone: all are forgotten.
pub fn forget(r: Option<Interned>, memory: &mut [u64])
    ensures { Forgot r memory.old memory.new }
{
    if r.is_none() {
        words::clear(memory);
    }
}
