// The operations that walk, with a memory of their own: blank at the start, gone at the end. A small type asks a few lines and no more. Else its size goes by the store, since blanking
// a memory must cost little beside row 1, which reads the whole store: up to 4,096 words a line for each word, and so a line of its own for each type; above that 8,192 lines.
//
// Each size stands in a frame of its own, so that a small store needs little stack.
#![tactic(auto)]

ghost use Rattle.std.specs.Prelude.{◌≡◌, ◌++◌, ℕ, ◌+◌, ◌≤◌, length, take, get_or};
ghost use Rattle.index.specs.Covers.{Covers};
ghost use Rattle.words.specs.Ran.{Runs};
ghost use Rattle.parts.specs.Parts.{Ready, ReadyOne};
ghost use Rattle.join.specs.Join.{join_of};
ghost use Rattle.finals.specs.Known.{Knows, Finals};
ghost use Rattle.own_memory.specs.declared.Operation.TheVariants.{Meet, MakeRo};
ghost use Rattle.own_memory.specs.Done.{Asked, Done, KnowsAfter};
ghost use Rattle.words.specs.Kinds.{Bot, last_kind};
ghost use Rattle.wellformed.specs.Form.{longest_allowed};

use walk_rules::Walk;
use words::{Interned, kinds};

// The lines of a small type's memory, as many as small::is_small counts.
const FEW_LINES: usize = small::MOST_TYPES;

// The most lines that a memory has.
const MOST_LINES: usize = 8192;

// An operation on a type, with its other operand.
#[derive(Clone, Copy)]
pub enum Operation {
    Meet(usize),
    Walk(Walk),
    MakeRo,
    Join(usize),
}

// With a blank memory. `known` marks types that are known to be final; make_ro asks it.
fn operate(
    op: Operation,
    old: &[u64],
    new: &mut [u64],
    used: usize,
    a: usize,
    memo: &mut [u64],
    known: &mut [u64],
    index: &[u64],
) -> Option<Interned>
    requires asked { Asked op old.now new.old used a }
    requires by_index { (i : ℕ) → get_or memo.old i 0 ≡ 0 }
    requires knows { Knows (take used (old.now ++ new.old)) known.old }
    requires covers { Covers (take used (old.now ++ new.old)) index.now }
    ensures done { Done op old.now new.old used a new.new result }
    ensures knows_after { KnowsAfter op old.now new.new result known.new }
{
    match op {
        Operation::Meet(b) => meet_types::meet_type(old, new, used, a, b, memo, index),
        Operation::Walk(walk) => walk::walk_type(walk, old, new, used, a, memo, index),
        Operation::MakeRo => make_ro::make_ro(old, new, used, a, memo, known, index),
        Operation::Join(b) => join::join(old, new, used, a, b, memo, index),
    }
}

// With so many lines, in a frame of its own: else the sizes below would all stand in one, and a small store would need as much stack as a large one.
#[tactic(auto, using(words::proofs::Zeros::zeros))]
#[inline(never)]
fn with_lines<const LINES: usize>(
    op: Operation,
    old: &[u64],
    new: &mut [u64],
    used: usize,
    a: usize,
    known: &mut [u64],
    index: &[u64],
) -> Option<Interned>
    requires lines_bound { LINES ≤ 8192 }
    requires asked { Asked op old.now new.old used a }
    requires knows { Knows (take used (old.now ++ new.old)) known.old }
    requires covers { Covers (take used (old.now ++ new.old)) index.now }
    ensures done { Done op old.now new.old used a new.new result }
    ensures knows_after { KnowsAfter op old.now new.new result known.new }
{
    let mut memo = [0u64; LINES];
    operate(op, old, new, used, a, &mut memo, known, index)
}

// The lines for so many that are asked for: where they are more than 8,192, half as many, and so on.
fn halved(asked: usize) -> usize
    ensures { result ≤ 8192 }
{
    let mut lines = asked;
    while MOST_LINES < lines {
        lines /= 2;
    }
    lines
}

// As many lines as are asked for, or a few more, and never more than 8,192.
fn sized(
    op: Operation,
    old: &[u64],
    new: &mut [u64],
    used: usize,
    a: usize,
    asked: usize,
    known: &mut [u64],
    index: &[u64],
) -> Option<Interned>
    requires asked { Asked op old.now new.old used a }
    requires knows { Knows (take used (old.now ++ new.old)) known.old }
    requires covers { Covers (take used (old.now ++ new.old)) index.now }
    ensures done { Done op old.now new.old used a new.new result }
    ensures knows_after { KnowsAfter op old.now new.new result known.new }
{
    let lines = halved(asked);
    if lines <= FEW_LINES {
        return with_lines::<FEW_LINES>(op, old, new, used, a, known, index);
    }
    if lines <= 128 {
        return with_lines::<128>(op, old, new, used, a, known, index);
    }
    if lines <= 256 {
        return with_lines::<256>(op, old, new, used, a, known, index);
    }
    if lines <= 512 {
        return with_lines::<512>(op, old, new, used, a, known, index);
    }
    if lines <= 1024 {
        return with_lines::<1024>(op, old, new, used, a, known, index);
    }
    if lines <= 2048 {
        return with_lines::<2048>(op, old, new, used, a, known, index);
    }
    if lines <= 4096 {
        return with_lines::<4096>(op, old, new, used, a, known, index);
    }
    with_lines::<MOST_LINES>(op, old, new, used, a, known, index)
}

// How many lines are asked for, in a store of n words: few where the types are small.
fn lines_for(few: bool, n: usize) -> usize {
    if few {
        return FEW_LINES;
    }
    n
}

// An operation on a store that it may append to. A type without parts asks no memory.
#[tactic(auto, using(words::proofs::Zeros::zeros, crate::proofs::Cases::asked_store))]
pub fn run(
    op: Operation,
    old: &[u64],
    new: &mut [u64],
    used: usize,
    a: usize,
    known: &mut [u64],
    index: &[u64],
) -> Option<Interned>
    requires asked { Asked op old.now new.old used a }
    requires knows { Knows (take used (old.now ++ new.old)) known.old }
    requires covers { Covers (take used (old.now ++ new.old)) index.now }
    ensures done { Done op old.now new.old used a new.new result }
    ensures knows_after { KnowsAfter op old.now new.new result known.new }
{
    if words::word(old, new, used, a) % kinds::DEPTH < kinds::FIRST_WITH_PARTS {
        let mut none = [0u64; 0];
        return operate(op, old, new, used, a, &mut none, known, index);
    }
    let few = small::is_small(old, new, used, a);
    let lines = lines_for(few, old.len() + new.len());
    sized(op, old, new, used, a, lines, known, index)
}

// A meet that nothing is appended for: the used words are lent to be read, and there is no word behind them.
#[tactic(auto, using(words::proofs::Zeros::zeros, crate::proofs::Cases::knows_empty))]
pub fn ask(
    old: &[u64],
    new: &mut [u64],
    used: usize,
    a: usize,
    b: usize,
    index: &[u64],
) -> Option<Interned>
    requires ready { Ready old.now new.old used Bot last_kind a b }
    requires covers { Covers (take used (old.now ++ new.old)) index.now }
    ensures { Done (Meet b) old.now new.old used a new.new result }
{
    let mut known = [0u64; 0];
    if words::word(old, new, used, a) % kinds::DEPTH < kinds::FIRST_WITH_PARTS {
        let mut none = [0u64; 0];
        return operate(
            Operation::Meet(b),
            old,
            new,
            used,
            a,
            &mut none,
            &mut known,
            index,
        );
    }
    let few = small::is_small(old, new, used, a);
    let lines = lines_for(few, old.len() + new.len());
    sized(
        Operation::Meet(b),
        old,
        new,
        used,
        a,
        lines,
        &mut known,
        index,
    )
}

// Whether both operands are small.
fn both_small(old: &[u64], new: &[u64], used: usize, a: usize, b: usize) -> bool
    requires { (length old.now ≤ used) × (used ≤ length old.now + length new.now) × (used ≤ longest_allowed) }
{
    small::is_small(old, new, used, a) && small::is_small(old, new, used, b)
}

// join has a memory for its three duals, of both operands and of a meet that is no larger than both together, and one for the meet: a half each.
#[tactic(auto, using(crate::proofs::Cases::knows_empty))]
pub fn join(
    old: &[u64],
    new: &mut [u64],
    used: usize,
    a: usize,
    b: usize,
    index: &[u64],
) -> Option<Interned>
    requires ready { Ready old.now new.old used Bot last_kind a b }
    requires covers { Covers (take used (old.now ++ new.old)) index.now }
    ensures { Runs (λ u. join_of u a b) old.now new.old used new.new result }
{
    let mut known = [0u64; 0];
    let few = both_small(old, new, used, a, b);
    let lines = lines_for(few, old.len() + new.len());
    sized(
        Operation::Join(b),
        old,
        new,
        used,
        a,
        lines,
        &mut known,
        index,
    )
}

// The set of types that are known to be final is kept in `bits`, whatever they held: a bit for each word of the store, as far as they go. With fewer, types behind them are not remembered.
#[tactic(auto, using(finals::proofs::Knows::knows_none))]
pub fn is_final(old: &[u64], new: &[u64], used: usize, a: usize, bits: &mut [u64]) -> bool
    requires { ReadyOne old.now new.now used a }
    ensures { Finals (take used (old.now ++ new.now)) a result }
{
    bitset::clear(bits);
    finals::is_final(old, new, used, a, bits)
}

// Whether make_ro is known to walk at most one struct of a type with this head: its kind is below struct, or its parts have no parts.
fn is_flat(head: u64) -> bool {
    head % kinds::DEPTH < kinds::STRUCT || head / kinds::DEPTH % kinds::DEPTH <= 2
}

// As with is_final, `bits` may hold anything.
#[tactic(auto, using(words::proofs::Zeros::zeros, crate::proofs::Cases::knows_empty, finals::proofs::Knows::knows_none))]
pub fn make_ro(
    old: &[u64],
    new: &mut [u64],
    used: usize,
    a: usize,
    bits: &mut [u64],
    index: &[u64],
) -> Option<Interned>
    requires ready_one { ReadyOne old.now new.old used a }
    requires covers { Covers (take used (old.now ++ new.old)) index.now }
    ensures { Done MakeRo old.now new.old used a new.new result }
{
    if is_flat(words::word(old, new, used, a)) {
        let mut none = [0u64; 0];
        let mut known = [0u64; 0];
        return operate(
            Operation::MakeRo,
            old,
            new,
            used,
            a,
            &mut none,
            &mut known,
            index,
        );
    }
    bitset::clear(bits);
    run(Operation::MakeRo, old, new, used, a, bits, index)
}
