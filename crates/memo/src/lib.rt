// A memory of answers: one word a line, a key times 2 to the 20 and the answer, which is below 2 to the 20. A word of 0 is an empty line, and a key of 0 is
// none: nothing is remembered under it. A key is looked for in 64 lines, from the line that it asks for on, round the memory, up to the first empty one: so
// a full memory costs no more than 64 reads. Where none of these lines is free, a new key takes the place of the one in the line that it asks for. With
// no line nothing is remembered.
#![tactic(auto)]

ghost use Rattle.std.specs.Prelude.{◌≡◌, ◌<◌, ◌≤◌, length};
ghost use Rattle.memo.specs.Memo.{Tells, Noted, Learned};

use words::Interned;

// A line is key × ANSWERS + answer: an answer is a handle, below 2 to the 20, and a key is below 2 to the 44, so that both fit a word.
pub const ANSWERS: u64 = 1048576;

const KEYS: u64 = 17592186044416;

// How many lines are looked at for a key.
const LOOKED_AT: usize = 64;

// The line that a key asks for. Keys below 2 to the 20 ask for different lines where there are as many. Pairs come in rows and columns, whose lines would
// lie in heaps if they went by their numbers: they are spread by a hash.
fn home(lines: usize, key: u64) -> usize
    requires { 0 < lines }
    ensures { result < lines }
{
    if key < lines as u64 {
        return key as usize;
    }
    if key < ANSWERS {
        return (key % (lines as u64)) as usize;
    }
    index::slot(lines, index::stir(key))
}

// In how many lines a key is looked for.
fn probes(lines: usize) -> usize
    ensures { result ≤ lines }
{
    lines.min(LOOKED_AT)
}

// The line behind line i.
fn after(lines: usize, i: usize) -> usize
    requires { i < lines }
    ensures { result < lines }
{
    if i + 1 < lines {
        return i + 1;
    }
    0
}

// A line for a key: one that has it, or the first empty one, else the one that it asks for.
fn place(memo: &[u64], key: u64) -> usize
    requires { 0 < length memo.now }
    ensures { result < length memo.now }
{
    let lines = memo.len();
    let mut i = home(lines, key);
    for _ in 0..probes(lines) {
        let line = memo[i];
        if line == 0 || line / ANSWERS == key {
            return i;
        }
        i = after(lines, i);
    }
    home(lines, key)
}

// The answer to a key, if one of its lines has it. A key is a number, 0 for none, and no Option: a line holds it as it is, and one test here and one in `note` do for all callers.
#[tactic(auto, using(crate::proofs::Lines::tells_nothing, crate::proofs::Lines::tells_line))]
pub fn recall(memo: &[u64], key: u64) -> Option<u64>
    ensures { Tells memo.now key result }
{
    if memo.is_empty() || key == 0 {
        return None;
    }
    let line = memo[place(memo, key)];
    if line / ANSWERS == key {
        return Some(line % ANSWERS);
    }
    None
}

// From now on a line has the key, where the key and the answer fit in one.
#[tactic(auto, using(crate::proofs::Lines::noted_none, crate::proofs::Lines::noted_line))]
pub fn note(memo: &mut [u64], key: u64, answer: u64)
    ensures { Noted memo.old key answer memo.new }
{
    if memo.is_empty() || key == 0 || KEYS <= key || ANSWERS <= answer {
        return;
    }
    let i = place(memo, key);
    memo[i] = key * ANSWERS + answer;
}

// The same for the handle that an operation answers, on the answer's way through.
#[tactic(auto, using(crate::proofs::Lines::learned_none, crate::proofs::Lines::learned_at))]
pub fn noted(memo: &mut [u64], key: u64, r: Option<Interned>) -> Option<Interned>
    ensures value { result ≡ r }
    ensures learned { Learned memo.old key r memo.new }
{
    if let Some(m) = r {
        note(memo, key, m.handle as u64);
    }
    r
}
