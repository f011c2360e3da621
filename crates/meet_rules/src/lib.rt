// Which rule of meet decides for two types, by their handles and heads.
#![tactic(auto)]

ghost use Rattle.std.specs.Prelude.{◌≡◌, ◌&&◌, ◌++◌, ◌+◌, ◌≤◌, length, take};
ghost use Rattle.wellformed.specs.Entry.{is_struct};
ghost use Rattle.meet_rules.specs.Rules.{mem_rule, pair_rule, rule_for, type_rule, shared_alias};

use words::{fresh, kinds, limits};

// What a type's meet does.
#[derive(Clone, Copy)]
pub enum Rule {
    First,
    Second,
    Bottom,
    Ints,
    Floats,
    Tuples,
    Structs,
    Pointers,
    Memories,
}

// What a struct's meet does.
#[derive(Clone, Copy)]
pub enum StructRule {
    Former,
    Latter,
    Lowest,
    Fields,
}

// ---- types

#[tactic(auto, using(std::proofs::lemmas::Bool::Decides::nat_tests))]
fn mem_rule(a: usize, b: usize) -> Rule
    ensures { result ≡ mem_rule a b }
{
    match (a, b) {
        (fresh::MEM_BOT, _) => Rule::First,
        (_, fresh::MEM_BOT) => Rule::Second,
        (fresh::MEM_TOP, _) => Rule::Second,
        (_, fresh::MEM_TOP) => Rule::First,
        _ => Rule::Memories,
    }
}

#[tactic(auto, using(std::proofs::lemmas::Bool::Decides::nat_tests), unfolding(crate::specs::Rules::pair_rule))]
fn pair_rule(a: usize, b: usize, j: u64, k: u64, m: u64, n: u64) -> Rule
    ensures { result ≡ pair_rule a b j k m n }
{
    match (j, k) {
        (kinds::INT, kinds::INT) => Rule::Ints,
        (kinds::FLOAT, kinds::FLOAT) => Rule::Floats,
        (kinds::TUPLE, kinds::TUPLE) if m == n => Rule::Tuples,
        (kinds::STRUCT | kinds::FREF, kinds::STRUCT | kinds::FREF) => Rule::Structs,
        (kinds::MEM_PTR, kinds::MEM_PTR) => Rule::Pointers,
        (kinds::MEM, kinds::MEM) => mem_rule(a, b),
        _ => Rule::Bottom,
    }
}

#[tactic(auto, using(std::proofs::lemmas::Bool::Decides::nat_tests), unfolding(crate::specs::Rules::rule_for))]
fn rule_for(a: usize, b: usize, j: u64, k: u64, m: u64, n: u64) -> Rule
    ensures { result ≡ rule_for a b j k m n }
{
    if a == b {
        return Rule::First;
    }
    match (j, k) {
        (kinds::BOT, _) => Rule::First,
        (_, kinds::BOT) => Rule::Second,
        (_, kinds::TOP) => Rule::First,
        (kinds::TOP, _) => Rule::Second,
        (kinds::CTRL, kinds::XCTRL) => Rule::First,
        (kinds::XCTRL, kinds::CTRL) => Rule::Second,
        _ => pair_rule(a, b, j, k, m, n),
    }
}

// The rule for the types at a and b.
pub fn type_rule(old: &[u64], new: &[u64], used: usize, a: usize, b: usize) -> Rule
    requires { (length old.now ≤ used) × (used ≤ length old.now + length new.now) }
    ensures { result ≡ type_rule (take used (old.now ++ new.now)) a b }
{
    let x = words::word(old, new, used, a);
    let y = words::word(old, new, used, b);
    let m = x / kinds::COUNT;
    let n = y / kinds::COUNT;
    rule_for(a, b, x % kinds::DEPTH, y % kinds::DEPTH, m, n)
}

// ---- aliases

// The alias that two memories share, or the largest.
#[tactic(auto, using(std::proofs::lemmas::Bool::Decides::nat_tests))]
pub fn shared_alias(x: u64, y: u64) -> u64
    ensures { result ≡ shared_alias x y }
{
    if x == y {
        return x;
    }
    limits::LARGEST_ALIAS
}
