// Which rule of meet decides for two structs, by their names, heads and fields, on a store that row 1 has passed.
#![tactic(auto)]

ghost use Rattle.std.specs.Prelude.{◌≡◌, ◌++◌, ◌+◌, ◌≤◌, ◌<◌, length, take};
ghost use Rattle.wellformed.specs.Form.{longest_allowed};
ghost use Rattle.meet_rules.specs.Rules.{named_rule, struct_rule};
ghost use Rattle.struct_rules.specs.Below.{NamesBelow};

use meet_rules::StructRule;
use words::{columns, fresh, kinds};

#[tactic(auto, using(std::proofs::lemmas::Bool::Decides::nat_tests, crate::proofs::Few::few_fields, crate::proofs::Few::names_low, crate::proofs::Few::names_low_too), unfolding(meet_rules::specs::Rules::named_rule))]
fn named_rule(old: &[u64], new: &[u64], used: usize, a: usize, b: usize) -> StructRule
    requires len_bound { (length old.now ≤ used) × (used ≤ length old.now + length new.now) }
    requires a_lt_longest_allowed { (a < longest_allowed) × (b < longest_allowed) × NamesBelow (take used (old.now ++ new.now)) a × NamesBelow (take used (old.now ++ new.now)) b }
    ensures { result ≡ named_rule (take used (old.now ++ new.now)) a b }
{
    let x = words::word(old, new, used, a + columns::NAME) as usize;
    let y = words::word(old, new, used, b + columns::NAME) as usize;
    if !same_names::same_name(old, new, used, x, y) {
        return StructRule::Lowest;
    }
    let f = words::word(old, new, used, a);
    let g = words::word(old, new, used, b);
    if f % kinds::DEPTH == kinds::FREF {
        return StructRule::Latter; // a forward reference yields to its namesake
    }
    if g % kinds::DEPTH == kinds::FREF {
        return StructRule::Former;
    }
    if f / kinds::COUNT != g / kinds::COUNT {
        return StructRule::Lowest;
    }
    let n = (f / kinds::COUNT) as usize;
    if !same_names::same_fields(old, new, used, n, a + columns::FIELDS, b + columns::FIELDS) {
        return StructRule::Lowest;
    }
    StructRule::Fields
}

// The rule for the structs or forward references at a and b.
#[tactic(auto, using(std::proofs::lemmas::Bool::Decides::nat_tests), unfolding(meet_rules::specs::Rules::struct_rule))]
pub fn struct_rule(old: &[u64], new: &[u64], used: usize, a: usize, b: usize) -> StructRule
    requires len_bound { (length old.now ≤ used) × (used ≤ length old.now + length new.now) }
    requires a_lt_longest_allowed { (a < longest_allowed) × (b < longest_allowed) × NamesBelow (take used (old.now ++ new.now)) a × NamesBelow (take used (old.now ++ new.now)) b }
    ensures { result ≡ struct_rule (take used (old.now ++ new.now)) a b }
{
    if a == b {
        return StructRule::Former;
    }
    match (a, b) {
        (fresh::STRUCT_BOT, _) | (_, fresh::STRUCT_BOT) => StructRule::Lowest,
        (fresh::STRUCT_TOP, _) => StructRule::Latter,
        (_, fresh::STRUCT_TOP) => StructRule::Former,
        _ => named_rule(old, new, used, a, b),
    }
}
