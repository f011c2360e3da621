// The answers of dual, glb and lub that walk no parts, on a store that row 1 has passed.
#![tactic(auto)]

ghost use Rattle.std.specs.Prelude.{◌≡◌, true, ◌++◌, ◌+◌, ◌≤◌, ◌<◌, length, take};
ghost use Rattle.index.specs.Covers.{Covers};
ghost use Rattle.words.specs.Ran.{Segments, Runs};
ghost use Rattle.type_float.specs.Float.{is_size_word};
ghost use Rattle.words.specs.Columns.{kind_on, size_on};
ghost use Rattle.walk_rules.specs.declared.Walk.TheVariants.{Dual};
ghost use Rattle.walk_rules.specs.Tables.{form_for, int_of, float_of};
ghost use Rattle.wellformed.specs.Form.{longest_allowed};

use walk_rules::{Form, Walk};
use words::{Interned, columns, fresh, kinds};

// The form of the walk of the type at a.
#[tactic(auto, using(walk_rules::proofs::Chosen::by_word))]
pub fn form_of(walk: Walk, old: &[u64], new: &[u64], used: usize, a: usize) -> Form
    requires { (length old.now ≤ used) × (used ≤ length old.now + length new.now) }
    ensures { result ≡ form_for walk a (kind_on (take used (old.now ++ new.now)) a) }
{
    walk_rules::form_for(walk, a, words::word(old, new, used, a) % kinds::DEPTH)
}

// ---- answers

#[tactic(auto, using(crate::proofs::Answers::int_dual))]
pub fn int_of(
    walk: Walk,
    old: &[u64],
    new: &mut [u64],
    used: usize,
    a: usize,
    index: &[u64],
) -> Option<Interned>
    requires segments { Segments old.now new.old used }
    requires a_lt_longest_allowed { a < longest_allowed }
    requires covers { Covers (take used (old.now ++ new.old)) index.now }
    ensures { Runs (int_of walk a) old.now new.old used new.new result }
{
    match walk {
        Walk::Dual => {
            let min = words::word(old, new, used, a + columns::MAX);
            let max = words::word(old, new, used, a + columns::MIN);
            makers::int(old, new, used, min, max, index)
        }
        Walk::Glb => Some(Interned {
            handle: fresh::INT_BOT,
            used,
        }),
        Walk::Lub => Some(Interned {
            handle: fresh::INT_TOP,
            used,
        }),
    }
}

#[tactic(auto, using(crate::proofs::Answers::size_most, crate::proofs::Answers::other_known, crate::proofs::Answers::other_fits, crate::proofs::Answers::other_sign))]
fn dual_float(
    old: &[u64],
    new: &mut [u64],
    used: usize,
    a: usize,
    index: &[u64],
) -> Option<Interned>
    requires segments { Segments old.now new.old used }
    requires a_lt_longest_allowed { (a < longest_allowed) × (is_size_word (size_on (take used (old.now ++ new.old)) a) ≡ true) }
    requires covers { Covers (take used (old.now ++ new.old)) index.now }
    ensures { Runs (float_of Dual a) old.now new.old used new.new result }
{
    let size = words::word(old, new, used, a + columns::SIZE);
    if size == wellformed::SIZE_ZERO {
        return Some(Interned { handle: a, used });
    }
    let f = type_float::float_of(wellformed::LARGEST_SIZE - size, 0);
    makers::float(old, new, used, f, 0, index)
}

#[tactic(auto, using(crate::proofs::Answers::float_dual))]
pub fn float_of(
    walk: Walk,
    old: &[u64],
    new: &mut [u64],
    used: usize,
    a: usize,
    index: &[u64],
) -> Option<Interned>
    requires segments { Segments old.now new.old used }
    requires a_lt_longest_allowed { (a < longest_allowed) × (is_size_word (size_on (take used (old.now ++ new.old)) a) ≡ true) }
    requires covers { Covers (take used (old.now ++ new.old)) index.now }
    ensures { Runs (float_of walk a) old.now new.old used new.new result }
{
    match walk {
        Walk::Dual => dual_float(old, new, used, a, index),
        Walk::Glb => Some(Interned {
            handle: fresh::FLOAT_BOT,
            used,
        }),
        Walk::Lub => Some(Interned {
            handle: fresh::FLOAT_TOP,
            used,
        }),
    }
}
