// The answers of meet that meet no parts, on a store that row 1 has passed.
#![tactic(auto)]

ghost use Rattle.std.specs.Prelude.{◌≡◌, true, ◌++◌, ◌+◌, ◌≤◌, ◌<◌, length, take};
ghost use Rattle.index.specs.Covers.{Covers};
ghost use Rattle.words.specs.Made.{make};
ghost use Rattle.words.specs.Ran.{Segments, Runs};
ghost use Rattle.type_float.specs.Float.{is_size_word};
ghost use Rattle.float_meet.specs.FloatRule.{float_rule};
ghost use Rattle.type_integer.specs.Signed.{smaller, larger};
ghost use Rattle.words.specs.Columns.{min_on, max_on, size_on};
ghost use Rattle.makers.specs.Entries.{int_entry};
ghost use Rattle.meet_rules.specs.Rules.{reading_on, float_handle};
ghost use Rattle.wellformed.specs.Form.{longest_allowed};

use float_meet::FloatMeet;
use words::{Interned, columns, fresh};

pub fn meet_int(
    old: &[u64],
    new: &mut [u64],
    used: usize,
    a: usize,
    b: usize,
    index: &[u64],
) -> Option<Interned>
    requires segments { Segments old.now new.old used }
    requires a_lt_longest_allowed { (a < longest_allowed) × (b < longest_allowed) }
    requires covers { Covers (take used (old.now ++ new.old)) index.now }
    ensures { Runs (λ u. make u (int_entry (smaller (min_on u a) (min_on u b)) (larger (max_on u a) (max_on u b)))) old.now new.old used new.new result }
{
    let min = type_integer::smaller_of(
        words::word(old, new, used, a + columns::MIN),
        words::word(old, new, used, b + columns::MIN),
    );
    let max = type_integer::larger_of(
        words::word(old, new, used, a + columns::MAX),
        words::word(old, new, used, b + columns::MAX),
    );
    makers::int(old, new, used, min, max, index)
}

// The handle of the float that answers.
fn float_handle(a: usize, b: usize, m: FloatMeet) -> usize
    ensures { result ≡ float_handle a b m }
{
    match m {
        FloatMeet::First => a,
        FloatMeet::Second => b,
        FloatMeet::Single => fresh::FLOAT_B32,
        FloatMeet::Double => fresh::FLOAT_BOT,
    }
}

pub fn meet_float(old: &[u64], new: &[u64], used: usize, a: usize, b: usize) -> usize
    requires len_bound { (length old.now ≤ used) × (used ≤ length old.now + length new.now) × (a < longest_allowed) × (b < longest_allowed) }
    requires a_value { (is_size_word (size_on (take used (old.now ++ new.now)) a) ≡ true) × (is_size_word (size_on (take used (old.now ++ new.now)) b) ≡ true) }
    ensures { result ≡ float_handle a b (float_rule (reading_on (take used (old.now ++ new.now)) a) (reading_on (take used (old.now ++ new.now)) b)) }
{
    let f = type_float::float_of(
        words::word(old, new, used, a + columns::SIZE),
        words::word(old, new, used, a + columns::BITS),
    );
    let g = type_float::float_of(
        words::word(old, new, used, b + columns::SIZE),
        words::word(old, new, used, b + columns::BITS),
    );
    float_handle(a, b, float_meet::meet(f, g))
}
