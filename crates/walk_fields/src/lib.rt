// A struct made again with the types and finals of its walk, on a store that row 1 has passed.
#![tactic(auto)]

ghost use Rattle.std.specs.Prelude.{◌≡◌, true, ◌++◌, ◌+◌, ◌≤◌, ◌<◌, length, take, drop};
ghost use Rattle.index.specs.Covers.{Covers};
ghost use Rattle.words.specs.Ran.{Segments, Runs};
ghost use Rattle.wellformed.specs.Entry.{all, is_alias_final, most_counted};
ghost use Rattle.words.specs.Columns.{every, first_flags_on, first_flags};
ghost use Rattle.words.specs.Words.{field_size};
ghost use Rattle.walk_rules.specs.Tables.{finals_of, walk_fields};
ghost use Rattle.wellformed.specs.Form.{longest_allowed};

use walk_rules::Walk;
use words::{Interned, columns, limits};

// Fills the first bytes of `dst` with n finals: the words 2 × alias + final stand from p on, 3 apart.
fn finals_of(walk: Walk, dst: &mut [u8], old: &[u64], new: &[u64], used: usize, n: usize, p: usize)
    requires len_bound { (length old.now ≤ used) × (used ≤ length old.now + length new.now) }
    requires n_in_bounds { (n ≤ length dst.old) × (n ≤ most_counted) × (p ≤ first_flags longest_allowed) }
    ensures { dst.new ≡ finals_of walk (every field_size n p (take used (old.now ++ new.now))) ++ drop n dst.old }
{
    for i in 0..n {
        dst[i] = walk_rules::final_of(
            walk,
            words::word(old, new, used, p + columns::FIELD * i),
        ) as u8;
    }
}

// Makes the struct at a with these types and the walk's finals.
pub fn fields_of(
    walk: Walk,
    old: &[u64],
    new: &mut [u64],
    used: usize,
    a: usize,
    types: &[u32],
    index: &[u64],
) -> Option<Interned>
    requires segments { Segments old.now new.old used }
    requires types_len_bound { (length types.now ≤ most_counted) × (a < longest_allowed) × (all is_alias_final (first_flags_on (take used (old.now ++ new.old)) (length types.now) a) ≡ true) }
    requires covers { Covers (take used (old.now ++ new.old)) index.now }
    ensures { Runs (walk_fields walk a types.now) old.now new.old used new.new result }
{
    let n = types.len();
    let mut finals = [0u8; limits::MOST_COUNTED];
    finals_of(
        walk,
        &mut finals,
        old,
        new,
        used,
        n,
        a + columns::FIELD_FLAGS,
    );
    structs::made_again(old, new, used, a, types, &finals[..n], index)
}
