// The struct that two structs meet in, made of the types that their fields met in, on a store that row 1 has passed.
#![tactic(auto)]

ghost use Rattle.std.specs.Prelude.{◌≡◌, true, ◌++◌, ◌+◌, ◌*◌, ◌≤◌, ◌<◌, length, take, drop};
ghost use Rattle.index.specs.Covers.{Covers};
ghost use Rattle.words.specs.Ran.{Segments, Runs};
ghost use Rattle.wellformed.specs.Entry.{all, is_alias_final, most_counted};
ghost use Rattle.words.specs.Columns.{every, first_flags_on, first_flags};
ghost use Rattle.words.specs.Words.{field_size};
ghost use Rattle.meet_fields.specs.Fields.{either_final, meet_fields};
ghost use Rattle.wellformed.specs.Form.{longest_allowed};

use words::{Interned, columns, limits};

// Fills the first bytes of `dst` with n finals, or-ed: the words 2 × alias + final stand from p and from q on, 3 apart.
fn either_final(dst: &mut [u8], old: &[u64], new: &[u64], used: usize, n: usize, p: usize, q: usize)
    requires len_bound { (length old.now ≤ used) × (used ≤ length old.now + length new.now) }
    requires n_in_bounds { (n ≤ length dst.old) × (n ≤ most_counted) × (p ≤ first_flags longest_allowed) × (q ≤ first_flags longest_allowed) }
    ensures { dst.new ≡ either_final (every field_size n p (take used (old.now ++ new.now))) (every field_size n q (take used (old.now ++ new.now))) ++ drop n dst.old }
{
    for i in 0..n {
        let f = words::word(old, new, used, p + columns::FIELD * i) % 2;
        let g = words::word(old, new, used, q + columns::FIELD * i) % 2;
        dst[i] = f.max(g) as u8;
    }
}

// Makes the struct that the structs at a and b meet in, with these types.
pub fn meet_fields(
    old: &[u64],
    new: &mut [u64],
    used: usize,
    a: usize,
    b: usize,
    types: &[u32],
    index: &[u64],
) -> Option<Interned>
    requires segments { Segments old.now new.old used }
    requires types_len_bound { (length types.now ≤ most_counted) × (a < longest_allowed) × (b < longest_allowed) × (all is_alias_final (first_flags_on (take used (old.now ++ new.old)) (length types.now) a) ≡ true) }
    requires covers { Covers (take used (old.now ++ new.old)) index.now }
    ensures { Runs (meet_fields a b types.now) old.now new.old used new.new result }
{
    let n = types.len();
    let mut finals = [0u8; limits::MOST_COUNTED];
    either_final(
        &mut finals,
        old,
        new,
        used,
        n,
        a + columns::FIELD_FLAGS,
        b + columns::FIELD_FLAGS,
    );
    structs::made_again(old, new, used, a, types, &finals[..n], index)
}
