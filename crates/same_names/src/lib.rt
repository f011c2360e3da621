// Whether two names are the same, and whether the fields of two structs have the same names and aliases.
#![tactic(auto)]

ghost use Rattle.std.specs.Prelude.{◌≡◌, true, ◌++◌, ◌+◌, ◌^◌, ◌≤◌, ltb, length, take};
ghost use Rattle.wellformed.specs.Entry.{all, most_counted};
ghost use Rattle.wellformed.specs.Form.{longest_allowed};
ghost use Rattle.words.specs.Columns.{first_field, names_from};
ghost use Rattle.meet_rules.specs.Names.{same_words, same_name, same_fields};

use words::columns;

// Whether n words from p on are those from q on.
fn same_words(old: &[u64], new: &[u64], used: usize, n: usize, p: usize, q: usize) -> bool
    requires len_bound { (length old.now ≤ used) × (used ≤ length old.now + length new.now) }
    // so that no sum runs over
    requires n_bound { (n ≤ 2 ^ 60) × (p ≤ 2 ^ 60) × (q ≤ 2 ^ 60) }
    ensures { result ≡ same_words (take used (old.now ++ new.now)) n p q }
{
    for i in 0..n {
        if words::word(old, new, used, p + i) != words::word(old, new, used, q + i) {
            return false;
        }
    }
    true
}

// Whether the names at p and q have the same bytes.
pub fn same_name(old: &[u64], new: &[u64], used: usize, p: usize, q: usize) -> bool
    requires len_bound { (length old.now ≤ used) × (used ≤ length old.now + length new.now) }
    requires p_bound { (p ≤ 2 ^ 60) × (q ≤ 2 ^ 60) }
    ensures { result ≡ same_name (take used (old.now ++ new.now)) p q }
{
    if p == q {
        return true;
    }
    let n = words::size(words::word(old, new, used, p));
    same_words(old, new, used, n, p, q)
}

// Whether the n fields from p on have the names and aliases of those from q on.
pub fn same_fields(old: &[u64], new: &[u64], used: usize, n: usize, p: usize, q: usize) -> bool
    requires len_bound { (length old.now ≤ used) × (used ≤ length old.now + length new.now) }
    requires n_le_most_counted { (n ≤ most_counted) × (p ≤ first_field longest_allowed) × (q ≤ first_field longest_allowed) }
    requires value { (all (λ x. ltb x longest_allowed) (names_from n p (take used (old.now ++ new.now))) ≡ true) × (all (λ x. ltb x longest_allowed) (names_from n q (take used (old.now ++ new.now))) ≡ true) }
    ensures { result ≡ same_fields (take used (old.now ++ new.now)) n p q }
{
    for i in 0..n {
        let x = words::word(old, new, used, p + columns::FIELD * i) as usize;
        let y = words::word(old, new, used, q + columns::FIELD * i) as usize;
        if !same_name(old, new, used, x, y) {
            return false;
        }
        let f = words::word(old, new, used, p + columns::FIELD * i + columns::FLAGS);
        let g = words::word(old, new, used, q + columns::FIELD * i + columns::FLAGS);
        if f / 2 != g / 2 {
            return false;
        }
    }
    true
}
