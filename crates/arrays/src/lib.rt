// The maker of array types, on a store that row 1 has passed. It makes four entries in a row, and leaves word 0 to the call.
#![tactic(auto)]

ghost use Rattle.std.specs.Prelude.{◌+◌, ◌≤◌, ◌++◌, length, take};
ghost use Rattle.index.specs.Covers.{Covers};
ghost use Rattle.words.specs.Ran.{Segments, Runs};
ghost use Rattle.makers.specs.Makers.{make_ary};
ghost use Rattle.wellformed.specs.Entry.{most_counted, largest_alias};

use words::Interned;

// "wraps the lent text in brackets (255 bytes in all); fields "#" (final) and "[]" (not final)". Where a name finds no room there is no
// next, and all four together do not fit either.
pub fn array(
    old: &[u64],
    new: &mut [u64],
    used: usize,
    len: u64,
    len_alias: u64,
    body: u64,
    body_alias: u64,
    text: &[u8],
    index: &[u64],
) -> Option<Interned>
    requires segments { Segments old.now new.old used }
    // the text and its two brackets
    requires text_bound { (2 + length text.now ≤ most_counted) × (len_alias ≤ largest_alias) × (body_alias ≤ largest_alias) }
    requires covers { Covers (take used (old.now ++ new.old)) index.now }
    ensures { Runs (make_ary len len_alias body body_alias text.now) old.now new.old used new.new result }
{
    let name = names::intern_name(old, new, used, text, true, index)?;
    let l = names::intern_name(old, new, name.used, b"#", false, index)?;
    let b = names::intern_name(old, new, l.used, b"[]", false, index)?;
    let fields = [
        l.handle as u64,
        len,
        len_alias,
        1,
        b.handle as u64,
        body,
        body_alias,
        0,
    ];
    makers::structure(old, new, b.used, name.handle as u64, &fields, index)
}
