// The merge of a whole list, on a store that row 1 has passed: its rows, and its meets from left to right.
#![tactic(auto)]

ghost use Rattle.std.specs.Prelude.{◌≡◌, ◌++◌, take};
ghost use Rattle.words.specs.Ran.{Runs};
ghost use Rattle.index.specs.Covers.{Covers};
ghost use Rattle.call.specs.Refusals.{row_of};
ghost use Rattle.call.specs.Steps.{Marked};
ghost use Rattle.lent_memory.specs.Memory.{Right, RightThen};
ghost use Rattle.every_call.specs.Cleared.{Cleared};
ghost use Rattle.every_call.specs.MeetList.{meet_list_of, meet_list_rows};

use call::Refusal;
use words::{Interned, fresh};

// The most handles that a list may have.
pub const LONGEST_LIST: usize = 4096;

// Its rows. All handles are tested on the store as it comes.
#[tactic(auto, using(crate::proofs::Rows::over_long, crate::proofs::Rows::not_long))]
pub fn list_rows(words: &[u64], used: usize, bits: &[u64], types: &[u64]) -> Result<(), Refusal>
    requires { Marked words.now bits.now used }
    ensures { row_of result ≡ meet_list_rows types.now (take used words.now) }
{
    if types.len() > LONGEST_LIST {
        return Err(Refusal::LongList); // a list that is too long: no handle of it is read
    }
    rows::types_rows(words, used, bits, types)
}

// Top meets the first, their meet the second, and so on. What is made on the way is appended too.
pub fn meet_list(
    old: &[u64],
    new: &mut [u64],
    used: usize,
    types: &[u64],
    memory: &mut [u64],
    index: &[u64],
) -> Option<Interned>
    requires cleared { Cleared (meet_list_rows types.now) old.now new.old used }
    requires right { Right (take used (old.now ++ new.old)) memory.old }
    requires covers { Covers (take used (old.now ++ new.old)) index.now }
    ensures runs { Runs (meet_list_of types.now) old.now new.old used new.new result }
    ensures right_then { RightThen old.now new.new result memory.new }
{
    let mut met = Interned {
        handle: fresh::TOP,
        used,
    };
    for h in types {
        met = lent_memory::meet(old, new, met.used, met.handle, *h as usize, memory, index)?;
    }
    Some(met)
}
