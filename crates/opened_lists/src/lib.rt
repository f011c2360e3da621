// The merge of a whole list on an opened store. The index takes in what each meet appends before the next, so that a long list costs what its meets cost one by one. Where an
// answer does not fit, entries are in the index that are gone, and it is made anew.
#![tactic(auto)]

ghost use Rattle.std.specs.Prelude.{◌≡◌, [], take};
ghost use Rattle.words.specs.Ran.{Runs};
ghost use Rattle.index.specs.Covers.{Opened};
ghost use Rattle.call.specs.Call.{left, made};
ghost use Rattle.lent_memory.specs.Memory.{Right, RightThen};
ghost use Rattle.every_call.specs.Cleared.{Cleared};
ghost use Rattle.every_call.specs.MeetList.{meet_list_rows, meet_list_of};
ghost use Rattle.every_call.specs.Run.{run, meet_list};
ghost use Rattle.opened.specs.OpenStore.{OpenStore};
ghost use Rattle.opened_lists.specs.Then.{OpenedThen};

use call::Refusal;
use words::{Interned, fresh};

// Top meets the first, their meet the second, and so on, as in `meet_list::meet_list`; `chains` is the index without its bits. Word 0 is left alone.
fn merge(
    words: &mut [u64],
    used: usize,
    types: &[u64],
    chains: &mut [u64],
    memory: &mut [u64],
) -> Option<Interned>
    requires cleared { Cleared (meet_list_rows types.now) [] words.old used }
    requires opened { Opened (take used words.old) chains.old }
    requires right { Right (take used words.old) memory.old }
    ensures runs { Runs (meet_list_of types.now) [] words.old used words.new result }
    ensures opened_then { OpenedThen words.new result chains.new }
    ensures right_then { RightThen [] words.new result memory.new }
{
    let none = [0u64; 0];
    let mut met = Interned {
        handle: fresh::TOP,
        used,
    };
    for h in types {
        met = lent_memory::meet(
            &none,
            words,
            met.used,
            met.handle,
            *h as usize,
            memory,
            chains,
        )?;
        index::extend(words, met.used, chains);
    }
    Some(met)
}

pub fn meet_list(
    words: &mut [u64],
    index: &mut [u64],
    memory: &mut [u64],
    types: &[u64],
) -> Result<u64, Refusal>
    requires { OpenStore words.old index.old memory.old }
    ensures words_after { left (made result) words.new ≡ run (meet_list types.now) words.old }
    ensures open_store { OpenStore words.new index.new memory.new }
{
    let used = words[0] as usize;
    let k = store_index::marks_size(words.len());
    meet_list::list_rows(words, used, &index[..k], types)?;
    let r = merge(words, used, types, &mut index[k..], memory);
    let m = call::finish(words, used, r);
    match m {
        Ok(_) => store_index::mark_new(words, used, index),
        // the index and the memory may speak of entries that are gone
        Err(_) => opened::build(words, index, memory),
    }
    m
}
