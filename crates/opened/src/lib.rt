// A store that is opened: row 1 is tested once, and an index and a memory of answers are kept in lent lists beside it. A call then goes the way of a plain one but for row 1:
// its rows, its operation with the index and the memory, the end; then what was appended is taken into the index. That nobody else writes the three lists between two calls is required,
// and in Rattle shown by the caller.
#![tactic(auto)]

ghost use Rattle.std.specs.Prelude.{◌≡◌, true, [], ◌≤◌, length};
ghost use Rattle.wellformed.specs.Form.{well_formed};
ghost use Rattle.store_index.specs.StoreIndex.{index_size};
ghost use Rattle.call.specs.Call.{left, made, told, done};
ghost use Rattle.every_call.specs.Run.{run};
ghost use Rattle.making.specs.Making.{appended};
ghost use Rattle.asking.specs.Asking.{asked_filling, asked, output_of};
ghost use Rattle.opened.specs.OpenStore.{OpenStore, open_reply, Opening};

use asking::Asking;
use call::{Answer, Refusal};
use making::Making;
use struct_calls::{Filling, OfStruct};

// ---- opening

// Makes the index, and a blank memory, of a store that row 1 has passed.
pub fn build(words: &[u64], index: &mut [u64], memory: &mut [u64])
    requires { (well_formed words.now ≡ true) × (index_size (length words.now) ≤ length index.old) }
    ensures { OpenStore words.now index.new memory.new }
{
    let k = store_index::marks_size(words.len());
    bitset::clear(&mut index[..k]);
    index::blank(&mut index[k..]);
    store_index::extend(words, index);
    words::clear(memory);
}

// Tests row 1, and makes the index and a blank memory.
pub fn open(words: &[u64], index: &mut [u64], memory: &mut [u64]) -> Result<(), Refusal>
    ensures result_value { done result ≡ open_reply words.now (length index.old) }
    ensures opening { Opening words.now index.old memory.old index.new memory.new result }
{
    if !wellformed::well_formed(words) {
        return Err(Refusal::NoStore);
    }
    let n = words.len();
    // behind the bits the two halves of the chains, a word for each word of the list
    if index.len() < store_index::marks_size(n) + 2 * n {
        return Err(Refusal::ShortOutput);
    }
    build(words, index, memory);
    Ok(())
}

// ---- calls

// A call that appends.
pub fn append(
    words: &mut [u64],
    index: &mut [u64],
    memory: &mut [u64],
    making: Making,
    list: &[u64],
    text: &[u8],
) -> Result<u64, Refusal>
    requires { OpenStore words.old index.old memory.old }
    ensures words_after { left (made result) words.new ≡ run (appended making list.now text.now) words.old }
    ensures open_store { OpenStore words.new index.new memory.new }
{
    let used = words[0] as usize;
    let k = store_index::marks_size(words.len());
    making::rows_of(words, used, &index[..k], making, list, text)?;
    let r = making::append(
        words,
        used,
        making,
        list,
        text,
        &mut [],
        memory,
        &index[k..],
    );
    store_index::extend(words, index);
    r
}

// A call that has neither a list nor a text.
pub fn make(
    words: &mut [u64],
    index: &mut [u64],
    memory: &mut [u64],
    making: Making,
) -> Result<u64, Refusal>
    requires { OpenStore words.old index.old memory.old }
    ensures words_after { left (made result) words.new ≡ run (appended making [] []) words.old }
    ensures open_store { OpenStore words.new index.new memory.new }
{
    append(words, index, memory, making, &[], b"")
}

// A call that only reads.
pub fn ask(
    words: &[u64],
    index: &[u64],
    memory: &mut [u64],
    asking: Asking,
) -> Result<Answer, Refusal>
    requires { OpenStore words.now index.now memory.old }
    ensures words_value { left (told result) words.now ≡ run (asked asking) words.now }
    ensures open_store { OpenStore words.now index.now memory.new }
{
    let used = words[0] as usize;
    let k = store_index::marks_size(words.len());
    asking::rows_of(words, used, &index[..k], asking)?;
    Ok(asking::tell(words, used, asking, &mut [], memory, &index[k..]))
}

// A call that fills a lent output.
pub fn fill(
    words: &[u64],
    index: &[u64],
    memory: &mut [u64],
    filling: Filling,
    s: u64,
    output: &mut [u64],
) -> Result<Answer, Refusal>
    requires { OpenStore words.now index.now memory.old }
    ensures words_value { left (told result) words.now ≡ run (asked_filling filling s (length output.old)) words.now }
    ensures output_after { output.new ≡ output_of filling s words.now output.old }
    ensures open_store { OpenStore words.now index.now memory.new }
{
    let n = output.len() as u64;
    let asking = Asking::Struct(OfStruct::Fill(filling, n), s);
    let answer = ask(words, index, memory, asking);
    asking::fill(words, filling, s, answer, output);
    answer
}
