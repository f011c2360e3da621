// The way of every plain call: row 1, its rows, its operation or answer, the end. Row 1 is lent an array of bits whose size goes by the list's length, so that a
// small store does not pay for a large one's; once the rows are read, is_final and make_ro may keep in the same bits which types are known to be final. Each size stands in the frame of a function of its own, which is put into
// no other.
#![tactic(auto)]

ghost use Rattle.std.specs.Prelude.{◌≡◌, [], ◌*◌, ◌≤◌, min, length};
ghost use Rattle.call.specs.Call.{left, made, told};
ghost use Rattle.every_call.specs.Run.{run};
ghost use Rattle.making.specs.Making.{appended};
ghost use Rattle.asking.specs.Asking.{asked_filling, asked, output_of};
ghost use Rattle.wellformed.specs.Form.{longest_allowed};
ghost use Rattle.bitset.specs.Bitset.{word_bits};

use asking::Asking;
use call::{Answer, Refusal};
use making::Making;
use struct_calls::{Filling, OfStruct};
use wellformed::{LARGE_MARKS, MIDDLE_LIST, MIDDLE_MARKS, SMALL_LIST, SMALL_MARKS};

// ---- calls that append

fn append_in(
    words: &mut [u64],
    bits: &mut [u64],
    making: Making,
    list: &[u64],
    text: &[u8],
) -> Result<u64, Refusal>
    requires { min (length words.old) longest_allowed ≤ word_bits * length bits.old }
    ensures { left (made result) words.new ≡ run (appended making list.now text.now) words.old }
{
    let used = call::begin(words, bits)?;
    making::rows_of(words, used, bits, making, list, text)?;
    making::append(words, used, making, list, text, bits, &mut [], &[])
}

// With so many words of bits.
#[inline(never)]
fn append_with<const MARKS: usize>(
    words: &mut [u64],
    making: Making,
    list: &[u64],
    text: &[u8],
) -> Result<u64, Refusal>
    requires enough { min (length words.old) longest_allowed ≤ word_bits * MARKS }
    requires few { MARKS ≤ longest_allowed }
    ensures { left (made result) words.new ≡ run (appended making list.now text.now) words.old }
{
    let mut bits = [0u64; MARKS];
    append_in(words, &mut bits, making, list, text)
}

pub fn append(words: &mut [u64], making: Making, list: &[u64], text: &[u8]) -> Result<u64, Refusal>
    ensures { left (made result) words.new ≡ run (appended making list.now text.now) words.old }
{
    let n = words.len();
    if n <= SMALL_LIST {
        return append_with::<SMALL_MARKS>(words, making, list, text);
    }
    if n <= MIDDLE_LIST {
        return append_with::<MIDDLE_MARKS>(words, making, list, text);
    }
    append_with::<LARGE_MARKS>(words, making, list, text)
}

// A call that has neither a list nor a text.
pub fn make(words: &mut [u64], making: Making) -> Result<u64, Refusal>
    ensures { left (made result) words.new ≡ run (appended making [] []) words.old }
{
    append(words, making, &[], b"")
}

// ---- calls that read

fn ask_in(words: &[u64], bits: &mut [u64], asking: Asking) -> Result<Answer, Refusal>
    requires { min (length words.now) longest_allowed ≤ word_bits * length bits.old }
    ensures { left (told result) words.now ≡ run (asked asking) words.now }
{
    let used = call::begin(words, bits)?;
    asking::rows_of(words, used, bits, asking)?;
    Ok(asking::tell(words, used, asking, bits, &mut [], &[]))
}

// With so many words of bits.
#[inline(never)]
fn ask_with<const MARKS: usize>(words: &[u64], asking: Asking) -> Result<Answer, Refusal>
    requires enough { min (length words.now) longest_allowed ≤ word_bits * MARKS }
    requires few { MARKS ≤ longest_allowed }
    ensures { left (told result) words.now ≡ run (asked asking) words.now }
{
    let mut bits = [0u64; MARKS];
    ask_in(words, &mut bits, asking)
}

pub fn ask(words: &[u64], asking: Asking) -> Result<Answer, Refusal>
    ensures { left (told result) words.now ≡ run (asked asking) words.now }
{
    let n = words.len();
    if n <= SMALL_LIST {
        return ask_with::<SMALL_MARKS>(words, asking);
    }
    if n <= MIDDLE_LIST {
        return ask_with::<MIDDLE_MARKS>(words, asking);
    }
    ask_with::<LARGE_MARKS>(words, asking)
}

// A call that fills a lent output.
pub fn fill(words: &[u64], filling: Filling, s: u64, output: &mut [u64]) -> Result<Answer, Refusal>
    ensures words_value { left (told result) words.now ≡ run (asked_filling filling s (length output.old)) words.now }
    ensures output_after { output.new ≡ output_of filling s words.now output.old }
{
    let n = output.len() as u64;
    let answer = ask(words, Asking::Struct(OfStruct::Fill(filling, n), s));
    asking::fill(words, filling, s, answer, output);
    answer
}
