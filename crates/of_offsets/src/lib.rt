// The offsets of a struct's fields. `used` words are used.
#![tactic(auto)]

ghost use Rattle.std.specs.Prelude.{◌≡◌, false, ◌++◌, ◌≤◌, ◌<◌, length, take, drop};
ghost use Rattle.words.specs.Columns.{count_on};
ghost use Rattle.wellformed.specs.Entry.{most_counted};
ghost use Rattle.call.specs.Refusals.{row_of};
ghost use Rattle.call.specs.Steps.{Marked};
ghost use Rattle.of_offsets.specs.OfOffsets.{log_sizes_on, offsets_on, offset_on, ary_scale, unsized_field, offsets_rows, offset_rows, ary_base_rows, ary_scale_rows};

use call::Refusal;
use words::{columns, kinds};

// Whether a field has no log size. The count of fields may be that of any head.
fn unsized_field(words: &[u64], used: usize, s: usize) -> bool
    requires { (used ≤ length words.now) × (s < used) }
    ensures { result ≡ unsized_field (take used words.now) s }
{
    let none = [0u64; 0];
    let n = (words::word(&none, words, used, s) / kinds::COUNT) as usize;
    for i in 0..n {
        let at = s + columns::FIELD_TYPES + columns::FIELD * i;
        let t = words::word(&none, words, used, at);
        if of_types::log_size(words, used, t) >= of_types::NO_LOG_SIZE {
            return true;
        }
    }
    false
}

// Fills the first words of the output with the log sizes of the n fields.
fn fill_logs(words: &[u64], used: usize, s: usize, n: usize, output: &mut [u64])
    requires { (used ≤ length words.now) × (s < used) × (n ≡ count_on (take used words.now) s) × (n ≤ most_counted) × (n ≤ length output.old) }
    ensures { output.new ≡ log_sizes_on (take used words.now) s ++ drop n output.old }
{
    let none = [0u64; 0];
    for i in 0..n {
        let at = s + columns::FIELD_TYPES + columns::FIELD * i;
        let t = words::word(&none, words, used, at);
        output[i] = of_types::log_size(words, used, t);
    }
}

// Fills the first words of the output with the offsets.
pub fn fill_offsets(words: &[u64], used: usize, s: usize, output: &mut [u64])
    requires used_in_bounds { (used ≤ length words.now) × (s < used) × (count_on (take used words.now) s ≤ most_counted) × (count_on (take used words.now) s < length output.old) }
    requires s_value { unsized_field (take used words.now) s ≡ false }
    ensures { output.new ≡ offsets_on (take used words.now) s ++ drop (length (offsets_on (take used words.now) s)) output.old }
{
    let none = [0u64; 0];
    let n = (words::word(&none, words, used, s) / kinds::COUNT) as usize;
    fill_logs(words, used, s, n, output);
    layout::lay_out(&mut output[..n + 1]);
}

// The offset of one field, or the end.
pub fn offset(words: &[u64], used: usize, s: usize, i: usize) -> u64
    requires used_in_bounds { (used ≤ length words.now) × (s < used) × (count_on (take used words.now) s ≤ most_counted) × (i ≤ count_on (take used words.now) s) }
    requires s_value { unsized_field (take used words.now) s ≡ false }
    ensures { result ≡ offset_on (take used words.now) s i }
{
    let mut places = [0u64; 256];
    fill_offsets(words, used, s, &mut places);
    places[i]
}

// How far behind a struct's head the type of its second field stands.
const SECOND_TYPE: usize = of_structs::SECOND_FIELD + columns::FIELD_TYPE;

// The log size of an array's element.
pub fn ary_scale(words: &[u64], used: usize, s: usize) -> u64
    requires { (used ≤ length words.now) × (s < used) }
    ensures { result ≡ ary_scale (take used words.now) s }
{
    let none = [0u64; 0];
    let t = words::word(&none, words, used, s + SECOND_TYPE);
    of_types::log_size(words, used, t)
}

// ---- rows

pub fn offsets_rows(words: &[u64], used: usize, bits: &[u64], s: u64) -> Result<(), Refusal>
    requires { Marked words.now bits.now used }
    ensures { row_of result ≡ offsets_rows s (take used words.now) }
{
    of_structs::fields_rows(words, used, bits, s)?;
    if unsized_field(words, used, s as usize) {
        return Err(Refusal::NoLogSize);
    }
    Ok(())
}

pub fn offset_rows(words: &[u64], used: usize, bits: &[u64], s: u64, i: u64) -> Result<(), Refusal>
    requires { Marked words.now bits.now used }
    ensures { row_of result ≡ offset_rows s i (take used words.now) }
{
    of_structs::fields_rows(words, used, bits, s)?;
    let none = [0u64; 0];
    if words::word(&none, words, used, s as usize) / kinds::COUNT < i {
        return Err(Refusal::PastFields);
    }
    if unsized_field(words, used, s as usize) {
        return Err(Refusal::NoLogSize);
    }
    Ok(())
}

pub fn ary_base_rows(words: &[u64], used: usize, bits: &[u64], s: u64) -> Result<(), Refusal>
    requires { Marked words.now bits.now used }
    ensures { row_of result ≡ ary_base_rows s (take used words.now) }
{
    of_structs::array_rows(words, used, bits, s)?;
    if unsized_field(words, used, s as usize) {
        return Err(Refusal::NoLogSize);
    }
    Ok(())
}

pub fn ary_scale_rows(words: &[u64], used: usize, bits: &[u64], s: u64) -> Result<(), Refusal>
    requires { Marked words.now bits.now used }
    ensures { row_of result ≡ ary_scale_rows s (take used words.now) }
{
    of_structs::array_rows(words, used, bits, s)?;
    if ary_scale(words, used, s as usize) >= of_types::NO_LOG_SIZE {
        return Err(Refusal::NoLogSize);
    }
    Ok(())
}
