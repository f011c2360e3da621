// What is told of an Int and of a Float, by their words. `used` words are used.
#![tactic(auto)]

ghost use Rattle.std.specs.Prelude.{◌≡◌, true, ◌≤◌, ◌<◌, length, take};
ghost use Rattle.std.specs.Float.{binary64};
ghost use Rattle.std.specs.Float.Ieee.{of_bits};
ghost use Rattle.words.specs.Columns.{min_on, max_on, size_on, bits_on};
ghost use Rattle.call.specs.Call.{answered};
ghost use Rattle.type_float.specs.Float.{size_from, is_size_word};
ghost use Rattle.type_float.specs.Single.{is_single};
ghost use Rattle.meet_rules.specs.Rules.{reading_on};
ghost use Rattle.of_values.specs.OfValues.{int_value, mask_on, sz_on, reading_is, float_reading, value_is, float_value};
ghost use Rattle.of_values.specs.Read.{ReadFrom};
ghost use Rattle.of_values.specs.Tells.{of_int_told, of_float_told};

use call::Answer;
use type_float::{Float, Reading};
use words::columns;

// ---- of an Int

fn min(words: &[u64], used: usize, t: usize) -> u64
    requires { (used ≤ length words.now) × (t < used) }
    ensures { result ≡ min_on (take used words.now) t }
{
    words::word(&[], words, used, t + columns::MIN)
}

fn max(words: &[u64], used: usize, t: usize) -> u64
    requires { (used ≤ length words.now) × (t < used) }
    ensures { result ≡ max_on (take used words.now) t }
{
    words::word(&[], words, used, t + columns::MAX)
}

// The value of a constant.
#[tactic(auto, using(crate::proofs::Ways::one_value, crate::proofs::Ways::no_value))]
fn value(words: &[u64], used: usize, t: usize) -> Answer
    requires { (used ≤ length words.now) × (t < used) }
    ensures { answered result ≡ int_value (take used words.now) t }
{
    let low = min(words, used, t);
    if low == max(words, used, t) {
        return Answer::Signed(low);
    }
    Answer::Absent
}

#[tactic(auto, using(crate::proofs::Ways::masked))]
fn mask(words: &[u64], used: usize, t: usize) -> u64
    requires { (used ≤ length words.now) × (t < used) }
    ensures { result ≡ mask_on (take used words.now) t }
{
    mask::mask(min(words, used, t), max(words, used, t))
}

// ---- of a Float

// The bits of its constant, 0 where it has none.
fn bits(words: &[u64], used: usize, t: usize) -> u64
    requires { (used ≤ length words.now) × (t < used) }
    ensures { result ≡ bits_on (take used words.now) t }
{
    words::word(&[], words, used, t + columns::BITS)
}

// Its size and constant.
#[tactic(auto, using(crate::proofs::Ways::sized_word, crate::proofs::Ways::read_words))]
fn float_at(words: &[u64], used: usize, t: usize) -> Float
    requires { (used ≤ length words.now) × (t < used) × (is_size_word (size_on (take used words.now) t) ≡ true) }
    ensures { (result.sz ≡ size_from (size_on (take used words.now) t)) × (result.con ≡ of_bits binary64 (bits_on (take used words.now) t)) }
{
    let size = words::word(&[], words, used, t + columns::SIZE);
    type_float::float_of(size, bits(words, used, t))
}

// Its size, as a two's complement word.
#[tactic(auto, using(crate::proofs::Ways::read_size, crate::proofs::Ways::wide))]
fn sz(words: &[u64], used: usize, t: usize) -> u64
    requires { (used ≤ length words.now) × (t < used) × (is_size_word (size_on (take used words.now) t) ≡ true) }
    ensures { result ≡ sz_on (take used words.now) t }
{
    let f = float_at(words, used, t);
    type_integer::word_of(i64::from(f.sz))
}

// Whether its constant is single precision.
#[tactic(auto, using(crate::proofs::Ways::single_word))]
fn is_f32(words: &[u64], used: usize, t: usize) -> bool
    requires { (used ≤ length words.now) × (t < used) }
    ensures { result ≡ is_single (bits_on (take used words.now) t) }
{
    type_float::is_f32(bits(words, used, t))
}

// What it is read as.
#[tactic(auto, using(crate::proofs::Ways::read_reading))]
fn read_as(words: &[u64], used: usize, t: usize) -> Reading
    requires { (used ≤ length words.now) × (t < used) × (is_size_word (size_on (take used words.now) t) ≡ true) }
    ensures { result ≡ reading_on (take used words.now) t }
{
    type_float::reading_of(float_at(words, used, t))
}

// A reading as an answer. A NaN's bits stand beside its value.
#[tactic(auto, using(crate::proofs::Ways::wide, crate::proofs::Ways::is_constant_is, crate::proofs::Ways::is_size_is))]
fn reading_is(r: Reading, bits: u64) -> Answer
    requires { ReadFrom bits r }
    ensures { answered result ≡ reading_is bits r }
{
    match r {
        Reading::Constant(x) => Answer::Constant(type_float::bits_of(x, bits)),
        Reading::Sized(sz) => Answer::Size(type_integer::word_of(i64::from(sz))),
    }
}

#[tactic(auto, using(crate::proofs::Ways::read_from, crate::proofs::Ways::told_reading))]
fn reading(words: &[u64], used: usize, t: usize) -> Answer
    requires { (used ≤ length words.now) × (t < used) × (is_size_word (size_on (take used words.now) t) ≡ true) }
    ensures { answered result ≡ float_reading (take used words.now) t }
{
    reading_is(read_as(words, used, t), bits(words, used, t))
}

// The value that was read, as an answer.
#[tactic(auto, using(crate::proofs::Ways::is_value, crate::proofs::Ways::is_none))]
fn value_is(r: Reading, bits: u64) -> Answer
    requires { ReadFrom bits r }
    ensures { answered result ≡ value_is bits r }
{
    match r {
        Reading::Constant(x) => Answer::Number(type_float::bits_of(x, bits)),
        Reading::Sized(_) => Answer::Absent,
    }
}

#[tactic(auto, using(crate::proofs::Ways::read_from, crate::proofs::Ways::told_value))]
fn float_value(words: &[u64], used: usize, t: usize) -> Answer
    requires { (used ≤ length words.now) × (t < used) × (is_size_word (size_on (take used words.now) t) ≡ true) }
    ensures { answered result ≡ float_value (take used words.now) t }
{
    value_is(read_as(words, used, t), bits(words, used, t))
}

// ---- the calls

// A call that reads an Int.
#[derive(Clone, Copy)]
pub enum OfInt {
    Min,
    Max,
    Value,
    Mask,
}

#[tactic(auto, using(crate::proofs::As::as_int))]
pub fn tell_int(words: &[u64], used: usize, of: OfInt, t: usize) -> Answer
    requires { (used ≤ length words.now) × (t < used) }
    ensures { answered result ≡ of_int_told of t (take used words.now) }
{
    match of {
        OfInt::Min => Answer::Signed(min(words, used, t)),
        OfInt::Max => Answer::Signed(max(words, used, t)),
        OfInt::Value => value(words, used, t),
        OfInt::Mask => Answer::Signed(mask(words, used, t)),
    }
}

// A call that reads a Float.
#[derive(Clone, Copy)]
pub enum OfFloat {
    Sz,
    IsF32,
    Value,
    Reading,
}

#[tactic(auto, using(crate::proofs::As::as_float))]
pub fn tell_float(words: &[u64], used: usize, of: OfFloat, t: usize) -> Answer
    requires { (used ≤ length words.now) × (t < used) × (is_size_word (size_on (take used words.now) t) ≡ true) }
    ensures { answered result ≡ of_float_told of t (take used words.now) }
{
    match of {
        OfFloat::Sz => Answer::Signed(sz(words, used, t)),
        OfFloat::IsF32 => Answer::Flag(is_f32(words, used, t)),
        OfFloat::Value => float_value(words, used, t),
        OfFloat::Reading => reading(words, used, t),
    }
}
