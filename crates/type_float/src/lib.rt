// What depends on a float's size and constant alone.
// An f64 in the logic has only one NaN: a NaN constant is told from another by its bits, which travel beside the float.
#![tactic(auto)]

ghost use Rattle.std.specs.Prelude.{◌≡◌, true};
ghost use Rattle.std.specs.Float.Ieee.{nan_bits, of_bits};
ghost use Rattle.std.specs.Float.{binary64};
ghost use Rattle.type_float.specs.Float.{size_from, word_of, is_size_word, is_size, reading_of};
ghost use Rattle.type_float.specs.Single.{is_single};

use std::num;

// An entry keeps a float's size plus 64.
const SIZE_ZERO: i64 = 64;

// A float's size and constant.
#[derive(Clone, Copy)]
pub struct Float {
    pub sz: i8,
    pub con: f64,
}

// What a float is read as: a constant with its value, or a size alone.
#[derive(Clone, Copy)]
pub enum Reading {
    Constant(f64),
    Sized(i8),
}

// Whether these are the bits of a NaN.
pub fn is_nan(bits: u64) -> bool
    ensures { result ≡ nan_bits binary64 bits }
{
    0x7FF0_0000_0000_0000 < bits % 0x8000_0000_0000_0000
}

// The double with these bits, a NaN's among them.
pub fn double(bits: u64) -> f64
    ensures { result ≡ of_bits binary64 bits }
{
    num::f64_from_bits_with_nan(bits)
}

// The float of an entry's two words.
#[tactic(auto, using(crate::proofs::Size::word_wide, crate::proofs::Size::less_fits, crate::proofs::Size::size_fits, crate::proofs::Size::size_is))]
pub fn float_of(size: u64, bits: u64) -> Float
    requires { is_size_word size ≡ true }
    ensures { (result.sz ≡ size_from size) × (result.con ≡ of_bits binary64 bits) }
{
    Float {
        sz: (size as i64 - SIZE_ZERO) as i8,
        con: double(bits),
    }
}

// The word that an entry keeps for a size.
#[tactic(auto, using(crate::proofs::Size::size_wide, crate::proofs::Size::more_fits, crate::proofs::Size::word_fits, crate::proofs::Size::word_is))]
pub fn size_word(sz: i8) -> u64
    requires { is_size sz ≡ true }
    ensures { result ≡ word_of sz }
{
    (i64::from(sz) + SIZE_ZERO) as u64
}

// The bits of a constant, given beside it for a NaN.
#[tactic(auto, using(crate::proofs::Nan::same_bits))]
pub fn bits_of(con: f64, bits: u64) -> u64
    requires { con ≡ of_bits binary64 bits }
    ensures { result ≡ bits }
{
    if con.is_nan() {
        return bits;
    }
    con.to_bits()
}

// A constant with its value, or a size alone.
pub fn reading_of(f: Float) -> Reading
    ensures { result ≡ reading_of f }
{
    if f.sz == 0 {
        return Reading::Constant(f.con);
    }
    Reading::Sized(f.sz)
}

// Whether binary32 holds the value of the double with these bits: by the exponent's field x and the digits t.
#[tactic(auto, using(crate::proofs::Cases::zero_is, crate::proofs::Cases::ones_is, crate::proofs::Cases::high_is, crate::proofs::Cases::low_is, crate::proofs::Cases::mid_is, crate::proofs::Cases::sub_is, crate::proofs::Cases::shift_pos))]
pub fn is_f32(bits: u64) -> bool
    ensures { result ≡ is_single bits }
{
    let x = bits % 0x8000_0000_0000_0000 / 0x10_0000_0000_0000;
    let t = bits % 0x10_0000_0000_0000;
    if x == 0 {
        return t == 0; // a zero; all else here is too small
    }
    if x == 2047 {
        return t == 0; // an infinity; all else here is NaN
    }
    if 1150 < x {
        return false; // 2 to the 128 or more
    }
    if x < 874 {
        return false; // below 2 to the -149
    }
    let q = t + 0x10_0000_0000_0000;
    if 897 <= x {
        return q % 0x2000_0000 == 0; // 24 digits
    }
    let d = 926 - x; // fewer below 2 to the -126
    q % (1u64 << d) == 0
}
