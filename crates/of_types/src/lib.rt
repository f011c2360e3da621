// What is told of a type by its kind, its words and its handle. `used` words are used; a handle may be any number.
#![tactic(auto)]

ghost use Rattle.std.specs.Prelude.{◌≡◌, ◌||◌, ◌≤◌, ◌<◌, eqb, length, take};
ghost use Rattle.wellformed.specs.Entry.{kind_in};
ghost use Rattle.call.specs.Call.{answered};
ghost use Rattle.call.specs.Refusals.{row_of};
ghost use Rattle.call.specs.Steps.{Marked};
ghost use Rattle.words.specs.Columns.{min_on, max_on, size_on, bits_on};
ghost use Rattle.of_types.specs.OfTypes.{int_side, float_side, pointer_side, side_of, is_high, is_high_or_constant, is_constant, is_fref, zero_of, has_zero, make_zero_of, make_init_of, int_log_size, float_log_size, log_size, kind_rows, log_size_rows};
ghost use Rattle.of_types.specs.Tells.{of_type_rows, of_type_told};

use call::{Answer, Refusal};
use words::{columns, fresh, kinds};

// Where a type stands: on Top's side of the lattice's centre, on the centre, or on Bot's side.
#[derive(Clone, Copy)]
pub enum Side {
    High,
    Constant,
    Low,
}

// ---- is_high, is_high_or_constant, is_constant

fn int_side(min: u64, max: u64) -> Side
    ensures { result ≡ int_side min max }
{
    if type_integer::is_less(max, min) {
        return Side::High;
    }
    if min == max {
        return Side::Constant;
    }
    Side::Low
}

fn float_side(size: u64) -> Side
    ensures { result ≡ float_side size }
{
    if size < wellformed::SIZE_ZERO {
        return Side::High;
    }
    if size == wellformed::SIZE_ZERO {
        return Side::Constant;
    }
    Side::Low
}

fn pointer_side(t: u64) -> Side
    ensures { result ≡ pointer_side t }
{
    if t == fresh::PTR_TOP as u64 {
        return Side::High;
    }
    if t == fresh::PTR_NULL as u64 {
        return Side::Constant;
    }
    Side::Low
}

// The side of the Int at t.
fn int_side_at(words: &[u64], used: usize, t: usize) -> Side
    requires { (used ≤ length words.now) × (t < used) }
    ensures { result ≡ int_side (min_on (take used words.now) t) (max_on (take used words.now) t) }
{
    let none = [0u64; 0];
    let min = words::word(&none, words, used, t + columns::MIN);
    let max = words::word(&none, words, used, t + columns::MAX);
    int_side(min, max)
}

fn side_of(words: &[u64], used: usize, t: u64) -> Side
    requires { used ≤ length words.now }
    ensures { result ≡ side_of (take used words.now) t }
{
    let none = [0u64; 0];
    let k = call::kind_on(&none, words, used, t);
    if k == kinds::TOP {
        return Side::High;
    }
    if k == kinds::XCTRL {
        return Side::High;
    }
    if k == kinds::INT {
        return int_side_at(words, used, t as usize);
    }
    if k == kinds::FLOAT {
        let size = words::word(&none, words, used, t as usize + columns::SIZE);
        return float_side(size);
    }
    if k == kinds::MEM_PTR {
        return pointer_side(t);
    }
    Side::Low
}

fn is_high(side: Side) -> bool
    ensures { result ≡ is_high side }
{
    match side {
        Side::High => true,
        Side::Constant => false,
        Side::Low => false,
    }
}

fn is_high_or_constant(side: Side) -> bool
    ensures { result ≡ is_high_or_constant side }
{
    match side {
        Side::High => true,
        Side::Constant => true,
        Side::Low => false,
    }
}

fn is_constant(side: Side) -> bool
    ensures { result ≡ is_constant side }
{
    match side {
        Side::High => false,
        Side::Constant => true,
        Side::Low => false,
    }
}

// ---- is_fref

fn is_fref(words: &[u64], used: usize, t: u64) -> bool
    requires { used ≤ length words.now }
    ensures { result ≡ is_fref (take used words.now) t }
{
    let none = [0u64; 0];
    let k = call::kind_on(&none, words, used, t);
    if k == kinds::FREF {
        return true;
    }
    if k == kinds::MEM_PTR {
        let to = words::word(&none, words, used, t as usize + columns::TARGET);
        return call::kind_on(&none, words, used, to) == kinds::FREF;
    }
    false
}

// ---- make_init, make_zero

fn zero_of(k: u64, t: u64) -> u64
    ensures { result ≡ zero_of k t }
{
    if k == kinds::INT {
        return fresh::INT_ZERO as u64;
    }
    if k == kinds::FLOAT {
        return fresh::FLOAT_ZERO as u64;
    }
    if k == kinds::MEM_PTR {
        return fresh::PTR_NULL as u64;
    }
    t
}

fn make_zero(words: &[u64], used: usize, t: u64) -> u64
    requires { used ≤ length words.now }
    ensures { result ≡ make_zero_of (take used words.now) t }
{
    let none = [0u64; 0];
    zero_of(call::kind_on(&none, words, used, t), t)
}

fn make_init(words: &[u64], used: usize, t: u64) -> u64
    requires { used ≤ length words.now }
    ensures { result ≡ make_init_of (take used words.now) t }
{
    if rows::never_nil(words, used, t) {
        return fresh::TOP as u64;
    }
    make_zero(words, used, t)
}

// ---- log_size

// What log_size is where a type has none. A number, since `tell` and `of_offsets::ary_scale` promise one of any type.
pub const NO_LOG_SIZE: u64 = 4;

// Whether t is one of two.
fn one_of(t: u64, a: usize, b: usize) -> bool
    ensures { result ≡ (eqb t a || eqb t b) }
{
    if t == a as u64 {
        return true;
    }
    t == b as u64
}

fn int_log_size(words: &[u64], used: usize, t: u64) -> u64
    requires { (used ≤ length words.now) × (t < used) }
    ensures { result ≡ int_log_size (take used words.now) t }
{
    if one_of(t, fresh::INT_I8, fresh::INT_U8) {
        return 0;
    }
    if t == fresh::INT_BOOL as u64 {
        return 0;
    }
    if one_of(t, fresh::INT_I16, fresh::INT_U16) {
        return 1;
    }
    if one_of(t, fresh::INT_I32, fresh::INT_U32) {
        return 2;
    }
    if t == fresh::INT_BOT as u64 {
        return 3;
    }
    if is_high_or_constant(int_side_at(words, used, t as usize)) {
        return 0; // whatever its value
    }
    NO_LOG_SIZE
}

// Sizes are kept plus 64.
const SIZE_32: u64 = wellformed::SIZE_ZERO + 32;

const SIZE_MINUS_32: u64 = wellformed::SIZE_ZERO - 32;

fn float_log_size(size: u64, bits: u64) -> u64
    ensures { result ≡ float_log_size size bits }
{
    if size == SIZE_32 {
        return 2;
    }
    if size == SIZE_MINUS_32 {
        return 2;
    }
    if size != wellformed::SIZE_ZERO {
        return 3;
    }
    if type_float::is_f32(bits) {
        return 2;
    }
    3
}

pub fn log_size(words: &[u64], used: usize, t: u64) -> u64
    requires { used ≤ length words.now }
    ensures { result ≡ log_size (take used words.now) t }
{
    let none = [0u64; 0];
    let k = call::kind_on(&none, words, used, t);
    if k == kinds::INT {
        return int_log_size(words, used, t);
    }
    if k == kinds::FLOAT {
        let size = words::word(&none, words, used, t as usize + columns::SIZE);
        let bits = words::word(&none, words, used, t as usize + columns::BITS);
        return float_log_size(size, bits);
    }
    if k == kinds::MEM_PTR {
        return 2;
    }
    NO_LOG_SIZE
}

// ---- rows

// Of a call on one entry, of a kind from low to high.
pub fn kind_rows(
    words: &[u64],
    used: usize,
    bits: &[u64],
    h: u64,
    low: u64,
    high: u64,
) -> Result<(), Refusal>
    requires { Marked words.now bits.now used }
    ensures { row_of result ≡ kind_rows (kind_in low high) h (take used words.now) }
{
    if !call::all_start(bits, &[h]) {
        return Err(Refusal::NoEntry);
    }
    let none = [0u64; 0];
    if !call::all_kinds(&none, words, used, &[h], low, high) {
        return Err(Refusal::WrongKind);
    }
    Ok(())
}

fn has_zero(k: u64) -> bool
    ensures { result ≡ has_zero k }
{
    if k == kinds::INT {
        return true;
    }
    if k == kinds::FLOAT {
        return true;
    }
    k == kinds::MEM_PTR // and a pointer
}

fn zero_rows(words: &[u64], used: usize, bits: &[u64], h: u64) -> Result<(), Refusal>
    requires { Marked words.now bits.now used }
    ensures { row_of result ≡ kind_rows has_zero h (take used words.now) }
{
    if !call::all_start(bits, &[h]) {
        return Err(Refusal::NoEntry);
    }
    let none = [0u64; 0];
    if !has_zero(call::kind_on(&none, words, used, h)) {
        return Err(Refusal::WrongKind);
    }
    Ok(())
}

fn log_size_rows(words: &[u64], used: usize, bits: &[u64], t: u64) -> Result<(), Refusal>
    requires { Marked words.now bits.now used }
    ensures { row_of result ≡ log_size_rows t (take used words.now) }
{
    rows::types_rows(words, used, bits, &[t])?;
    if log_size(words, used, t) >= NO_LOG_SIZE {
        return Err(Refusal::NoLogSize);
    }
    Ok(())
}

// ---- the calls

// A call that reads one type.
#[derive(Clone, Copy)]
pub enum OfType {
    MakeInit,
    MakeZero,
    IsHigh,
    IsHighOrConstant,
    IsConstant,
    IsFref,
    LogSize,
}

// The rows of each.
pub fn rows_of(words: &[u64], used: usize, bits: &[u64], of: OfType, t: u64) -> Result<(), Refusal>
    requires { Marked words.now bits.now used }
    ensures { row_of result ≡ of_type_rows of t (take used words.now) }
{
    match of {
        OfType::MakeInit => rows::types_rows(words, used, bits, &[t]),
        OfType::MakeZero => zero_rows(words, used, bits, t),
        OfType::IsHigh => rows::types_rows(words, used, bits, &[t]),
        OfType::IsHighOrConstant => rows::types_rows(words, used, bits, &[t]),
        OfType::IsConstant => rows::types_rows(words, used, bits, &[t]),
        OfType::IsFref => rows::types_rows(words, used, bits, &[t]),
        OfType::LogSize => log_size_rows(words, used, bits, t),
    }
}

// The answer where no row applies.
pub fn tell(words: &[u64], used: usize, of: OfType, t: u64) -> Answer
    requires { used ≤ length words.now }
    ensures { answered result ≡ of_type_told of t (take used words.now) }
{
    match of {
        OfType::MakeInit => Answer::Handle(make_init(words, used, t)),
        OfType::MakeZero => Answer::Handle(make_zero(words, used, t)),
        OfType::IsHigh => Answer::Flag(is_high(side_of(words, used, t))),
        OfType::IsHighOrConstant => Answer::Flag(is_high_or_constant(side_of(words, used, t))),
        OfType::IsConstant => Answer::Flag(is_constant(side_of(words, used, t))),
        OfType::IsFref => Answer::Flag(is_fref(words, used, t)),
        OfType::LogSize => Answer::Number(log_size(words, used, t)),
    }
}
