// The tests that turn a maker's call back, on a store that row 1 has passed. Each refuses by its first row that applies.
#![tactic(auto)]

ghost use Rattle.std.specs.Prelude.{◌≡◌, ◌∷◌, [], ◌<◌, ◌≤◌, length, take};
ghost use Rattle.bitset.specs.Bitset.{bit_at};
ghost use Rattle.wellformed.specs.Entry.{kind_in, kind_at, is_name, is_type, all};
ghost use Rattle.words.specs.Columns.{every, word};
ghost use Rattle.call.specs.Refusals.{row_of};
ghost use Rattle.call.specs.Steps.{Marked};
ghost use Rattle.call.specs.Handles.{types_rows};
ghost use Rattle.rows.specs.Tests.{at_most, any_not};
ghost use Rattle.makers.specs.Entries.{field_count, field_names, field_types, lent_size};
ghost use Rattle.makers.specs.Makers.{tuple_rows, fref_rows, part_rows, struct_rows, never_nil, ary_rows};

use call::Refusal;
use words::{columns, kinds, limits};

// ---- types

pub fn types_rows(words: &[u64], used: usize, bits: &[u64], hs: &[u64]) -> Result<(), Refusal>
    requires { Marked words.now bits.now used }
    ensures { row_of result ≡ types_rows hs.now (take used words.now) }
{
    if !call::all_start(bits, hs) {
        return Err(Refusal::NoEntry);
    }
    let none = [0u64; 0];
    if !call::all_kinds(&none, words, used, hs, kinds::BOT, kinds::MEM) {
        return Err(Refusal::WrongKind);
    }
    Ok(())
}

pub fn tuple_rows(words: &[u64], used: usize, bits: &[u64], types: &[u64]) -> Result<(), Refusal>
    requires { Marked words.now bits.now used }
    ensures { row_of result ≡ tuple_rows types.now (take used words.now) }
{
    if !call::all_start(bits, types) {
        return Err(Refusal::NoEntry);
    }
    let none = [0u64; 0];
    if !call::all_kinds(&none, words, used, types, kinds::BOT, kinds::MEM) {
        return Err(Refusal::WrongKind);
    }
    if types.len() > limits::MOST_COUNTED {
        return Err(Refusal::TooMany);
    }
    if call::deep(&none, words, used, types) > limits::DEEPEST_WITHIN {
        return Err(Refusal::TooDeep);
    }
    Ok(())
}

pub fn fref_rows(words: &[u64], used: usize, bits: &[u64], name: u64) -> Result<(), Refusal>
    requires { Marked words.now bits.now used }
    ensures { row_of result ≡ fref_rows name (take used words.now) }
{
    if !call::all_start(bits, &[name]) {
        return Err(Refusal::NoEntry);
    }
    let none = [0u64; 0];
    if !call::all_kinds(&none, words, used, &[name], kinds::NAME, kinds::NAME) {
        return Err(Refusal::WrongKind);
    }
    Ok(())
}

// Of an entry around one type, whose kind is from low to high.
pub fn part_rows(
    words: &[u64],
    used: usize,
    bits: &[u64],
    h: u64,
    low: u64,
    high: u64,
    taken: bool,
) -> Result<(), Refusal>
    requires { Marked words.now bits.now used }
    ensures { row_of result ≡ part_rows (kind_in low high) taken h (take used words.now) }
{
    if !call::all_start(bits, &[h]) {
        return Err(Refusal::NoEntry);
    }
    let none = [0u64; 0];
    if !call::all_kinds(&none, words, used, &[h], low, high) {
        return Err(Refusal::WrongKind);
    }
    if !taken {
        return Err(Refusal::WrongValue);
    }
    if call::deep(&none, words, used, &[h]) > limits::DEEPEST_WITHIN {
        return Err(Refusal::TooDeep);
    }
    Ok(())
}

// ---- structs: words that stand four apart in the lent fields

fn fields_start(bits: &[u64], fields: &[u64], p: usize) -> bool
    requires { p < lent_size }
    ensures { result ≡ all (bit_at bits.now) (every lent_size (field_count fields.now) p fields.now) }
{
    for field in fields.chunks_exact(columns::LENT_FIELD) {
        if !bitset::contains(bits, field[p]) {
            return false;
        }
    }
    true
}

fn fields_kind(words: &[u64], used: usize, fields: &[u64], p: usize, low: u64, high: u64) -> bool
    requires { (p < lent_size) × (used ≤ length words.now) }
    ensures { result ≡ all (kind_at (word (take used words.now)) (kind_in low high)) (every lent_size (field_count fields.now) p fields.now) }
{
    let none = [0u64; 0];
    for field in fields.chunks_exact(columns::LENT_FIELD) {
        if !call::all_kinds(&none, words, used, &[field[p]], low, high) {
            return false;
        }
    }
    true
}

fn fields_most(fields: &[u64], p: usize, most: u64) -> bool
    requires { p < lent_size }
    ensures { result ≡ all (at_most most) (every lent_size (field_count fields.now) p fields.now) }
{
    for field in fields.chunks_exact(columns::LENT_FIELD) {
        if field[p] > most {
            return false;
        }
    }
    true
}

// Whether row 2 applies.
fn struct_unknown(bits: &[u64], name: u64, fields: &[u64]) -> bool
    ensures { result ≡ any_not (all (bit_at bits.now) (name ∷ [])) (all (bit_at bits.now) (field_names fields.now)) (all (bit_at bits.now) (field_types fields.now)) }
{
    if !call::all_start(bits, &[name]) {
        return true;
    }
    if !fields_start(bits, fields, columns::LENT_NAME) {
        return true;
    }
    !fields_start(bits, fields, columns::LENT_TYPE)
}

// Whether row 3 applies.
fn struct_unfit(words: &[u64], used: usize, name: u64, fields: &[u64]) -> bool
    requires { used ≤ length words.now }
    ensures { result ≡ any_not (all (kind_at (word (take used words.now)) is_name) (name ∷ [])) (all (kind_at (word (take used words.now)) is_name) (field_names fields.now)) (all (kind_at (word (take used words.now)) is_type) (field_types fields.now)) }
{
    let none = [0u64; 0];
    if !call::all_kinds(&none, words, used, &[name], kinds::NAME, kinds::NAME) {
        return true;
    }
    if !fields_kind(
        words,
        used,
        fields,
        columns::LENT_NAME,
        kinds::NAME,
        kinds::NAME,
    ) {
        return true;
    }
    !fields_kind(
        words,
        used,
        fields,
        columns::LENT_TYPE,
        kinds::BOT,
        kinds::MEM,
    )
}

pub fn struct_rows(
    words: &[u64],
    used: usize,
    bits: &[u64],
    name: u64,
    fields: &[u64],
) -> Result<(), Refusal>
    requires { Marked words.now bits.now used }
    ensures { row_of result ≡ struct_rows name fields.now (take used words.now) }
{
    if struct_unknown(bits, name, fields) {
        return Err(Refusal::NoEntry);
    }
    if struct_unfit(words, used, name, fields) {
        return Err(Refusal::WrongKind);
    }
    if fields.len() % columns::LENT_FIELD != 0 {
        return Err(Refusal::WrongValue); // an unfinished field
    }
    if !fields_most(fields, columns::LENT_ALIAS, limits::LARGEST_ALIAS) {
        return Err(Refusal::WrongValue);
    }
    if !fields_most(fields, columns::LENT_FINAL, limits::LARGEST_FLAG) {
        return Err(Refusal::WrongValue);
    }
    if fields.len() / columns::LENT_FIELD > limits::MOST_COUNTED {
        return Err(Refusal::TooMany); // too many fields
    }
    let none = [0u64; 0];
    if makers::fields_deep(&none, words, used, fields) > limits::DEEPEST_WITHIN {
        return Err(Refusal::TooDeep);
    }
    Ok(())
}

// ---- arrays

// Whether the body is a pointer without nil.
pub fn never_nil(words: &[u64], used: usize, body: u64) -> bool
    requires { used ≤ length words.now }
    ensures { result ≡ never_nil (take used words.now) body }
{
    let none = [0u64; 0];
    if call::kind_on(&none, words, used, body) != kinds::MEM_PTR {
        return false;
    }
    words::word(&none, words, used, body as usize + columns::NIL) == 0
}

pub fn ary_rows(
    words: &[u64],
    used: usize,
    bits: &[u64],
    len: u64,
    len_alias: u64,
    body: u64,
    body_alias: u64,
    text: &[u8],
) -> Result<(), Refusal>
    requires { Marked words.now bits.now used }
    ensures { row_of result ≡ ary_rows len len_alias body body_alias text.now (take used words.now) }
{
    if !call::all_start(bits, &[len, body]) {
        return Err(Refusal::NoEntry);
    }
    let none = [0u64; 0];
    if !call::all_kinds(&none, words, used, &[len], kinds::INT, kinds::INT) {
        return Err(Refusal::WrongKind);
    }
    if !call::all_kinds(&none, words, used, &[body], kinds::BOT, kinds::MEM) {
        return Err(Refusal::WrongKind);
    }
    if len_alias > limits::LARGEST_ALIAS {
        return Err(Refusal::WrongValue);
    }
    if body_alias > limits::LARGEST_ALIAS {
        return Err(Refusal::WrongValue);
    }
    if text.len() > limits::LONGEST_TEXT {
        return Err(Refusal::TooMany);
    }
    if call::deep(&none, words, used, &[len, body]) > limits::DEEPEST_WITHIN {
        return Err(Refusal::TooDeep);
    }
    if never_nil(words, used, body) {
        return Err(Refusal::NeverNil);
    }
    Ok(())
}
