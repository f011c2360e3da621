// What is told of a struct's name and fields. `used` words are used.
#![tactic(auto)]

ghost use Rattle.std.specs.Prelude.{◌≡◌, true, ◌++◌, ◌+◌, ◌*◌, ◌≤◌, ◌<◌, ltb, length, take, drop};
ghost use Rattle.words.specs.Words.{field_size};
ghost use Rattle.words.specs.Columns.{count_on, field_names_on, first_field, field_name_at};
ghost use Rattle.wellformed.specs.Entry.{all, most_counted};
ghost use Rattle.wellformed.specs.Form.{longest_allowed};
ghost use Rattle.makers.specs.Entries.{lent_size};
ghost use Rattle.call.specs.Refusals.{row_of};
ghost use Rattle.call.specs.Steps.{Marked};
ghost use Rattle.of_structs.specs.OfStructs.{field_list, find_of, find_alias_of, is_ary, is_body_name, is_array, fields_rows, find_rows, find_alias_rows, array_rows};

use call::Refusal;
use words::{columns, kinds, limits};

// ---- the field list

// Fills the first words of the output with the fields, four words each.
pub fn fill_fields(words: &[u64], used: usize, s: usize, output: &mut [u64])
    requires used_in_bounds { (used ≤ length words.now) × (s < used) × (length words.now ≤ longest_allowed) }
    requires s_bound { (count_on (take used words.now) s ≤ most_counted) × (lent_size * count_on (take used words.now) s ≤ length output.old) }
    ensures { output.new ≡ field_list (take used words.now) s ++ drop (length (field_list (take used words.now) s)) output.old }
{
    let none = [0u64; 0];
    let n = (words::word(&none, words, used, s) / kinds::COUNT) as usize;
    for i in 0..n {
        let p = s + columns::FIELDS + columns::FIELD * i;
        let name = words::word(&none, words, used, p);
        let field_type = words::word(&none, words, used, p + columns::FIELD_TYPE);
        let flags = words::word(&none, words, used, p + columns::FLAGS);
        words::write(
            &mut output[columns::LENT_FIELD * i..],
            &[name, field_type, flags / 2, flags % 2],
        );
    }
}

// ---- find, find_alias: the place of the first field that fits

// The name of field i.
fn field_name(words: &[u64], used: usize, s: usize, i: usize) -> usize
    requires used_in_bounds { (used ≤ length words.now) × (s < used) × (length words.now ≤ longest_allowed) }
    requires s_bound { (count_on (take used words.now) s ≤ most_counted) × (all (λ x. ltb x longest_allowed) (field_names_on (take used words.now) s) ≡ true) }
    requires i_bound { i < count_on (take used words.now) s }
    ensures { (result ≡ field_name_at (take used words.now) (first_field s + field_size * i)) × (result < longest_allowed) }
{
    let none = [0u64; 0];
    let p = s + columns::FIELDS + columns::FIELD * i;
    words::word(&none, words, used, p) as usize
}

pub fn find(words: &[u64], used: usize, s: usize, name: usize) -> Option<u64>
    requires used_in_bounds { (used ≤ length words.now) × (s < used) × (name < used) × (length words.now ≤ longest_allowed) }
    requires s_bound { (count_on (take used words.now) s ≤ most_counted) × (all (λ x. ltb x longest_allowed) (field_names_on (take used words.now) s) ≡ true) }
    ensures { result ≡ find_of (take used words.now) s name }
{
    let none = [0u64; 0];
    let n = (words::word(&none, words, used, s) / kinds::COUNT) as usize;
    for i in 0..n {
        let x = field_name(words, used, s, i);
        if same_names::same_name(&none, words, used, x, name) {
            return Some(i as u64);
        }
    }
    None
}

pub fn find_alias(words: &[u64], used: usize, s: usize, alias: u64) -> Option<u64>
    requires used_in_bounds { (used ≤ length words.now) × (s < used) × (length words.now ≤ longest_allowed) }
    requires s_bound { count_on (take used words.now) s ≤ most_counted }
    ensures { result ≡ find_alias_of (take used words.now) s alias }
{
    let none = [0u64; 0];
    let n = (words::word(&none, words, used, s) / kinds::COUNT) as usize;
    for i in 0..n {
        let p = s + columns::FIELD_FLAGS + columns::FIELD * i;
        let flags = words::word(&none, words, used, p);
        if flags / 2 == alias {
            return Some(i as u64);
        }
    }
    None
}

// ---- is_ary

// How far behind a struct's head its second field stands.
pub const SECOND_FIELD: usize = columns::FIELDS + columns::FIELD;

// The entry of the name "[]": a head that counts two bytes, and the bytes.
const BODY_NAME_HEAD: u64 = 2 * kinds::COUNT;

const BODY_NAME: u64 = 0x5D5B;

fn is_body_name(words: &[u64], used: usize, h: u64) -> bool
    requires { used ≤ length words.now }
    ensures { result ≡ is_body_name (take used words.now) h }
{
    let none = [0u64; 0];
    if words::word(&none, words, used, h as usize) != BODY_NAME_HEAD {
        return false;
    }
    words::word(&none, words, used, h as usize + 1) == BODY_NAME
}

pub fn is_ary(words: &[u64], used: usize, s: u64) -> bool
    requires { used ≤ length words.now }
    ensures { result ≡ is_ary (take used words.now) s }
{
    let none = [0u64; 0];
    if words::word(&none, words, used, s as usize) / kinds::COUNT != 2 {
        return false;
    }
    let name = words::word(&none, words, used, s as usize + SECOND_FIELD);
    is_body_name(words, used, name)
}

// ---- rows

pub fn fields_rows(words: &[u64], used: usize, bits: &[u64], s: u64) -> Result<(), Refusal>
    requires { Marked words.now bits.now used }
    ensures { row_of result ≡ fields_rows s (take used words.now) }
{
    if !call::all_start(bits, &[s]) {
        return Err(Refusal::NoEntry);
    }
    let none = [0u64; 0];
    if !call::all_kinds(&none, words, used, &[s], kinds::STRUCT, kinds::FREF) {
        return Err(Refusal::WrongKind);
    }
    if call::kind_on(&none, words, used, s) == kinds::FREF {
        return Err(Refusal::NoFields); // fields wanted of a forward reference
    }
    Ok(())
}

pub fn find_rows(words: &[u64], used: usize, bits: &[u64], s: u64, name: u64) -> Result<(), Refusal>
    requires { Marked words.now bits.now used }
    ensures { row_of result ≡ find_rows s name (take used words.now) }
{
    if !call::all_start(bits, &[s, name]) {
        return Err(Refusal::NoEntry);
    }
    let none = [0u64; 0];
    if !call::all_kinds(&none, words, used, &[s], kinds::STRUCT, kinds::FREF) {
        return Err(Refusal::WrongKind);
    }
    if !call::all_kinds(&none, words, used, &[name], kinds::NAME, kinds::NAME) {
        return Err(Refusal::WrongKind);
    }
    if call::kind_on(&none, words, used, s) == kinds::FREF {
        return Err(Refusal::NoFields); // a field wanted of a forward reference
    }
    Ok(())
}

pub fn find_alias_rows(
    words: &[u64],
    used: usize,
    bits: &[u64],
    s: u64,
    alias: u64,
) -> Result<(), Refusal>
    requires { Marked words.now bits.now used }
    ensures { row_of result ≡ find_alias_rows s alias (take used words.now) }
{
    if !call::all_start(bits, &[s]) {
        return Err(Refusal::NoEntry);
    }
    let none = [0u64; 0];
    if !call::all_kinds(&none, words, used, &[s], kinds::STRUCT, kinds::FREF) {
        return Err(Refusal::WrongKind);
    }
    if alias > limits::LARGEST_ALIAS {
        return Err(Refusal::WrongValue);
    }
    if call::kind_on(&none, words, used, s) == kinds::FREF {
        return Err(Refusal::NoFields); // a field wanted of a forward reference, by its alias
    }
    Ok(())
}

// Whether s is a struct that is an array.
fn is_array(words: &[u64], used: usize, s: u64) -> bool
    requires { used ≤ length words.now }
    ensures { result ≡ is_array (take used words.now) s }
{
    let none = [0u64; 0];
    if call::kind_on(&none, words, used, s) != kinds::STRUCT {
        return false;
    }
    is_ary(words, used, s)
}

pub fn array_rows(words: &[u64], used: usize, bits: &[u64], s: u64) -> Result<(), Refusal>
    requires { Marked words.now bits.now used }
    ensures { row_of result ≡ array_rows s (take used words.now) }
{
    if !call::all_start(bits, &[s]) {
        return Err(Refusal::NoEntry);
    }
    if !is_array(words, used, s) {
        return Err(Refusal::WrongKind); // no array
    }
    Ok(())
}
