// The calls that read a struct, as values: one function for their rows, one for their answers, and one that fills a lent output.
#![tactic(auto)]

ghost use Rattle.std.specs.Prelude.{◌≡◌, [], ◌++◌, ◌≤◌, ◌<◌, length, take, drop};
ghost use Rattle.call.specs.Refusals.{row_of};
ghost use Rattle.call.specs.Call.{answered, output_rows};
ghost use Rattle.call.specs.Steps.{Marked};
ghost use Rattle.every_call.specs.Cleared.{Cleared};
ghost use Rattle.of_structs.specs.OfStructs.{placed};
ghost use Rattle.struct_calls.specs.Tells.{filling_rows, filled_words, of_struct_rows, of_struct_told};

use call::{Answer, Refusal};
use words::{columns, kinds};

// A call that fills a lent output.
#[derive(Clone, Copy)]
pub enum Filling {
    Fields,
    Offsets,
}

// A call that reads a struct.
#[derive(Clone, Copy)]
pub enum OfStruct {
    Name,
    Find(u64),
    FindAlias(u64),
    IsAry,
    Offset(u64),
    AryBase,
    AryScale,
    Fill(Filling, u64),
}

// ---- rows

fn filling_rows(
    words: &[u64],
    used: usize,
    bits: &[u64],
    filling: Filling,
    s: u64,
) -> Result<(), Refusal>
    requires { Marked words.now bits.now used }
    ensures { row_of result ≡ filling_rows filling s (take used words.now) }
{
    match filling {
        Filling::Fields => of_structs::fields_rows(words, used, bits, s),
        Filling::Offsets => of_offsets::offsets_rows(words, used, bits, s),
    }
}

// How many words a call fills in.
fn filled(words: &[u64], used: usize, filling: Filling, s: usize) -> u64
    requires { used ≤ length words.now }
    ensures { result ≡ length (filled_words filling s (take used words.now)) }
{
    let none = [0u64; 0];
    let n = words::word(&none, words, used, s) / kinds::COUNT;
    match filling {
        Filling::Fields => columns::LENT_FIELD as u64 * n,
        Filling::Offsets => n + 1,
    }
}

fn fill_rows(
    words: &[u64],
    used: usize,
    bits: &[u64],
    filling: Filling,
    n: u64,
    s: u64,
) -> Result<(), Refusal>
    requires { Marked words.now bits.now used }
    ensures { row_of result ≡ output_rows (filling_rows filling s) (filled_words filling s) n (take used words.now) }
{
    filling_rows(words, used, bits, filling, s)?;
    if n < filled(words, used, filling, s as usize) {
        return Err(Refusal::ShortOutput);
    }
    Ok(())
}

// The rows of each.
pub fn rows_of(
    words: &[u64],
    used: usize,
    bits: &[u64],
    of: OfStruct,
    s: u64,
) -> Result<(), Refusal>
    requires { Marked words.now bits.now used }
    ensures { row_of result ≡ of_struct_rows of s (take used words.now) }
{
    match of {
        OfStruct::Name => { of_types::kind_rows(words, used, bits, s, kinds::STRUCT, kinds::FREF) }
        OfStruct::Find(name) => of_structs::find_rows(words, used, bits, s, name),
        OfStruct::FindAlias(alias) => of_structs::find_alias_rows(words, used, bits, s, alias),
        OfStruct::IsAry => of_structs::fields_rows(words, used, bits, s),
        OfStruct::Offset(i) => of_offsets::offset_rows(words, used, bits, s, i),
        OfStruct::AryBase => of_offsets::ary_base_rows(words, used, bits, s),
        OfStruct::AryScale => of_offsets::ary_scale_rows(words, used, bits, s),
        OfStruct::Fill(filling, n) => fill_rows(words, used, bits, filling, n, s),
    }
}

// ---- answers

fn place(p: Option<u64>) -> Answer
    ensures { answered result ≡ placed p }
{
    match p {
        Some(i) => Answer::Number(i),
        None => Answer::Absent,
    }
}

// The answer where no row applies.
pub fn tell(words: &[u64], used: usize, of: OfStruct, s: u64) -> Answer
    requires { Cleared (of_struct_rows of s) [] words.now used }
    ensures { answered result ≡ of_struct_told of s (take used words.now) }
{
    let none = [0u64; 0];
    match of {
        OfStruct::Name => {
            Answer::Handle(words::word(&none, words, used, s as usize + columns::NAME))
        }
        OfStruct::Find(name) => { place(of_structs::find(words, used, s as usize, name as usize)) }
        OfStruct::FindAlias(alias) => {
            place(of_structs::find_alias(words, used, s as usize, alias))
        }
        OfStruct::IsAry => Answer::Flag(of_structs::is_ary(words, used, s)),
        OfStruct::Offset(i) => {
            Answer::Number(of_offsets::offset(words, used, s as usize, i as usize))
        }
        OfStruct::AryBase => Answer::Number(of_offsets::offset(words, used, s as usize, 1)),
        OfStruct::AryScale => Answer::Number(of_offsets::ary_scale(words, used, s as usize)),
        OfStruct::Fill(filling, _) => Answer::Number(filled(words, used, filling, s as usize)),
    }
}

// Fills the first words of the output, where no row applies to a call with an output of this length.
pub fn fill(words: &[u64], used: usize, filling: Filling, s: u64, output: &mut [u64])
    requires { Cleared (output_rows (filling_rows filling s) (filled_words filling s) (length output.old)) [] words.now used }
    ensures { output.new ≡ filled_words filling s (take used words.now) ++ drop (length (filled_words filling s (take used words.now))) output.old }
{
    match filling {
        Filling::Fields => of_structs::fill_fields(words, used, s as usize, output),
        Filling::Offsets => of_offsets::fill_offsets(words, used, s as usize, output),
    }
}
