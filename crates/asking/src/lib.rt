// The calls that only read, as values: one function for their rows and one for their answers, on a store that row 1 has passed.
#![tactic(auto)]

ghost use Rattle.std.specs.Prelude.{◌≡◌, not, cond, [], eqb, length, take};
ghost use Rattle.index.specs.Covers.{Covers};
ghost use Rattle.wellformed.specs.Entry.{is_flag};
ghost use Rattle.call.specs.Call.{left, answered, told, ◌when◌};
ghost use Rattle.call.specs.Refusals.{row_of};
ghost use Rattle.call.specs.Steps.{Marked};
ghost use Rattle.lent_memory.specs.Memory.{Right};
ghost use Rattle.every_call.specs.Run.{run};
ghost use Rattle.every_call.specs.Cleared.{Cleared};
ghost use Rattle.asking.specs.Asking.{asked_filling, rows_of, answer_of, output_of};
ghost use Rattle.wellformed.specs.FreshHandles.{int_zero, int_one};

use call::{Answer, Refusal};
use of_types::OfType;
use of_values::{OfFloat, OfInt};
use struct_calls::{Filling, OfStruct};
use words::kinds;

#[derive(Clone, Copy)]
pub enum Asking {
    Kind(u64),
    GetBool(u64),
    Isa(u64, u64),
    IsFinal(u64),
    Type(OfType, u64),
    Int(OfInt, u64),
    Float(OfFloat, u64),
    Struct(OfStruct, u64),
}

// ---- rows

// The rows of each.
pub fn rows_of(words: &[u64], used: usize, bits: &[u64], asking: Asking) -> Result<(), Refusal>
    requires { Marked words.now bits.now used }
    ensures { row_of result ≡ rows_of asking (take used words.now) }
{
    match asking {
        Asking::Kind(h) => rows::types_rows(words, used, bits, &[h]),
        Asking::GetBool(value) => value_rows::bool_rows(value),
        Asking::Isa(a, b) => rows::types_rows(words, used, bits, &[a, b]),
        Asking::IsFinal(a) => rows::types_rows(words, used, bits, &[a]),
        Asking::Type(of, a) => of_types::rows_of(words, used, bits, of, a),
        Asking::Int(_, a) => { of_types::kind_rows(words, used, bits, a, kinds::INT, kinds::INT) }
        Asking::Float(_, a) => {
            of_types::kind_rows(words, used, bits, a, kinds::FLOAT, kinds::FLOAT)
        }
        Asking::Struct(of, s) => struct_calls::rows_of(words, used, bits, of, s),
    }
}

// ---- answers

fn bool_at(value: u64) -> u64
    ensures { result ≡ cond (eqb value 0) int_zero int_one }
{
    if value == 0 {
        return words::fresh::INT_ZERO as u64;
    }
    words::fresh::INT_ONE as u64
}

// The answer of a call that no row turns back. `scratch` may hold anything; `memory` and `index` may have no words.
pub fn tell(
    words: &[u64],
    used: usize,
    asking: Asking,
    scratch: &mut [u64],
    memory: &mut [u64],
    index: &[u64],
) -> Answer
    requires cleared { Cleared (rows_of asking) [] words.now used }
    requires right { Right (take used words.now) memory.old }
    requires covers { Covers (take used words.now) index.now }
    ensures result_value { answered result ≡ answer_of asking (take used words.now) }
    ensures right_2 { Right (take used words.now) memory.new }
{
    let none = [0u64; 0];
    match asking {
        Asking::Kind(h) => Answer::Number(call::kind_on(&none, words, used, h)),
        Asking::GetBool(value) => Answer::Handle(bool_at(value)),
        Asking::Isa(a, b) => Answer::Flag(lent_memory::isa(words, used, a, b, memory, index)),
        Asking::IsFinal(a) => {
            let yes = lent_memory::is_final(&none, words, used, a as usize, scratch, memory);
            Answer::Flag(yes)
        }
        Asking::Type(of, a) => of_types::tell(words, used, of, a),
        Asking::Int(of, a) => of_values::tell_int(words, used, of, a as usize),
        Asking::Float(of, a) => of_values::tell_float(words, used, of, a as usize),
        Asking::Struct(of, s) => struct_calls::tell(words, used, of, s),
    }
}

// ---- a call that fills a lent output

// Fills the output of a call that was answered so, unless it was refused.
pub fn fill(
    words: &[u64],
    filling: Filling,
    s: u64,
    answer: Result<Answer, Refusal>,
    output: &mut [u64],
)
    requires { left (told answer) words.now ≡ run (asked_filling filling s (length output.old)) words.now }
    ensures { output.new ≡ output_of filling s words.now output.old }
{
    if answer.is_err() {
        return;
    }
    struct_calls::fill(words, words[0] as usize, filling, s, output);
}
