// The calls that append, as values: one function for their rows, one for their operations, and one for what is left to do once no row applies. What a call does is
// said of its value; the functions of `types` and `ty` name one each.
#![tactic(auto)]

ghost use Rattle.std.specs.Prelude.{◌≡◌, true, not, ◌++◌, length, take, Ok};
ghost use Rattle.words.specs.Made.{make};
ghost use Rattle.words.specs.Ran.{Segments, Runs};
ghost use Rattle.index.specs.Covers.{Covers};
ghost use Rattle.wellformed.specs.Entry.{most_counted, float_ok};
ghost use Rattle.wellformed.specs.Form.{used_words};
ghost use Rattle.call.specs.Call.{left, made, ◌when◌};
ghost use Rattle.call.specs.Refusals.{row_of};
ghost use Rattle.call.specs.Steps.{row_1, Marked};
ghost use Rattle.makers.specs.Entries.{stored_size, float_entry};
ghost use Rattle.lent_memory.specs.Memory.{Right, RightThen};
ghost use Rattle.every_call.specs.Run.{run, typed};
ghost use Rattle.every_call.specs.Cleared.{Cleared};
ghost use Rattle.making.specs.Making.{appended, rows_of, op_of};

use call::Refusal;
use walk_rules::Walk;
use words::{Interned, kinds, limits};

// A call that appends. The types of a tuple or of a merge, the fields of a struct and the bytes of a name are lent beside it. get_int is MakeInt, get_float is MakeFloat.
#[derive(Clone, Copy)]
pub enum Making {
    MakeInt(u64, u64),
    MakeFloat(u64, u64),
    GetStr,
    GetTuple,
    GetStruct(u64),
    MakeAry(u64, u64, u64, u64),
    MakeStructFref(u64),
    GetMemPtr(u64, u64),
    GetMem(u64, u64),
    Meet(u64, u64),
    MeetList,
    Join(u64, u64),
    Walk(Walk, u64),
    MakeRo(u64),
    NonZero(u64),
}

// ---- rows

// The rows of each, on a store that row 1 has passed.
pub fn rows_of(
    words: &[u64],
    used: usize,
    bits: &[u64],
    making: Making,
    list: &[u64],
    text: &[u8],
) -> Result<(), Refusal>
    requires { Marked words.now bits.now used }
    ensures { row_of result ≡ rows_of making list.now text.now (take used words.now) }
{
    match making {
        Making::MakeInt(_, _) => Ok(()),
        Making::MakeFloat(sz, con) => value_rows::float_rows(sz, con),
        Making::GetStr => value_rows::str_rows(text),
        Making::GetTuple => rows::tuple_rows(words, used, bits, list),
        Making::GetStruct(name) => rows::struct_rows(words, used, bits, name, list),
        Making::MakeAry(len, la, body, ba) => {
            rows::ary_rows(words, used, bits, len, la, body, ba, text)
        }
        Making::MakeStructFref(name) => rows::fref_rows(words, used, bits, name),
        Making::GetMemPtr(to, nil) => rows::part_rows(
            words,
            used,
            bits,
            to,
            kinds::STRUCT,
            kinds::FREF,
            nil <= limits::LARGEST_FLAG,
        ),
        Making::GetMem(alias, t) => {
            rows::part_rows(
                words,
                used,
                bits,
                t,
                kinds::BOT,
                kinds::MEM,
                alias <= limits::LARGEST_ALIAS,
            )
        }
        Making::Meet(a, b) => rows::types_rows(words, used, bits, &[a, b]),
        Making::MeetList => meet_list::list_rows(words, used, bits, list),
        Making::Join(a, b) => rows::types_rows(words, used, bits, &[a, b]),
        Making::Walk(_, a) => rows::types_rows(words, used, bits, &[a]),
        Making::MakeRo(a) => rows::types_rows(words, used, bits, &[a]),
        Making::NonZero(a) => rows::types_rows(words, used, bits, &[a]),
    }
}

// ---- operations

fn float(
    old: &[u64],
    new: &mut [u64],
    used: usize,
    sz: u64,
    bits: u64,
    index: &[u64],
) -> Option<Interned>
    requires segments { Segments old.now new.old used }
    requires bits_value { float_ok (stored_size sz) bits ≡ true }
    requires covers { Covers (take used (old.now ++ new.old)) index.now }
    ensures { Runs (λ u. make u (float_entry (stored_size sz) bits)) old.now new.old used new.new result }
{
    let size = sz.wrapping_add(wellformed::SIZE_ZERO);
    let f = type_float::float_of(size, bits);
    makers::float(old, new, used, f, bits, index)
}

// Appends what the call makes, behind the used words of two segments. `scratch` may hold anything; `memory` and `index` may have no words.
pub fn operate(
    old: &[u64],
    new: &mut [u64],
    used: usize,
    making: Making,
    list: &[u64],
    text: &[u8],
    scratch: &mut [u64],
    memory: &mut [u64],
    index: &[u64],
) -> Option<Interned>
    requires cleared { Cleared (rows_of making list.now text.now) old.now new.old used }
    requires right { Right (take used (old.now ++ new.old)) memory.old }
    requires covers { Covers (take used (old.now ++ new.old)) index.now }
    ensures runs { Runs (op_of making list.now text.now) old.now new.old used new.new result }
    ensures right_then { RightThen old.now new.new result memory.new }
    ensures text_value { typed (appended making list.now text.now) ≡ true }
{
    match making {
        Making::MakeInt(min, max) => makers::int(old, new, used, min, max, index),
        Making::MakeFloat(sz, con) => float(old, new, used, sz, con, index),
        Making::GetStr => names::intern_name(old, new, used, text, false, index),
        Making::GetTuple => makers::tuple(old, new, used, list, index),
        Making::GetStruct(name) => makers::structure(old, new, used, name, list, index),
        Making::MakeAry(len, la, body, ba) => {
            arrays::array(old, new, used, len, la, body, ba, text, index)
        }
        Making::MakeStructFref(name) => makers::fref(old, new, used, name, index),
        Making::GetMemPtr(to, nil) => makers::pointer(old, new, used, to, nil, index),
        Making::GetMem(alias, t) => makers::memory(old, new, used, alias, t, index),
        Making::Meet(a, b) => {
            lent_memory::meet(old, new, used, a as usize, b as usize, memory, index)
        }
        Making::MeetList => meet_list::meet_list(old, new, used, list, memory, index),
        Making::Join(a, b) => {
            lent_memory::join(old, new, used, a as usize, b as usize, memory, index)
        }
        Making::Walk(walk, a) => {
            lent_memory::walk(walk, old, new, used, a as usize, memory, index)
        }
        Making::MakeRo(a) => {
            lent_memory::make_ro(old, new, used, a as usize, scratch, memory, index)
        }
        Making::NonZero(a) => { non_zero::non_zero(old, new, used, a as usize, memory, index) }
    }
}

// A call that no row turns back: its operation, and the end.
pub fn append(
    words: &mut [u64],
    used: usize,
    making: Making,
    list: &[u64],
    text: &[u8],
    scratch: &mut [u64],
    memory: &mut [u64],
    index: &[u64],
) -> Result<u64, Refusal>
    requires used_value { Ok used ≡ row_1 words.old }
    requires words_value { rows_of making list.now text.now (take used words.old) ≡ 0 }
    requires right { Right (take used words.old) memory.old }
    requires covers { Covers (take used words.old) index.now }
    ensures words_after { left (made result) words.new ≡ run (appended making list.now text.now) words.old }
    ensures right_2 { Right (used_words words.new) memory.new }
    ensures text_value { typed (appended making list.now text.now) ≡ true }
{
    let none = [0u64; 0];
    let r = operate(
        &none, words, used, making, list, text, scratch, memory, index,
    );
    memory_steps::forget(r, memory);
    call::finish(words, used, r)
}
