// The calls for C and Rust: a static library. A slice is a pointer and a length there, a lent word a pointer to it. A function returns 0, or the number of a refusal; its
// answer goes to the lent word `answer`: a handle, a number, or 1 or 0 for yes or no. On a refusal that word keeps. The contracts here speak of slices and words as Rattle lends them; of a caller in C or Rust that is a promise which no call tests:
// each pointer is valid and aligned for its length and stays so during the call, and what is written overlaps nothing else that the call is lent.
#![tactic(auto)]

ghost use Rattle.std.specs.Prelude.{◌≡◌, length};
ghost use Rattle.wellformed.specs.Form.{well_formed};
ghost use Rattle.entry_search.specs.EntrySearch.{entry_search};
ghost use Rattle.entry_search.specs.CodedSearch.{CodedSearch};
ghost use Rattle.makers.specs.Makers.{fresh_call};
ghost use Rattle.catalogue.specs.Catalogue.{save_output, load_call};
ghost use Rattle.every_call.specs.Others.{struct_fields_output, offsets_output};
ghost use Rattle.every_call.specs.Run.{run, kind, get_bool, get_int, make_int, get_float, make_float, get_tuple, get_str, get_struct, make_ary_is, make_struct_fref, get_mem_ptr, get_mem, meet, meet_list, isa, dual, join, glb, lub, is_final, make_ro, make_init, make_zero, non_zero, is_high_is, is_high_or_constant_is, is_constant_is, is_fref_is, log_size_is, int_min, int_max, int_value_is, int_mask, float_sz, float_is_f32, float_value, float_reading_is, struct_name, struct_fields, find, find_alias, is_ary_is, offset, offsets, ary_base_is, ary_scale_is, save};
ghost use Rattle.opened.specs.OpenStore.{OpenStore, open_reply};
ghost use Rattle.codes.specs.Code.{status, CodedDone, Coded, CodedWhich, CodedOpening};

use asking::Asking;
use making::Making;
use of_types::OfType;
use of_values::{OfFloat, OfInt};
use struct_calls::{Filling, OfStruct};
use walk_rules::Walk;

#[unsafe(no_mangle)]
pub extern "C" fn ferigulan_well_formed(words: &[u64]) -> bool
    ensures { result ≡ well_formed words.now }
{
    wellformed::well_formed(words)
}

// The search for an entry that is given by its words, which is no call. Whether there is one goes to `which`, 1 or 0, and how many entries were not passed over to `count`; where there is none `answer` keeps.
#[unsafe(no_mangle)]
pub extern "C" fn ferigulan_find_entry(
    words: &[u64],
    entry: &[u64],
    which: &mut u64,
    count: &mut u64,
    answer: &mut u64,
) -> u32
    ensures { CodedSearch (entry_search words.now entry.now) result which.old which.new count.old count.new answer.old answer.new }
{
    entry_search::find_entry_coded(words, entry, which, count, answer)
}

#[unsafe(no_mangle)]
pub extern "C" fn ferigulan_fresh(words: &mut [u64]) -> u32
    ensures { CodedDone (fresh_call words.old) result words.new }
{
    coded_calls::fresh(words)
}

// The writer of a saved catalogue. The file goes to the front of `file`, and its length to `answer`.
#[unsafe(no_mangle)]
pub extern "C" fn ferigulan_save(
    words: &[u64],
    label: &[u8],
    file: &mut [u8],
    answer: &mut u64,
) -> u32
    ensures coded { Coded (run (save label.now (length file.old)) words.now) result words.now answer.old answer.new }
    ensures file_after { file.new ≡ save_output label.now words.now file.old }
{
    coded_calls::save(words, label, file, answer)
}

// The loader, into words that may hold anything. The label's length goes to `answer`.
#[unsafe(no_mangle)]
pub extern "C" fn ferigulan_load(words: &mut [u64], file: &[u8], answer: &mut u64) -> u32
    ensures { Coded (load_call file.now words.old) result words.new answer.old answer.new }
{
    coded_calls::load(words, file, answer)
}

#[unsafe(no_mangle)]
pub extern "C" fn ferigulan_kind(words: &[u64], h: u64, answer: &mut u64) -> u32
    ensures { Coded (run (kind h) words.now) result words.now answer.old answer.new }
{
    coded_calls::ask(words, Asking::Kind(h), answer)
}

#[unsafe(no_mangle)]
pub extern "C" fn ferigulan_get_bool(words: &[u64], value: u64, answer: &mut u64) -> u32
    ensures { Coded (run (get_bool value) words.now) result words.now answer.old answer.new }
{
    coded_calls::ask(words, Asking::GetBool(value), answer)
}

#[unsafe(no_mangle)]
pub extern "C" fn ferigulan_get_int(words: &mut [u64], value: u64, answer: &mut u64) -> u32
    ensures { Coded (run (get_int value) words.old) result words.new answer.old answer.new }
{
    coded_calls::make(words, Making::MakeInt(value, value), answer)
}

#[unsafe(no_mangle)]
pub extern "C" fn ferigulan_make_int(words: &mut [u64], min: u64, max: u64, answer: &mut u64) -> u32
    ensures { Coded (run (make_int min max) words.old) result words.new answer.old answer.new }
{
    coded_calls::make(words, Making::MakeInt(min, max), answer)
}

#[unsafe(no_mangle)]
pub extern "C" fn ferigulan_get_float(words: &mut [u64], bits: u64, answer: &mut u64) -> u32
    ensures { Coded (run (get_float bits) words.old) result words.new answer.old answer.new }
{
    coded_calls::make(words, Making::MakeFloat(0, bits), answer)
}

#[unsafe(no_mangle)]
pub extern "C" fn ferigulan_make_float(
    words: &mut [u64],
    sz: u64,
    bits: u64,
    answer: &mut u64,
) -> u32
    ensures { Coded (run (make_float sz bits) words.old) result words.new answer.old answer.new }
{
    coded_calls::make(words, Making::MakeFloat(sz, bits), answer)
}

#[unsafe(no_mangle)]
pub extern "C" fn ferigulan_get_tuple(words: &mut [u64], types: &[u64], answer: &mut u64) -> u32
    ensures { Coded (run (get_tuple types.now) words.old) result words.new answer.old answer.new }
{
    coded_calls::append(words, Making::GetTuple, types, b"", answer)
}

#[unsafe(no_mangle)]
pub extern "C" fn ferigulan_get_str(words: &mut [u64], name: &[u8], answer: &mut u64) -> u32
    ensures { Coded (run (get_str name.now) words.old) result words.new answer.old answer.new }
{
    coded_calls::append(words, Making::GetStr, &[], name, answer)
}

#[unsafe(no_mangle)]
pub extern "C" fn ferigulan_get_struct(
    words: &mut [u64],
    name: u64,
    fields: &[u64],
    answer: &mut u64,
) -> u32
    ensures { Coded (run (get_struct name fields.now) words.old) result words.new answer.old answer.new }
{
    coded_calls::append(words, Making::GetStruct(name), fields, b"", answer)
}

#[unsafe(no_mangle)]
pub extern "C" fn ferigulan_make_ary(
    words: &mut [u64],
    len: u64,
    len_alias: u64,
    body: u64,
    body_alias: u64,
    text: &[u8],
    answer: &mut u64,
) -> u32
    ensures { Coded (run (make_ary_is len len_alias body body_alias text.now) words.old) result words.new answer.old answer.new }
{
    coded_calls::append(
        words,
        Making::MakeAry(len, len_alias, body, body_alias),
        &[],
        text,
        answer,
    )
}

#[unsafe(no_mangle)]
pub extern "C" fn ferigulan_make_struct_fref(words: &mut [u64], name: u64, answer: &mut u64) -> u32
    ensures { Coded (run (make_struct_fref name) words.old) result words.new answer.old answer.new }
{
    coded_calls::make(words, Making::MakeStructFref(name), answer)
}

#[unsafe(no_mangle)]
pub extern "C" fn ferigulan_get_mem_ptr(
    words: &mut [u64],
    to: u64,
    nil: u64,
    answer: &mut u64,
) -> u32
    ensures { Coded (run (get_mem_ptr to nil) words.old) result words.new answer.old answer.new }
{
    coded_calls::make(words, Making::GetMemPtr(to, nil), answer)
}

#[unsafe(no_mangle)]
pub extern "C" fn ferigulan_get_mem(words: &mut [u64], alias: u64, t: u64, answer: &mut u64) -> u32
    ensures { Coded (run (get_mem alias t) words.old) result words.new answer.old answer.new }
{
    coded_calls::make(words, Making::GetMem(alias, t), answer)
}

#[unsafe(no_mangle)]
pub extern "C" fn ferigulan_meet(words: &mut [u64], a: u64, b: u64, answer: &mut u64) -> u32
    ensures { Coded (run (meet a b) words.old) result words.new answer.old answer.new }
{
    coded_calls::make(words, Making::Meet(a, b), answer)
}

#[unsafe(no_mangle)]
pub extern "C" fn ferigulan_meet_list(words: &mut [u64], types: &[u64], answer: &mut u64) -> u32
    ensures { Coded (run (meet_list types.now) words.old) result words.new answer.old answer.new }
{
    coded_calls::append(words, Making::MeetList, types, b"", answer)
}

#[unsafe(no_mangle)]
pub extern "C" fn ferigulan_isa(words: &[u64], a: u64, b: u64, answer: &mut u64) -> u32
    ensures { Coded (run (isa a b) words.now) result words.now answer.old answer.new }
{
    coded_calls::ask(words, Asking::Isa(a, b), answer)
}

#[unsafe(no_mangle)]
pub extern "C" fn ferigulan_dual(words: &mut [u64], a: u64, answer: &mut u64) -> u32
    ensures { Coded (run (dual a) words.old) result words.new answer.old answer.new }
{
    coded_calls::make(words, Making::Walk(Walk::Dual, a), answer)
}

#[unsafe(no_mangle)]
pub extern "C" fn ferigulan_join(words: &mut [u64], a: u64, b: u64, answer: &mut u64) -> u32
    ensures { Coded (run (join a b) words.old) result words.new answer.old answer.new }
{
    coded_calls::make(words, Making::Join(a, b), answer)
}

#[unsafe(no_mangle)]
pub extern "C" fn ferigulan_glb(words: &mut [u64], a: u64, answer: &mut u64) -> u32
    ensures { Coded (run (glb a) words.old) result words.new answer.old answer.new }
{
    coded_calls::make(words, Making::Walk(Walk::Glb, a), answer)
}

#[unsafe(no_mangle)]
pub extern "C" fn ferigulan_lub(words: &mut [u64], a: u64, answer: &mut u64) -> u32
    ensures { Coded (run (lub a) words.old) result words.new answer.old answer.new }
{
    coded_calls::make(words, Making::Walk(Walk::Lub, a), answer)
}

#[unsafe(no_mangle)]
pub extern "C" fn ferigulan_is_final(words: &[u64], a: u64, answer: &mut u64) -> u32
    ensures { Coded (run (is_final a) words.now) result words.now answer.old answer.new }
{
    coded_calls::ask(words, Asking::IsFinal(a), answer)
}

#[unsafe(no_mangle)]
pub extern "C" fn ferigulan_make_ro(words: &mut [u64], a: u64, answer: &mut u64) -> u32
    ensures { Coded (run (make_ro a) words.old) result words.new answer.old answer.new }
{
    coded_calls::make(words, Making::MakeRo(a), answer)
}

// ---- what is told of types, numbers and structs. `which` is 1 where there is an answer, and 0 where it is absent or, of a reading, a size alone

#[unsafe(no_mangle)]
pub extern "C" fn ferigulan_make_init(words: &[u64], a: u64, answer: &mut u64) -> u32
    ensures { Coded (run (make_init a) words.now) result words.now answer.old answer.new }
{
    coded_calls::ask(words, Asking::Type(OfType::MakeInit, a), answer)
}

#[unsafe(no_mangle)]
pub extern "C" fn ferigulan_make_zero(words: &[u64], a: u64, answer: &mut u64) -> u32
    ensures { Coded (run (make_zero a) words.now) result words.now answer.old answer.new }
{
    coded_calls::ask(words, Asking::Type(OfType::MakeZero, a), answer)
}

#[unsafe(no_mangle)]
pub extern "C" fn ferigulan_non_zero(words: &mut [u64], a: u64, answer: &mut u64) -> u32
    ensures { Coded (run (non_zero a) words.old) result words.new answer.old answer.new }
{
    coded_calls::make(words, Making::NonZero(a), answer)
}

#[unsafe(no_mangle)]
pub extern "C" fn ferigulan_is_high(words: &[u64], a: u64, answer: &mut u64) -> u32
    ensures { Coded (run (is_high_is a) words.now) result words.now answer.old answer.new }
{
    coded_calls::ask(words, Asking::Type(OfType::IsHigh, a), answer)
}

#[unsafe(no_mangle)]
pub extern "C" fn ferigulan_is_high_or_constant(words: &[u64], a: u64, answer: &mut u64) -> u32
    ensures { Coded (run (is_high_or_constant_is a) words.now) result words.now answer.old answer.new }
{
    coded_calls::ask(words, Asking::Type(OfType::IsHighOrConstant, a), answer)
}

#[unsafe(no_mangle)]
pub extern "C" fn ferigulan_is_constant(words: &[u64], a: u64, answer: &mut u64) -> u32
    ensures { Coded (run (is_constant_is a) words.now) result words.now answer.old answer.new }
{
    coded_calls::ask(words, Asking::Type(OfType::IsConstant, a), answer)
}

#[unsafe(no_mangle)]
pub extern "C" fn ferigulan_is_fref(words: &[u64], a: u64, answer: &mut u64) -> u32
    ensures { Coded (run (is_fref_is a) words.now) result words.now answer.old answer.new }
{
    coded_calls::ask(words, Asking::Type(OfType::IsFref, a), answer)
}

#[unsafe(no_mangle)]
pub extern "C" fn ferigulan_log_size(words: &[u64], a: u64, answer: &mut u64) -> u32
    ensures { Coded (run (log_size_is a) words.now) result words.now answer.old answer.new }
{
    coded_calls::ask(words, Asking::Type(OfType::LogSize, a), answer)
}

#[unsafe(no_mangle)]
pub extern "C" fn ferigulan_int_min(words: &[u64], a: u64, answer: &mut u64) -> u32
    ensures { Coded (run (int_min a) words.now) result words.now answer.old answer.new }
{
    coded_calls::ask(words, Asking::Int(OfInt::Min, a), answer)
}

#[unsafe(no_mangle)]
pub extern "C" fn ferigulan_int_max(words: &[u64], a: u64, answer: &mut u64) -> u32
    ensures { Coded (run (int_max a) words.now) result words.now answer.old answer.new }
{
    coded_calls::ask(words, Asking::Int(OfInt::Max, a), answer)
}

#[unsafe(no_mangle)]
pub extern "C" fn ferigulan_int_value(
    words: &[u64],
    a: u64,
    which: &mut u64,
    answer: &mut u64,
) -> u32
    ensures { CodedWhich (run (int_value_is a) words.now) result words.now which.old which.new answer.old answer.new }
{
    coded_calls::ask_which(words, Asking::Int(OfInt::Value, a), which, answer)
}

#[unsafe(no_mangle)]
pub extern "C" fn ferigulan_int_mask(words: &[u64], a: u64, answer: &mut u64) -> u32
    ensures { Coded (run (int_mask a) words.now) result words.now answer.old answer.new }
{
    coded_calls::ask(words, Asking::Int(OfInt::Mask, a), answer)
}

#[unsafe(no_mangle)]
pub extern "C" fn ferigulan_float_sz(words: &[u64], a: u64, answer: &mut u64) -> u32
    ensures { Coded (run (float_sz a) words.now) result words.now answer.old answer.new }
{
    coded_calls::ask(words, Asking::Float(OfFloat::Sz, a), answer)
}

#[unsafe(no_mangle)]
pub extern "C" fn ferigulan_float_is_f32(words: &[u64], a: u64, answer: &mut u64) -> u32
    ensures { Coded (run (float_is_f32 a) words.now) result words.now answer.old answer.new }
{
    coded_calls::ask(words, Asking::Float(OfFloat::IsF32, a), answer)
}

#[unsafe(no_mangle)]
pub extern "C" fn ferigulan_float_value(
    words: &[u64],
    a: u64,
    which: &mut u64,
    answer: &mut u64,
) -> u32
    ensures { CodedWhich (run (float_value a) words.now) result words.now which.old which.new answer.old answer.new }
{
    coded_calls::ask_which(words, Asking::Float(OfFloat::Value, a), which, answer)
}

#[unsafe(no_mangle)]
pub extern "C" fn ferigulan_float_reading(
    words: &[u64],
    a: u64,
    which: &mut u64,
    answer: &mut u64,
) -> u32
    ensures { CodedWhich (run (float_reading_is a) words.now) result words.now which.old which.new answer.old answer.new }
{
    coded_calls::ask_which(words, Asking::Float(OfFloat::Reading, a), which, answer)
}

#[unsafe(no_mangle)]
pub extern "C" fn ferigulan_struct_name(words: &[u64], s: u64, answer: &mut u64) -> u32
    ensures { Coded (run (struct_name s) words.now) result words.now answer.old answer.new }
{
    coded_calls::ask(words, Asking::Struct(OfStruct::Name, s), answer)
}

#[unsafe(no_mangle)]
pub extern "C" fn ferigulan_struct_fields(
    words: &[u64],
    s: u64,
    output: &mut [u64],
    answer: &mut u64,
) -> u32
    ensures coded { Coded (run (struct_fields s (length output.old)) words.now) result words.now answer.old answer.new }
    ensures output_after { output.new ≡ struct_fields_output s words.now output.old }
{
    coded_calls::fill(words, Filling::Fields, s, output, answer)
}

#[unsafe(no_mangle)]
pub extern "C" fn ferigulan_find(
    words: &[u64],
    s: u64,
    name: u64,
    which: &mut u64,
    answer: &mut u64,
) -> u32
    ensures { CodedWhich (run (find s name) words.now) result words.now which.old which.new answer.old answer.new }
{
    coded_calls::ask_which(
        words,
        Asking::Struct(OfStruct::Find(name), s),
        which,
        answer,
    )
}

#[unsafe(no_mangle)]
pub extern "C" fn ferigulan_find_alias(
    words: &[u64],
    s: u64,
    alias: u64,
    which: &mut u64,
    answer: &mut u64,
) -> u32
    ensures { CodedWhich (run (find_alias s alias) words.now) result words.now which.old which.new answer.old answer.new }
{
    coded_calls::ask_which(
        words,
        Asking::Struct(OfStruct::FindAlias(alias), s),
        which,
        answer,
    )
}

#[unsafe(no_mangle)]
pub extern "C" fn ferigulan_is_ary(words: &[u64], s: u64, answer: &mut u64) -> u32
    ensures { Coded (run (is_ary_is s) words.now) result words.now answer.old answer.new }
{
    coded_calls::ask(words, Asking::Struct(OfStruct::IsAry, s), answer)
}

#[unsafe(no_mangle)]
pub extern "C" fn ferigulan_offset(words: &[u64], s: u64, i: u64, answer: &mut u64) -> u32
    ensures { Coded (run (offset s i) words.now) result words.now answer.old answer.new }
{
    coded_calls::ask(words, Asking::Struct(OfStruct::Offset(i), s), answer)
}

#[unsafe(no_mangle)]
pub extern "C" fn ferigulan_offsets(
    words: &[u64],
    s: u64,
    output: &mut [u64],
    answer: &mut u64,
) -> u32
    ensures coded { Coded (run (offsets s (length output.old)) words.now) result words.now answer.old answer.new }
    ensures output_after { output.new ≡ offsets_output s words.now output.old }
{
    coded_calls::fill(words, Filling::Offsets, s, output, answer)
}

#[unsafe(no_mangle)]
pub extern "C" fn ferigulan_ary_base(words: &[u64], s: u64, answer: &mut u64) -> u32
    ensures { Coded (run (ary_base_is s) words.now) result words.now answer.old answer.new }
{
    coded_calls::ask(words, Asking::Struct(OfStruct::AryBase, s), answer)
}

#[unsafe(no_mangle)]
pub extern "C" fn ferigulan_ary_scale(words: &[u64], s: u64, answer: &mut u64) -> u32
    ensures { Coded (run (ary_scale_is s) words.now) result words.now answer.old answer.new }
{
    coded_calls::ask(words, Asking::Struct(OfStruct::AryScale, s), answer)
}

// ---- the calls on an opened store

// An opened store is three lists that do not overlap: the words, an index of at least 2n + n/64 + 1 words for a list of n, and a memory of any length. What is required of
// them here is, of a caller in C or Rust, a promise that no call tests: `ferigulan_open` has accepted the three lists, and nobody but the calls below has written any of
// them since. Where it is broken, nothing is proved.

// Tests row 1, and makes the index and a blank memory; any words may stand in the two lists before.
#[unsafe(no_mangle)]
pub extern "C" fn ferigulan_open(words: &[u64], index: &mut [u64], memory: &mut [u64]) -> u32
    ensures value { result ≡ status (open_reply words.now (length index.old)) }
    ensures coded_opening { CodedOpening words.now index.old memory.old index.new memory.new result }
{
    coded_calls::open(words, index, memory)
}

#[unsafe(no_mangle)]
pub extern "C" fn ferigulan_opened_kind(
    words: &[u64],
    index: &[u64],
    memory: &mut [u64],
    h: u64,
    answer: &mut u64,
) -> u32
    requires { OpenStore words.now index.now memory.old }
    ensures coded { Coded (run (kind h) words.now) result words.now answer.old answer.new }
    ensures open_store { OpenStore words.now index.now memory.new }
{
    coded_calls::opened_ask(words, index, memory, Asking::Kind(h), answer)
}

#[unsafe(no_mangle)]
pub extern "C" fn ferigulan_opened_get_bool(
    words: &[u64],
    index: &[u64],
    memory: &mut [u64],
    value: u64,
    answer: &mut u64,
) -> u32
    requires { OpenStore words.now index.now memory.old }
    ensures coded { Coded (run (get_bool value) words.now) result words.now answer.old answer.new }
    ensures open_store { OpenStore words.now index.now memory.new }
{
    coded_calls::opened_ask(words, index, memory, Asking::GetBool(value), answer)
}

#[unsafe(no_mangle)]
pub extern "C" fn ferigulan_opened_get_int(
    words: &mut [u64],
    index: &mut [u64],
    memory: &mut [u64],
    value: u64,
    answer: &mut u64,
) -> u32
    requires { OpenStore words.old index.old memory.old }
    ensures coded { Coded (run (get_int value) words.old) result words.new answer.old answer.new }
    ensures open_store { OpenStore words.new index.new memory.new }
{
    coded_calls::opened_append(
        words,
        index,
        memory,
        Making::MakeInt(value, value),
        &[],
        b"",
        answer,
    )
}

#[unsafe(no_mangle)]
pub extern "C" fn ferigulan_opened_make_int(
    words: &mut [u64],
    index: &mut [u64],
    memory: &mut [u64],
    min: u64,
    max: u64,
    answer: &mut u64,
) -> u32
    requires { OpenStore words.old index.old memory.old }
    ensures coded { Coded (run (make_int min max) words.old) result words.new answer.old answer.new }
    ensures open_store { OpenStore words.new index.new memory.new }
{
    coded_calls::opened_append(
        words,
        index,
        memory,
        Making::MakeInt(min, max),
        &[],
        b"",
        answer,
    )
}

#[unsafe(no_mangle)]
pub extern "C" fn ferigulan_opened_get_float(
    words: &mut [u64],
    index: &mut [u64],
    memory: &mut [u64],
    bits: u64,
    answer: &mut u64,
) -> u32
    requires { OpenStore words.old index.old memory.old }
    ensures coded { Coded (run (get_float bits) words.old) result words.new answer.old answer.new }
    ensures open_store { OpenStore words.new index.new memory.new }
{
    coded_calls::opened_append(
        words,
        index,
        memory,
        Making::MakeFloat(0, bits),
        &[],
        b"",
        answer,
    )
}

#[unsafe(no_mangle)]
pub extern "C" fn ferigulan_opened_make_float(
    words: &mut [u64],
    index: &mut [u64],
    memory: &mut [u64],
    sz: u64,
    bits: u64,
    answer: &mut u64,
) -> u32
    requires { OpenStore words.old index.old memory.old }
    ensures coded { Coded (run (make_float sz bits) words.old) result words.new answer.old answer.new }
    ensures open_store { OpenStore words.new index.new memory.new }
{
    coded_calls::opened_append(
        words,
        index,
        memory,
        Making::MakeFloat(sz, bits),
        &[],
        b"",
        answer,
    )
}

#[unsafe(no_mangle)]
pub extern "C" fn ferigulan_opened_get_tuple(
    words: &mut [u64],
    index: &mut [u64],
    memory: &mut [u64],
    types: &[u64],
    answer: &mut u64,
) -> u32
    requires { OpenStore words.old index.old memory.old }
    ensures coded { Coded (run (get_tuple types.now) words.old) result words.new answer.old answer.new }
    ensures open_store { OpenStore words.new index.new memory.new }
{
    coded_calls::opened_append(words, index, memory, Making::GetTuple, types, b"", answer)
}

#[unsafe(no_mangle)]
pub extern "C" fn ferigulan_opened_get_str(
    words: &mut [u64],
    index: &mut [u64],
    memory: &mut [u64],
    name: &[u8],
    answer: &mut u64,
) -> u32
    requires { OpenStore words.old index.old memory.old }
    ensures coded { Coded (run (get_str name.now) words.old) result words.new answer.old answer.new }
    ensures open_store { OpenStore words.new index.new memory.new }
{
    coded_calls::opened_append(words, index, memory, Making::GetStr, &[], name, answer)
}

#[unsafe(no_mangle)]
pub extern "C" fn ferigulan_opened_get_struct(
    words: &mut [u64],
    index: &mut [u64],
    memory: &mut [u64],
    name: u64,
    fields: &[u64],
    answer: &mut u64,
) -> u32
    requires { OpenStore words.old index.old memory.old }
    ensures coded { Coded (run (get_struct name fields.now) words.old) result words.new answer.old answer.new }
    ensures open_store { OpenStore words.new index.new memory.new }
{
    coded_calls::opened_append(
        words,
        index,
        memory,
        Making::GetStruct(name),
        fields,
        b"",
        answer,
    )
}

#[unsafe(no_mangle)]
pub extern "C" fn ferigulan_opened_make_ary(
    words: &mut [u64],
    index: &mut [u64],
    memory: &mut [u64],
    len: u64,
    len_alias: u64,
    body: u64,
    body_alias: u64,
    text: &[u8],
    answer: &mut u64,
) -> u32
    requires { OpenStore words.old index.old memory.old }
    ensures coded { Coded (run (make_ary_is len len_alias body body_alias text.now) words.old) result words.new answer.old answer.new }
    ensures open_store { OpenStore words.new index.new memory.new }
{
    coded_calls::opened_append(
        words,
        index,
        memory,
        Making::MakeAry(len, len_alias, body, body_alias),
        &[],
        text,
        answer,
    )
}

#[unsafe(no_mangle)]
pub extern "C" fn ferigulan_opened_make_struct_fref(
    words: &mut [u64],
    index: &mut [u64],
    memory: &mut [u64],
    name: u64,
    answer: &mut u64,
) -> u32
    requires { OpenStore words.old index.old memory.old }
    ensures coded { Coded (run (make_struct_fref name) words.old) result words.new answer.old answer.new }
    ensures open_store { OpenStore words.new index.new memory.new }
{
    coded_calls::opened_append(
        words,
        index,
        memory,
        Making::MakeStructFref(name),
        &[],
        b"",
        answer,
    )
}

#[unsafe(no_mangle)]
pub extern "C" fn ferigulan_opened_get_mem_ptr(
    words: &mut [u64],
    index: &mut [u64],
    memory: &mut [u64],
    to: u64,
    nil: u64,
    answer: &mut u64,
) -> u32
    requires { OpenStore words.old index.old memory.old }
    ensures coded { Coded (run (get_mem_ptr to nil) words.old) result words.new answer.old answer.new }
    ensures open_store { OpenStore words.new index.new memory.new }
{
    coded_calls::opened_append(
        words,
        index,
        memory,
        Making::GetMemPtr(to, nil),
        &[],
        b"",
        answer,
    )
}

#[unsafe(no_mangle)]
pub extern "C" fn ferigulan_opened_get_mem(
    words: &mut [u64],
    index: &mut [u64],
    memory: &mut [u64],
    alias: u64,
    t: u64,
    answer: &mut u64,
) -> u32
    requires { OpenStore words.old index.old memory.old }
    ensures coded { Coded (run (get_mem alias t) words.old) result words.new answer.old answer.new }
    ensures open_store { OpenStore words.new index.new memory.new }
{
    coded_calls::opened_append(
        words,
        index,
        memory,
        Making::GetMem(alias, t),
        &[],
        b"",
        answer,
    )
}

#[unsafe(no_mangle)]
pub extern "C" fn ferigulan_opened_meet(
    words: &mut [u64],
    index: &mut [u64],
    memory: &mut [u64],
    a: u64,
    b: u64,
    answer: &mut u64,
) -> u32
    requires { OpenStore words.old index.old memory.old }
    ensures coded { Coded (run (meet a b) words.old) result words.new answer.old answer.new }
    ensures open_store { OpenStore words.new index.new memory.new }
{
    coded_calls::opened_append(words, index, memory, Making::Meet(a, b), &[], b"", answer)
}

#[unsafe(no_mangle)]
pub extern "C" fn ferigulan_opened_meet_list(
    words: &mut [u64],
    index: &mut [u64],
    memory: &mut [u64],
    types: &[u64],
    answer: &mut u64,
) -> u32
    requires { OpenStore words.old index.old memory.old }
    ensures coded { Coded (run (meet_list types.now) words.old) result words.new answer.old answer.new }
    ensures open_store { OpenStore words.new index.new memory.new }
{
    coded_calls::opened_meet_list(words, index, memory, types, answer)
}

#[unsafe(no_mangle)]
pub extern "C" fn ferigulan_opened_isa(
    words: &[u64],
    index: &[u64],
    memory: &mut [u64],
    a: u64,
    b: u64,
    answer: &mut u64,
) -> u32
    requires { OpenStore words.now index.now memory.old }
    ensures coded { Coded (run (isa a b) words.now) result words.now answer.old answer.new }
    ensures open_store { OpenStore words.now index.now memory.new }
{
    coded_calls::opened_ask(words, index, memory, Asking::Isa(a, b), answer)
}

#[unsafe(no_mangle)]
pub extern "C" fn ferigulan_opened_dual(
    words: &mut [u64],
    index: &mut [u64],
    memory: &mut [u64],
    a: u64,
    answer: &mut u64,
) -> u32
    requires { OpenStore words.old index.old memory.old }
    ensures coded { Coded (run (dual a) words.old) result words.new answer.old answer.new }
    ensures open_store { OpenStore words.new index.new memory.new }
{
    coded_calls::opened_append(
        words,
        index,
        memory,
        Making::Walk(Walk::Dual, a),
        &[],
        b"",
        answer,
    )
}

#[unsafe(no_mangle)]
pub extern "C" fn ferigulan_opened_join(
    words: &mut [u64],
    index: &mut [u64],
    memory: &mut [u64],
    a: u64,
    b: u64,
    answer: &mut u64,
) -> u32
    requires { OpenStore words.old index.old memory.old }
    ensures coded { Coded (run (join a b) words.old) result words.new answer.old answer.new }
    ensures open_store { OpenStore words.new index.new memory.new }
{
    coded_calls::opened_append(words, index, memory, Making::Join(a, b), &[], b"", answer)
}

#[unsafe(no_mangle)]
pub extern "C" fn ferigulan_opened_glb(
    words: &mut [u64],
    index: &mut [u64],
    memory: &mut [u64],
    a: u64,
    answer: &mut u64,
) -> u32
    requires { OpenStore words.old index.old memory.old }
    ensures coded { Coded (run (glb a) words.old) result words.new answer.old answer.new }
    ensures open_store { OpenStore words.new index.new memory.new }
{
    coded_calls::opened_append(
        words,
        index,
        memory,
        Making::Walk(Walk::Glb, a),
        &[],
        b"",
        answer,
    )
}

#[unsafe(no_mangle)]
pub extern "C" fn ferigulan_opened_lub(
    words: &mut [u64],
    index: &mut [u64],
    memory: &mut [u64],
    a: u64,
    answer: &mut u64,
) -> u32
    requires { OpenStore words.old index.old memory.old }
    ensures coded { Coded (run (lub a) words.old) result words.new answer.old answer.new }
    ensures open_store { OpenStore words.new index.new memory.new }
{
    coded_calls::opened_append(
        words,
        index,
        memory,
        Making::Walk(Walk::Lub, a),
        &[],
        b"",
        answer,
    )
}

#[unsafe(no_mangle)]
pub extern "C" fn ferigulan_opened_is_final(
    words: &[u64],
    index: &[u64],
    memory: &mut [u64],
    a: u64,
    answer: &mut u64,
) -> u32
    requires { OpenStore words.now index.now memory.old }
    ensures coded { Coded (run (is_final a) words.now) result words.now answer.old answer.new }
    ensures open_store { OpenStore words.now index.now memory.new }
{
    coded_calls::opened_ask(words, index, memory, Asking::IsFinal(a), answer)
}

#[unsafe(no_mangle)]
pub extern "C" fn ferigulan_opened_make_ro(
    words: &mut [u64],
    index: &mut [u64],
    memory: &mut [u64],
    a: u64,
    answer: &mut u64,
) -> u32
    requires { OpenStore words.old index.old memory.old }
    ensures coded { Coded (run (make_ro a) words.old) result words.new answer.old answer.new }
    ensures open_store { OpenStore words.new index.new memory.new }
{
    coded_calls::opened_append(words, index, memory, Making::MakeRo(a), &[], b"", answer)
}

#[unsafe(no_mangle)]
pub extern "C" fn ferigulan_opened_make_init(
    words: &[u64],
    index: &[u64],
    memory: &mut [u64],
    a: u64,
    answer: &mut u64,
) -> u32
    requires { OpenStore words.now index.now memory.old }
    ensures coded { Coded (run (make_init a) words.now) result words.now answer.old answer.new }
    ensures open_store { OpenStore words.now index.now memory.new }
{
    coded_calls::opened_ask(
        words,
        index,
        memory,
        Asking::Type(OfType::MakeInit, a),
        answer,
    )
}

#[unsafe(no_mangle)]
pub extern "C" fn ferigulan_opened_make_zero(
    words: &[u64],
    index: &[u64],
    memory: &mut [u64],
    a: u64,
    answer: &mut u64,
) -> u32
    requires { OpenStore words.now index.now memory.old }
    ensures coded { Coded (run (make_zero a) words.now) result words.now answer.old answer.new }
    ensures open_store { OpenStore words.now index.now memory.new }
{
    coded_calls::opened_ask(
        words,
        index,
        memory,
        Asking::Type(OfType::MakeZero, a),
        answer,
    )
}

#[unsafe(no_mangle)]
pub extern "C" fn ferigulan_opened_non_zero(
    words: &mut [u64],
    index: &mut [u64],
    memory: &mut [u64],
    a: u64,
    answer: &mut u64,
) -> u32
    requires { OpenStore words.old index.old memory.old }
    ensures coded { Coded (run (non_zero a) words.old) result words.new answer.old answer.new }
    ensures open_store { OpenStore words.new index.new memory.new }
{
    coded_calls::opened_append(words, index, memory, Making::NonZero(a), &[], b"", answer)
}

#[unsafe(no_mangle)]
pub extern "C" fn ferigulan_opened_is_high(
    words: &[u64],
    index: &[u64],
    memory: &mut [u64],
    a: u64,
    answer: &mut u64,
) -> u32
    requires { OpenStore words.now index.now memory.old }
    ensures coded { Coded (run (is_high_is a) words.now) result words.now answer.old answer.new }
    ensures open_store { OpenStore words.now index.now memory.new }
{
    coded_calls::opened_ask(
        words,
        index,
        memory,
        Asking::Type(OfType::IsHigh, a),
        answer,
    )
}

#[unsafe(no_mangle)]
pub extern "C" fn ferigulan_opened_is_high_or_constant(
    words: &[u64],
    index: &[u64],
    memory: &mut [u64],
    a: u64,
    answer: &mut u64,
) -> u32
    requires { OpenStore words.now index.now memory.old }
    ensures coded { Coded (run (is_high_or_constant_is a) words.now) result words.now answer.old answer.new }
    ensures open_store { OpenStore words.now index.now memory.new }
{
    coded_calls::opened_ask(
        words,
        index,
        memory,
        Asking::Type(OfType::IsHighOrConstant, a),
        answer,
    )
}

#[unsafe(no_mangle)]
pub extern "C" fn ferigulan_opened_is_constant(
    words: &[u64],
    index: &[u64],
    memory: &mut [u64],
    a: u64,
    answer: &mut u64,
) -> u32
    requires { OpenStore words.now index.now memory.old }
    ensures coded { Coded (run (is_constant_is a) words.now) result words.now answer.old answer.new }
    ensures open_store { OpenStore words.now index.now memory.new }
{
    coded_calls::opened_ask(
        words,
        index,
        memory,
        Asking::Type(OfType::IsConstant, a),
        answer,
    )
}

#[unsafe(no_mangle)]
pub extern "C" fn ferigulan_opened_is_fref(
    words: &[u64],
    index: &[u64],
    memory: &mut [u64],
    a: u64,
    answer: &mut u64,
) -> u32
    requires { OpenStore words.now index.now memory.old }
    ensures coded { Coded (run (is_fref_is a) words.now) result words.now answer.old answer.new }
    ensures open_store { OpenStore words.now index.now memory.new }
{
    coded_calls::opened_ask(
        words,
        index,
        memory,
        Asking::Type(OfType::IsFref, a),
        answer,
    )
}

#[unsafe(no_mangle)]
pub extern "C" fn ferigulan_opened_log_size(
    words: &[u64],
    index: &[u64],
    memory: &mut [u64],
    a: u64,
    answer: &mut u64,
) -> u32
    requires { OpenStore words.now index.now memory.old }
    ensures coded { Coded (run (log_size_is a) words.now) result words.now answer.old answer.new }
    ensures open_store { OpenStore words.now index.now memory.new }
{
    coded_calls::opened_ask(
        words,
        index,
        memory,
        Asking::Type(OfType::LogSize, a),
        answer,
    )
}

#[unsafe(no_mangle)]
pub extern "C" fn ferigulan_opened_int_min(
    words: &[u64],
    index: &[u64],
    memory: &mut [u64],
    a: u64,
    answer: &mut u64,
) -> u32
    requires { OpenStore words.now index.now memory.old }
    ensures coded { Coded (run (int_min a) words.now) result words.now answer.old answer.new }
    ensures open_store { OpenStore words.now index.now memory.new }
{
    coded_calls::opened_ask(words, index, memory, Asking::Int(OfInt::Min, a), answer)
}

#[unsafe(no_mangle)]
pub extern "C" fn ferigulan_opened_int_max(
    words: &[u64],
    index: &[u64],
    memory: &mut [u64],
    a: u64,
    answer: &mut u64,
) -> u32
    requires { OpenStore words.now index.now memory.old }
    ensures coded { Coded (run (int_max a) words.now) result words.now answer.old answer.new }
    ensures open_store { OpenStore words.now index.now memory.new }
{
    coded_calls::opened_ask(words, index, memory, Asking::Int(OfInt::Max, a), answer)
}

#[unsafe(no_mangle)]
pub extern "C" fn ferigulan_opened_int_value(
    words: &[u64],
    index: &[u64],
    memory: &mut [u64],
    a: u64,
    which: &mut u64,
    answer: &mut u64,
) -> u32
    requires { OpenStore words.now index.now memory.old }
    ensures coded_which { CodedWhich (run (int_value_is a) words.now) result words.now which.old which.new answer.old answer.new }
    ensures open_store { OpenStore words.now index.now memory.new }
{
    coded_calls::opened_ask_which(
        words,
        index,
        memory,
        Asking::Int(OfInt::Value, a),
        which,
        answer,
    )
}

#[unsafe(no_mangle)]
pub extern "C" fn ferigulan_opened_int_mask(
    words: &[u64],
    index: &[u64],
    memory: &mut [u64],
    a: u64,
    answer: &mut u64,
) -> u32
    requires { OpenStore words.now index.now memory.old }
    ensures coded { Coded (run (int_mask a) words.now) result words.now answer.old answer.new }
    ensures open_store { OpenStore words.now index.now memory.new }
{
    coded_calls::opened_ask(words, index, memory, Asking::Int(OfInt::Mask, a), answer)
}

#[unsafe(no_mangle)]
pub extern "C" fn ferigulan_opened_float_sz(
    words: &[u64],
    index: &[u64],
    memory: &mut [u64],
    a: u64,
    answer: &mut u64,
) -> u32
    requires { OpenStore words.now index.now memory.old }
    ensures coded { Coded (run (float_sz a) words.now) result words.now answer.old answer.new }
    ensures open_store { OpenStore words.now index.now memory.new }
{
    coded_calls::opened_ask(words, index, memory, Asking::Float(OfFloat::Sz, a), answer)
}

#[unsafe(no_mangle)]
pub extern "C" fn ferigulan_opened_float_is_f32(
    words: &[u64],
    index: &[u64],
    memory: &mut [u64],
    a: u64,
    answer: &mut u64,
) -> u32
    requires { OpenStore words.now index.now memory.old }
    ensures coded { Coded (run (float_is_f32 a) words.now) result words.now answer.old answer.new }
    ensures open_store { OpenStore words.now index.now memory.new }
{
    coded_calls::opened_ask(
        words,
        index,
        memory,
        Asking::Float(OfFloat::IsF32, a),
        answer,
    )
}

#[unsafe(no_mangle)]
pub extern "C" fn ferigulan_opened_float_value(
    words: &[u64],
    index: &[u64],
    memory: &mut [u64],
    a: u64,
    which: &mut u64,
    answer: &mut u64,
) -> u32
    requires { OpenStore words.now index.now memory.old }
    ensures coded_which { CodedWhich (run (float_value a) words.now) result words.now which.old which.new answer.old answer.new }
    ensures open_store { OpenStore words.now index.now memory.new }
{
    coded_calls::opened_ask_which(
        words,
        index,
        memory,
        Asking::Float(OfFloat::Value, a),
        which,
        answer,
    )
}

#[unsafe(no_mangle)]
pub extern "C" fn ferigulan_opened_float_reading(
    words: &[u64],
    index: &[u64],
    memory: &mut [u64],
    a: u64,
    which: &mut u64,
    answer: &mut u64,
) -> u32
    requires { OpenStore words.now index.now memory.old }
    ensures coded_which { CodedWhich (run (float_reading_is a) words.now) result words.now which.old which.new answer.old answer.new }
    ensures open_store { OpenStore words.now index.now memory.new }
{
    coded_calls::opened_ask_which(
        words,
        index,
        memory,
        Asking::Float(OfFloat::Reading, a),
        which,
        answer,
    )
}

#[unsafe(no_mangle)]
pub extern "C" fn ferigulan_opened_struct_name(
    words: &[u64],
    index: &[u64],
    memory: &mut [u64],
    s: u64,
    answer: &mut u64,
) -> u32
    requires { OpenStore words.now index.now memory.old }
    ensures coded { Coded (run (struct_name s) words.now) result words.now answer.old answer.new }
    ensures open_store { OpenStore words.now index.now memory.new }
{
    coded_calls::opened_ask(
        words,
        index,
        memory,
        Asking::Struct(OfStruct::Name, s),
        answer,
    )
}

#[unsafe(no_mangle)]
pub extern "C" fn ferigulan_opened_struct_fields(
    words: &[u64],
    index: &[u64],
    memory: &mut [u64],
    s: u64,
    output: &mut [u64],
    answer: &mut u64,
) -> u32
    requires { OpenStore words.now index.now memory.old }
    ensures coded { Coded (run (struct_fields s (length output.old)) words.now) result words.now answer.old answer.new }
    ensures output_after { output.new ≡ struct_fields_output s words.now output.old }
    ensures open_store { OpenStore words.now index.now memory.new }
{
    coded_calls::opened_fill(words, index, memory, Filling::Fields, s, output, answer)
}

#[unsafe(no_mangle)]
pub extern "C" fn ferigulan_opened_find(
    words: &[u64],
    index: &[u64],
    memory: &mut [u64],
    s: u64,
    name: u64,
    which: &mut u64,
    answer: &mut u64,
) -> u32
    requires { OpenStore words.now index.now memory.old }
    ensures coded_which { CodedWhich (run (find s name) words.now) result words.now which.old which.new answer.old answer.new }
    ensures open_store { OpenStore words.now index.now memory.new }
{
    coded_calls::opened_ask_which(
        words,
        index,
        memory,
        Asking::Struct(OfStruct::Find(name), s),
        which,
        answer,
    )
}

#[unsafe(no_mangle)]
pub extern "C" fn ferigulan_opened_find_alias(
    words: &[u64],
    index: &[u64],
    memory: &mut [u64],
    s: u64,
    alias: u64,
    which: &mut u64,
    answer: &mut u64,
) -> u32
    requires { OpenStore words.now index.now memory.old }
    ensures coded_which { CodedWhich (run (find_alias s alias) words.now) result words.now which.old which.new answer.old answer.new }
    ensures open_store { OpenStore words.now index.now memory.new }
{
    coded_calls::opened_ask_which(
        words,
        index,
        memory,
        Asking::Struct(OfStruct::FindAlias(alias), s),
        which,
        answer,
    )
}

#[unsafe(no_mangle)]
pub extern "C" fn ferigulan_opened_is_ary(
    words: &[u64],
    index: &[u64],
    memory: &mut [u64],
    s: u64,
    answer: &mut u64,
) -> u32
    requires { OpenStore words.now index.now memory.old }
    ensures coded { Coded (run (is_ary_is s) words.now) result words.now answer.old answer.new }
    ensures open_store { OpenStore words.now index.now memory.new }
{
    coded_calls::opened_ask(
        words,
        index,
        memory,
        Asking::Struct(OfStruct::IsAry, s),
        answer,
    )
}

#[unsafe(no_mangle)]
pub extern "C" fn ferigulan_opened_offset(
    words: &[u64],
    index: &[u64],
    memory: &mut [u64],
    s: u64,
    i: u64,
    answer: &mut u64,
) -> u32
    requires { OpenStore words.now index.now memory.old }
    ensures coded { Coded (run (offset s i) words.now) result words.now answer.old answer.new }
    ensures open_store { OpenStore words.now index.now memory.new }
{
    coded_calls::opened_ask(
        words,
        index,
        memory,
        Asking::Struct(OfStruct::Offset(i), s),
        answer,
    )
}

#[unsafe(no_mangle)]
pub extern "C" fn ferigulan_opened_offsets(
    words: &[u64],
    index: &[u64],
    memory: &mut [u64],
    s: u64,
    output: &mut [u64],
    answer: &mut u64,
) -> u32
    requires { OpenStore words.now index.now memory.old }
    ensures coded { Coded (run (offsets s (length output.old)) words.now) result words.now answer.old answer.new }
    ensures output_after { output.new ≡ offsets_output s words.now output.old }
    ensures open_store { OpenStore words.now index.now memory.new }
{
    coded_calls::opened_fill(words, index, memory, Filling::Offsets, s, output, answer)
}

#[unsafe(no_mangle)]
pub extern "C" fn ferigulan_opened_ary_base(
    words: &[u64],
    index: &[u64],
    memory: &mut [u64],
    s: u64,
    answer: &mut u64,
) -> u32
    requires { OpenStore words.now index.now memory.old }
    ensures coded { Coded (run (ary_base_is s) words.now) result words.now answer.old answer.new }
    ensures open_store { OpenStore words.now index.now memory.new }
{
    coded_calls::opened_ask(
        words,
        index,
        memory,
        Asking::Struct(OfStruct::AryBase, s),
        answer,
    )
}

#[unsafe(no_mangle)]
pub extern "C" fn ferigulan_opened_ary_scale(
    words: &[u64],
    index: &[u64],
    memory: &mut [u64],
    s: u64,
    answer: &mut u64,
) -> u32
    requires { OpenStore words.now index.now memory.old }
    ensures coded { Coded (run (ary_scale_is s) words.now) result words.now answer.old answer.new }
    ensures open_store { OpenStore words.now index.now memory.new }
{
    coded_calls::opened_ask(
        words,
        index,
        memory,
        Asking::Struct(OfStruct::AryScale, s),
        answer,
    )
}
