// The operations of `Ty`, and what `Ty`, `TyInt`, `TyFloat` and `TyStruct` tell, on an opened store: see opened_types. "Above" is the way that isa goes: where a isa b, b is above a.
#![tactic(auto)]

ghost use Rattle.std.specs.Prelude.{◌≡◌, length};
ghost use Rattle.call.specs.Call.{left, made, told};
ghost use Rattle.every_call.specs.Others.{struct_fields_output, offsets_output};
ghost use Rattle.every_call.specs.Run.{run, meet, meet_list, isa, dual, glb, lub, join, is_final, make_ro, make_init, make_zero, non_zero, is_high_is, is_high_or_constant_is, is_constant_is, is_fref_is, log_size_is, int_min, int_max, int_value_is, int_mask, float_sz, float_is_f32, float_value, float_reading_is, struct_name, struct_fields, find, find_alias, is_ary_is, offset, offsets, ary_base_is, ary_scale_is};
ghost use Rattle.opened.specs.OpenStore.{OpenStore};

use asking::Asking;
use call::{Answer, Refusal};
use making::Making;
use of_types::OfType;
use of_values::{OfFloat, OfInt};
use struct_calls::{Filling, OfStruct};
use walk_rules::Walk;

// The merge of two types: of types that reach no memory type and no forward reference the lowest type above both.
pub fn meet(
    words: &mut [u64],
    index: &mut [u64],
    memory: &mut [u64],
    a: u64,
    b: u64,
) -> Result<u64, Refusal>
    requires { OpenStore words.old index.old memory.old }
    ensures words_after { left (made result) words.new ≡ run (meet a b) words.old }
    ensures open_store { OpenStore words.new index.new memory.new }
{
    opened::make(words, index, memory, Making::Meet(a, b))
}

// The merge of a lent list, of up to 4,096 types, from left to right, starting at Top. What is made on the way is appended too; a refusal leaves the store as before the first.
pub fn meet_list(
    words: &mut [u64],
    index: &mut [u64],
    memory: &mut [u64],
    types: &[u64],
) -> Result<u64, Refusal>
    requires { OpenStore words.old index.old memory.old }
    ensures words_after { left (made result) words.new ≡ run (meet_list types.now) words.old }
    ensures open_store { OpenStore words.new index.new memory.new }
{
    opened_lists::meet_list(words, index, memory, types)
}

// Whether a isa b: whether their meet would be b.
pub fn isa(
    words: &[u64],
    index: &[u64],
    memory: &mut [u64],
    a: u64,
    b: u64,
) -> Result<Answer, Refusal>
    requires { OpenStore words.now index.now memory.old }
    ensures words_value { left (told result) words.now ≡ run (isa a b) words.now }
    ensures open_store { OpenStore words.now index.now memory.new }
{
    opened::ask(words, index, memory, Asking::Isa(a, b))
}

// The type turned over: Bot for Top, the ends of an Int changed, and so on through the parts.
pub fn dual(
    words: &mut [u64],
    index: &mut [u64],
    memory: &mut [u64],
    a: u64,
) -> Result<u64, Refusal>
    requires { OpenStore words.old index.old memory.old }
    ensures words_after { left (made result) words.new ≡ run (dual a) words.old }
    ensures open_store { OpenStore words.new index.new memory.new }
{
    opened::make(words, index, memory, Making::Walk(Walk::Dual, a))
}

// The fixed type that the Rust calls its greatest lower bound, and that stands above it: Bot, the Int of all numbers, and so on through the parts.
pub fn glb(words: &mut [u64], index: &mut [u64], memory: &mut [u64], a: u64) -> Result<u64, Refusal>
    requires { OpenStore words.old index.old memory.old }
    ensures words_after { left (made result) words.new ≡ run (glb a) words.old }
    ensures open_store { OpenStore words.new index.new memory.new }
{
    opened::make(words, index, memory, Making::Walk(Walk::Glb, a))
}

// The fixed type that the Rust calls its least upper bound, and that stands below it: Top, the Int of no number, and so on through the parts.
pub fn lub(words: &mut [u64], index: &mut [u64], memory: &mut [u64], a: u64) -> Result<u64, Refusal>
    requires { OpenStore words.old index.old memory.old }
    ensures words_after { left (made result) words.new ≡ run (lub a) words.old }
    ensures open_store { OpenStore words.new index.new memory.new }
{
    opened::make(words, index, memory, Making::Walk(Walk::Lub, a))
}

// The dual of the meet of the duals: of types that reach no memory type and no forward reference the highest type below both.
pub fn join(
    words: &mut [u64],
    index: &mut [u64],
    memory: &mut [u64],
    a: u64,
    b: u64,
) -> Result<u64, Refusal>
    requires { OpenStore words.old index.old memory.old }
    ensures words_after { left (made result) words.new ≡ run (join a b) words.old }
    ensures open_store { OpenStore words.new index.new memory.new }
{
    opened::make(words, index, memory, Making::Join(a, b))
}

// Whether every field that pointers and fields lead to is final.
pub fn is_final(words: &[u64], index: &[u64], memory: &mut [u64], a: u64) -> Result<Answer, Refusal>
    requires { OpenStore words.now index.now memory.old }
    ensures words_value { left (told result) words.now ≡ run (is_final a) words.now }
    ensures open_store { OpenStore words.now index.now memory.new }
{
    opened::ask(words, index, memory, Asking::IsFinal(a))
}

// The read-only form: every field of a struct final, and so on through the types of the fields that were not; other types themselves.
pub fn make_ro(
    words: &mut [u64],
    index: &mut [u64],
    memory: &mut [u64],
    a: u64,
) -> Result<u64, Refusal>
    requires { OpenStore words.old index.old memory.old }
    ensures words_after { left (made result) words.new ≡ run (make_ro a) words.old }
    ensures open_store { OpenStore words.new index.new memory.new }
{
    opened::make(words, index, memory, Making::MakeRo(a))
}

// ---- of a type

// The initial value of a type: 0, 0.0 or null; of a pointer without nil Top; of other types the type itself.
pub fn make_init(
    words: &[u64],
    index: &[u64],
    memory: &mut [u64],
    a: u64,
) -> Result<Answer, Refusal>
    requires { OpenStore words.now index.now memory.old }
    ensures words_value { left (told result) words.now ≡ run (make_init a) words.now }
    ensures open_store { OpenStore words.now index.now memory.new }
{
    opened::ask(words, index, memory, Asking::Type(OfType::MakeInit, a))
}

// The zero of an Int, a Float or a pointer.
pub fn make_zero(
    words: &[u64],
    index: &[u64],
    memory: &mut [u64],
    a: u64,
) -> Result<Answer, Refusal>
    requires { OpenStore words.now index.now memory.old }
    ensures words_value { left (told result) words.now ≡ run (make_zero a) words.now }
    ensures open_store { OpenStore words.now index.now memory.new }
{
    opened::ask(words, index, memory, Asking::Type(OfType::MakeZero, a))
}

// The type without zero: an Int whose range begins or ends with 0 is cut there, and 0..0 becomes 1..1; a pointer becomes void; another type its glb.
pub fn non_zero(
    words: &mut [u64],
    index: &mut [u64],
    memory: &mut [u64],
    a: u64,
) -> Result<u64, Refusal>
    requires { OpenStore words.old index.old memory.old }
    ensures words_after { left (made result) words.new ≡ run (non_zero a) words.old }
    ensures open_store { OpenStore words.new index.new memory.new }
{
    opened::make(words, index, memory, Making::NonZero(a))
}

// Whether a type is high: on Top's side of the lattice's centre.
pub fn is_high(words: &[u64], index: &[u64], memory: &mut [u64], a: u64) -> Result<Answer, Refusal>
    requires { OpenStore words.now index.now memory.old }
    ensures words_value { left (told result) words.now ≡ run (is_high_is a) words.now }
    ensures open_store { OpenStore words.now index.now memory.new }
{
    opened::ask(words, index, memory, Asking::Type(OfType::IsHigh, a))
}

// Whether a type is high or a constant.
pub fn is_high_or_constant(
    words: &[u64],
    index: &[u64],
    memory: &mut [u64],
    a: u64,
) -> Result<Answer, Refusal>
    requires { OpenStore words.now index.now memory.old }
    ensures words_value { left (told result) words.now ≡ run (is_high_or_constant_is a) words.now }
    ensures open_store { OpenStore words.now index.now memory.new }
{
    opened::ask(
        words,
        index,
        memory,
        Asking::Type(OfType::IsHighOrConstant, a),
    )
}

// Whether a type is a constant: on the lattice's centre.
pub fn is_constant(
    words: &[u64],
    index: &[u64],
    memory: &mut [u64],
    a: u64,
) -> Result<Answer, Refusal>
    requires { OpenStore words.now index.now memory.old }
    ensures words_value { left (told result) words.now ≡ run (is_constant_is a) words.now }
    ensures open_store { OpenStore words.now index.now memory.new }
{
    opened::ask(words, index, memory, Asking::Type(OfType::IsConstant, a))
}

// Whether a type is a forward reference, or a pointer to one.
pub fn is_fref(words: &[u64], index: &[u64], memory: &mut [u64], a: u64) -> Result<Answer, Refusal>
    requires { OpenStore words.now index.now memory.old }
    ensures words_value { left (told result) words.now ≡ run (is_fref_is a) words.now }
    ensures open_store { OpenStore words.now index.now memory.new }
{
    opened::ask(words, index, memory, Asking::Type(OfType::IsFref, a))
}

// The number whose power of two is the bytes that a field of this type takes.
pub fn log_size(words: &[u64], index: &[u64], memory: &mut [u64], a: u64) -> Result<Answer, Refusal>
    requires { OpenStore words.now index.now memory.old }
    ensures words_value { left (told result) words.now ≡ run (log_size_is a) words.now }
    ensures open_store { OpenStore words.now index.now memory.new }
{
    opened::ask(words, index, memory, Asking::Type(OfType::LogSize, a))
}

// ---- of an Int and of a Float; signed numbers are two's complement words

// The smallest number of an Int.
pub fn int_min(words: &[u64], index: &[u64], memory: &mut [u64], a: u64) -> Result<Answer, Refusal>
    requires { OpenStore words.now index.now memory.old }
    ensures words_value { left (told result) words.now ≡ run (int_min a) words.now }
    ensures open_store { OpenStore words.now index.now memory.new }
{
    opened::ask(words, index, memory, Asking::Int(OfInt::Min, a))
}

// The largest number of an Int.
pub fn int_max(words: &[u64], index: &[u64], memory: &mut [u64], a: u64) -> Result<Answer, Refusal>
    requires { OpenStore words.now index.now memory.old }
    ensures words_value { left (told result) words.now ≡ run (int_max a) words.now }
    ensures open_store { OpenStore words.now index.now memory.new }
{
    opened::ask(words, index, memory, Asking::Int(OfInt::Max, a))
}

// The value of an Int that is a constant, or absent.
pub fn int_value(
    words: &[u64],
    index: &[u64],
    memory: &mut [u64],
    a: u64,
) -> Result<Answer, Refusal>
    requires { OpenStore words.now index.now memory.old }
    ensures words_value { left (told result) words.now ≡ run (int_value_is a) words.now }
    ensures open_store { OpenStore words.now index.now memory.new }
{
    opened::ask(words, index, memory, Asking::Int(OfInt::Value, a))
}

// The bits that some number of an Int has.
pub fn int_mask(words: &[u64], index: &[u64], memory: &mut [u64], a: u64) -> Result<Answer, Refusal>
    requires { OpenStore words.now index.now memory.old }
    ensures words_value { left (told result) words.now ≡ run (int_mask a) words.now }
    ensures open_store { OpenStore words.now index.now memory.new }
{
    opened::ask(words, index, memory, Asking::Int(OfInt::Mask, a))
}

// The size of a Float.
pub fn float_sz(words: &[u64], index: &[u64], memory: &mut [u64], a: u64) -> Result<Answer, Refusal>
    requires { OpenStore words.now index.now memory.old }
    ensures words_value { left (told result) words.now ≡ run (float_sz a) words.now }
    ensures open_store { OpenStore words.now index.now memory.new }
{
    opened::ask(words, index, memory, Asking::Float(OfFloat::Sz, a))
}

// Whether the constant of a Float is single precision; of a size alone yes.
pub fn float_is_f32(
    words: &[u64],
    index: &[u64],
    memory: &mut [u64],
    a: u64,
) -> Result<Answer, Refusal>
    requires { OpenStore words.now index.now memory.old }
    ensures words_value { left (told result) words.now ≡ run (float_is_f32 a) words.now }
    ensures open_store { OpenStore words.now index.now memory.new }
{
    opened::ask(words, index, memory, Asking::Float(OfFloat::IsF32, a))
}

// The bits of a Float that is a constant, or absent.
pub fn float_value(
    words: &[u64],
    index: &[u64],
    memory: &mut [u64],
    a: u64,
) -> Result<Answer, Refusal>
    requires { OpenStore words.now index.now memory.old }
    ensures words_value { left (told result) words.now ≡ run (float_value a) words.now }
    ensures open_store { OpenStore words.now index.now memory.new }
{
    opened::ask(words, index, memory, Asking::Float(OfFloat::Value, a))
}

// A Float as a constant with its bits, or a size alone.
pub fn float_reading(
    words: &[u64],
    index: &[u64],
    memory: &mut [u64],
    a: u64,
) -> Result<Answer, Refusal>
    requires { OpenStore words.now index.now memory.old }
    ensures words_value { left (told result) words.now ≡ run (float_reading_is a) words.now }
    ensures open_store { OpenStore words.now index.now memory.new }
{
    opened::ask(words, index, memory, Asking::Float(OfFloat::Reading, a))
}

// ---- of a struct

// The name of a struct or of a forward reference.
pub fn struct_name(
    words: &[u64],
    index: &[u64],
    memory: &mut [u64],
    s: u64,
) -> Result<Answer, Refusal>
    requires { OpenStore words.now index.now memory.old }
    ensures words_value { left (told result) words.now ≡ run (struct_name s) words.now }
    ensures open_store { OpenStore words.now index.now memory.new }
{
    opened::ask(words, index, memory, Asking::Struct(OfStruct::Name, s))
}

// The field list, four words a field: name, type, alias, final. It answers how many words it filled.
pub fn struct_fields(
    words: &[u64],
    index: &[u64],
    memory: &mut [u64],
    s: u64,
    output: &mut [u64],
) -> Result<Answer, Refusal>
    requires { OpenStore words.now index.now memory.old }
    ensures words_value { left (told result) words.now ≡ run (struct_fields s (length output.old)) words.now }
    ensures output_after { output.new ≡ struct_fields_output s words.now output.old }
    ensures open_store { OpenStore words.now index.now memory.new }
{
    opened::fill(words, index, memory, Filling::Fields, s, output)
}

// The first field of this name, or absent.
pub fn find(
    words: &[u64],
    index: &[u64],
    memory: &mut [u64],
    s: u64,
    name: u64,
) -> Result<Answer, Refusal>
    requires { OpenStore words.now index.now memory.old }
    ensures words_value { left (told result) words.now ≡ run (find s name) words.now }
    ensures open_store { OpenStore words.now index.now memory.new }
{
    opened::ask(
        words,
        index,
        memory,
        Asking::Struct(OfStruct::Find(name), s),
    )
}

// The first field of this alias, or absent.
pub fn find_alias(
    words: &[u64],
    index: &[u64],
    memory: &mut [u64],
    s: u64,
    alias: u64,
) -> Result<Answer, Refusal>
    requires { OpenStore words.now index.now memory.old }
    ensures words_value { left (told result) words.now ≡ run (find_alias s alias) words.now }
    ensures open_store { OpenStore words.now index.now memory.new }
{
    opened::ask(
        words,
        index,
        memory,
        Asking::Struct(OfStruct::FindAlias(alias), s),
    )
}

// Whether a struct is an array: two fields, the second of them named "[]".
pub fn is_ary(words: &[u64], index: &[u64], memory: &mut [u64], s: u64) -> Result<Answer, Refusal>
    requires { OpenStore words.now index.now memory.old }
    ensures words_value { left (told result) words.now ≡ run (is_ary_is s) words.now }
    ensures open_store { OpenStore words.now index.now memory.new }
{
    opened::ask(words, index, memory, Asking::Struct(OfStruct::IsAry, s))
}

// The offset of a field, in bytes; at the field count the end.
pub fn offset(
    words: &[u64],
    index: &[u64],
    memory: &mut [u64],
    s: u64,
    i: u64,
) -> Result<Answer, Refusal>
    requires { OpenStore words.now index.now memory.old }
    ensures words_value { left (told result) words.now ≡ run (offset s i) words.now }
    ensures open_store { OpenStore words.now index.now memory.new }
{
    opened::ask(words, index, memory, Asking::Struct(OfStruct::Offset(i), s))
}

// The offsets of all fields, in bytes, and the end. It answers how many words it filled.
pub fn offsets(
    words: &[u64],
    index: &[u64],
    memory: &mut [u64],
    s: u64,
    output: &mut [u64],
) -> Result<Answer, Refusal>
    requires { OpenStore words.now index.now memory.old }
    ensures words_value { left (told result) words.now ≡ run (offsets s (length output.old)) words.now }
    ensures output_after { output.new ≡ offsets_output s words.now output.old }
    ensures open_store { OpenStore words.now index.now memory.new }
{
    opened::fill(words, index, memory, Filling::Offsets, s, output)
}

// Where an array's body begins, in bytes.
pub fn ary_base(words: &[u64], index: &[u64], memory: &mut [u64], s: u64) -> Result<Answer, Refusal>
    requires { OpenStore words.now index.now memory.old }
    ensures words_value { left (told result) words.now ≡ run (ary_base_is s) words.now }
    ensures open_store { OpenStore words.now index.now memory.new }
{
    opened::ask(words, index, memory, Asking::Struct(OfStruct::AryBase, s))
}

// The log size of an array's element.
pub fn ary_scale(
    words: &[u64],
    index: &[u64],
    memory: &mut [u64],
    s: u64,
) -> Result<Answer, Refusal>
    requires { OpenStore words.now index.now memory.old }
    ensures words_value { left (told result) words.now ≡ run (ary_scale_is s) words.now }
    ensures open_store { OpenStore words.now index.now memory.new }
{
    opened::ask(words, index, memory, Asking::Struct(OfStruct::AryScale, s))
}
