// The lines that are calls: which call a line names, as a value, and the call made.
#![tactic(auto)]

mod store;

ghost use Rattle.std.specs.Prelude.{◌≡◌, ℕ, ◌≤◌, ◌⊎◌, [], ◌∷◌, replicate, Some, vec_len, vec_capacity, OnSome, IfSome};

use asking::Asking;
use making::Making;
use of_types::OfType;
use of_values::{OfFloat, OfInt};
pub use store::Store;
use struct_calls::{Filling, OfStruct};
use walk_rules::Walk;

// How many words of output a line may ask for.
pub const OUTPUT: usize = 4096;

// How many numbers a line has at most.
pub const NUMBERS: usize = 131072;

// How many numbers stand before the text of a line of this name: `None` where no text does. The letters of `str` are 115 116 114, those of `ary` 97 114 121.
pub fn numbers_before_text(name: &[u8]) -> Option<usize>
    ensures str { name.now ≡ 115 ∷ 116 ∷ 114 ∷ [] → result ≡ Some 0 }
    ensures ary { name.now ≡ 97 ∷ 114 ∷ 121 ∷ [] → result ≡ Some 4 }
    ensures few { IfSome result (λ k. k ≤ 4) }
{
    match name {
        b"str" => Some(0),
        b"ary" => Some(4),
        _ => None,
    }
}

// A line `meet_rep N H` says a list by its length and the one handle in it: its numbers become that list, where they have room. Other lines keep theirs.
pub fn repeated(name: &[u8], numbers: &mut Vec<u64>) -> Option<()>
    ensures repeated { OnSome result ((numbers.new.items ≡ numbers.old.items) ⊎ ((n handle : ℕ) × (numbers.old.items ≡ n ∷ handle ∷ []) × (numbers.new.items ≡ replicate n handle))) }
    ensures most { vec_len numbers.old ≤ NUMBERS → vec_len numbers.new ≤ NUMBERS }
    ensures room { vec_capacity numbers.old ≤ vec_capacity numbers.new }
{
    match (name, numbers.as_slice()) {
        (b"meet_rep", &[times, handle]) => {
            let n = usize::try_from(times).ok()?;
            if n > NUMBERS {
                return None;
            }
            numbers.clear();
            numbers.resize(n, handle).ok()
        }
        (b"meet_rep", _) => None,
        _ => Some(()),
    }
}

// ---- which call

// The call that a line names. What it takes as a list or a text is lent beside it.
#[derive(Clone, Copy)]
pub enum Line {
    Append(Making),
    // the merge of a list
    Merge,
    Ask(Asking),
    // of a struct, into an output of so many words
    Fill(Filling, u64, u64),
}

fn line_of(name: &[u8], a: &[u64]) -> Option<Line> {
    if let Some(making) = making_of(name, a) {
        return Some(Line::Append(making));
    }
    if let Some(asking) = asking_of(name, a) {
        return Some(Line::Ask(asking));
    }
    match (name, a) {
        // all the numbers that a line has, or those that `repeated` made of two
        (b"meet_list" | b"meet_rep", _) => Some(Line::Merge),
        (b"fields", &[s, n]) => Some(Line::Fill(Filling::Fields, s, n)),
        (b"offsets", &[s, n]) => Some(Line::Fill(Filling::Offsets, s, n)),
        _ => None,
    }
}

// The lattice operations that append, and the makers.
fn making_of(name: &[u8], a: &[u64]) -> Option<Making> {
    let making = match (name, a) {
        (b"meet", &[x, y]) => Making::Meet(x, y),
        (b"dual", &[x]) => Making::Walk(Walk::Dual, x),
        (b"join", &[x, y]) => Making::Join(x, y),
        (b"glb", &[x]) => Making::Walk(Walk::Glb, x),
        (b"lub", &[x]) => Making::Walk(Walk::Lub, x),
        (b"make_ro", &[x]) => Making::MakeRo(x),
        (b"int", &[x]) => Making::MakeInt(x, x),
        (b"int", &[x, y]) => Making::MakeInt(x, y),
        (b"float", &[x]) => Making::MakeFloat(0, x),
        (b"float", &[x, y]) => Making::MakeFloat(x, y),
        (b"tuple", _) => Making::GetTuple,
        (b"fref", &[x]) => Making::MakeStructFref(x),
        (b"ptr", &[x, y]) => Making::GetMemPtr(x, y),
        (b"mem", &[x, y]) => Making::GetMem(x, y),
        (b"struct", &[x, ..]) => Making::GetStruct(x),
        (b"str", []) => Making::GetStr,
        (b"ary", &[x, y, z, w]) => Making::MakeAry(x, y, z, w),
        (b"non_zero", &[x]) => Making::NonZero(x),
        _ => return None,
    };
    Some(making)
}

// What is told of a type, of an Int, of a Float and of a struct.
fn asking_of(name: &[u8], a: &[u64]) -> Option<Asking> {
    let asking = match (name, a) {
        (b"isa", &[x, y]) => Asking::Isa(x, y),
        (b"is_final", &[x]) => Asking::IsFinal(x),
        (b"kind", &[x]) => Asking::Kind(x),
        (b"get_bool", &[x]) => Asking::GetBool(x),
        (_, &[x]) => of_type(name, x)?,
        (b"find", &[x, y]) => Asking::Struct(OfStruct::Find(y), x),
        (b"find_alias", &[x, y]) => Asking::Struct(OfStruct::FindAlias(y), x),
        (b"offset", &[x, y]) => Asking::Struct(OfStruct::Offset(y), x),
        _ => return None,
    };
    Some(asking)
}

fn of_type(name: &[u8], x: u64) -> Option<Asking> {
    let asking = match name {
        b"make_init" => Asking::Type(OfType::MakeInit, x),
        b"make_zero" => Asking::Type(OfType::MakeZero, x),
        b"is_high" => Asking::Type(OfType::IsHigh, x),
        b"is_high_or_constant" => Asking::Type(OfType::IsHighOrConstant, x),
        b"is_constant" => Asking::Type(OfType::IsConstant, x),
        b"is_fref" => Asking::Type(OfType::IsFref, x),
        b"log_size" => Asking::Type(OfType::LogSize, x),
        b"min" => Asking::Int(OfInt::Min, x),
        b"max" => Asking::Int(OfInt::Max, x),
        b"value" => Asking::Int(OfInt::Value, x),
        b"mask" => Asking::Int(OfInt::Mask, x),
        b"sz" => Asking::Float(OfFloat::Sz, x),
        b"is_f32" => Asking::Float(OfFloat::IsF32, x),
        b"float_value" => Asking::Float(OfFloat::Value, x),
        b"reading" => Asking::Float(OfFloat::Reading, x),
        b"name" => Asking::Struct(OfStruct::Name, x),
        b"is_ary" => Asking::Struct(OfStruct::IsAry, x),
        b"ary_base" => Asking::Struct(OfStruct::AryBase, x),
        b"ary_scale" => Asking::Struct(OfStruct::AryScale, x),
        _ => return None,
    };
    Some(asking)
}

// The numbers of a line that are its call's list: a struct's without its name. A call without a list may be lent anything.
fn list_of<'a>(name: &[u8], a: &'a [u64]) -> &'a [u64] {
    match (name, a) {
        (b"struct", [_, list @ ..]) => list,
        _ => a,
    }
}

#[cfg(test)]
mod tests {
    use super::*;
    use replies::Reply;
    use std::test::Fail;

    // No contract can say that there is memory.
    #[test]
    fn room_is_made(rt: HostRuntime) -> Result<(), Fail> {
        let mut store = Store::new(rt.alloc(), 100, 400, 100)?;
        assert!(rt; store.words().is_empty());
        let mut numbers = Vec::new(rt.alloc());
        let said = store.close(|words| {
            words.resize(3, 0).ok()?;
            Some(Reply::Nothing)
        });
        assert!(rt; said.is_some());
        assert_eq!(rt; store.words().len(), 3);
        assert!(rt; numbers.extend_from_slice(&[3, 85]).is_ok());
        assert_eq!(rt; repeated(b"meet_rep", &mut numbers), Some(()));
        assert_eq!(rt; numbers.as_slice(), [85, 85, 85].as_slice());
        assert!(rt; store.call(b"fields", &[85, 4], b"", &mut numbers).is_some());
        assert_eq!(rt; numbers.as_slice(), [7777; 4].as_slice());
        Ok(())
    }
}
