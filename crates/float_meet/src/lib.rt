// The meet of two floats, as far as it depends on their sizes and constants alone.
// A size stands as its number, -64, -32, 32 or 64, which is the document's name for it: a name in its place would only repeat it.
#![tactic(auto)]

ghost use Rattle.std.specs.Prelude.{◌≡◌};
ghost use Rattle.type_float.specs.Float.{reading_of};
ghost use Rattle.type_float.specs.declared.Reading.TheVariants.{Constant, Sized};
ghost use Rattle.type_float.specs.Single.{holds_single};
ghost use Rattle.float_meet.specs.FloatRule.{float_rule};

use type_float::{Float, Reading};

// The answer of a meet: an operand, or size 32 or 64.
#[derive(Clone, Copy)]
pub enum FloatMeet {
    First,
    Second,
    Single,
    Double,
}

// Whether binary32 holds the value: no NaN is held.
#[tactic(auto, using(crate::proofs::Exactly::by_bits))]
pub fn is_single(x: f64) -> bool
    ensures { result ≡ holds_single x }
{
    if x.is_nan() {
        return false;
    }
    type_float::is_f32(x.to_bits())
}

// Two sizes.
#[tactic(auto, using(std::proofs::lemmas::Bool::Decides::nat_tests, crate::proofs::Cases::of_sizes), unfolding(crate::proofs::Cases::two_sizes))]
fn sizes(z: i8, t: i8) -> FloatMeet
    ensures { result ≡ float_rule (Sized z) (Sized t) }
{
    match (z, t) {
        (64, _) | (_, 64) => FloatMeet::Double,
        (_, -64) => FloatMeet::First,
        (-64, _) => FloatMeet::Second,
        (32, _) | (_, 32) => FloatMeet::Single,
        (-32, -32) => FloatMeet::First,
        _ => FloatMeet::Double,
    }
}

// A size and a constant.
#[tactic(auto, using(std::proofs::lemmas::Bool::Decides::nat_tests, crate::proofs::Cases::of_size_first), unfolding(crate::proofs::Cases::size_and_constant))]
fn size_first(z: i8, y: f64) -> FloatMeet
    ensures { result ≡ float_rule (Sized z) (Constant y) }
{
    match z {
        64 => FloatMeet::Double,
        -64 => FloatMeet::Second,
        _ if !is_single(y) => FloatMeet::Double,
        32 => FloatMeet::Single,
        -32 => FloatMeet::Second,
        _ => FloatMeet::Double,
    }
}

// A constant and a size.
#[tactic(auto, using(std::proofs::lemmas::Bool::Decides::nat_tests, crate::proofs::Cases::of_constant_first), unfolding(crate::proofs::Cases::size_and_constant))]
fn constant_first(x: f64, t: i8) -> FloatMeet
    ensures { result ≡ float_rule (Constant x) (Sized t) }
{
    match t {
        64 => FloatMeet::Double,
        -64 => FloatMeet::First,
        _ if !is_single(x) => FloatMeet::Double,
        32 => FloatMeet::Single,
        -32 => FloatMeet::First,
        _ => FloatMeet::Double,
    }
}

// Two constants.
#[tactic(auto, unfolding(crate::specs::FloatRule::float_rule))]
fn constants(x: f64, y: f64) -> FloatMeet
    ensures { result ≡ float_rule (Constant x) (Constant y) }
{
    if !is_single(x) {
        return FloatMeet::Double;
    }
    if !is_single(y) {
        return FloatMeet::Double;
    }
    FloatMeet::Single
}

pub fn meet(f: Float, g: Float) -> FloatMeet
    ensures { result ≡ float_rule (reading_of f) (reading_of g) }
{
    match (type_float::reading_of(f), type_float::reading_of(g)) {
        (Reading::Constant(x), Reading::Constant(y)) => constants(x, y),
        (Reading::Constant(x), Reading::Sized(t)) => constant_first(x, t),
        (Reading::Sized(z), Reading::Constant(y)) => size_first(z, y),
        (Reading::Sized(z), Reading::Sized(t)) => sizes(z, t),
    }
}
