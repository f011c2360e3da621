// What depends on an Int's words alone: the numbers that they stand for, and the order of these.
#![tactic(auto)]

ghost use Rattle.std.specs.Prelude.{◌≡◌};
ghost use Rattle.std.specs.Int.{w64};
ghost use Rattle.std.proofs.Common.{of_z};
ghost use Rattle.type_integer.specs.Signed.{signed, less, smaller, larger};

// The word that stands for a number.
pub fn word_of(z: i64) -> u64
    ensures { result ≡ of_z w64 z }
{
    z.cast_unsigned()
}

// The number that a word stands for.
pub fn number_of(w: u64) -> i64
    ensures { result ≡ signed w }
{
    w.cast_signed()
}

// Whether a's number is below b's.
pub fn is_less(a: u64, b: u64) -> bool
    ensures { result ≡ less a b }
{
    number_of(a) < number_of(b)
}

// The word of the smaller number.
pub fn smaller_of(a: u64, b: u64) -> u64
    ensures { result ≡ smaller a b }
{
    if is_less(b, a) { b } else { a }
}

// The word of the larger number.
pub fn larger_of(a: u64, b: u64) -> u64
    ensures { result ≡ larger a b }
{
    if is_less(a, b) { b } else { a }
}
