// The bits that the numbers of an Int's range have.
#![tactic(auto)]

ghost use Rattle.std.specs.Prelude.{◌≡◌};
ghost use Rattle.mask.specs.Mask.{mask_of};

// The bits that some number from min to max has. Above the highest bit in which the two differ all numbers between agree with them; that bit
// and each below it is set in some. "The Rust's step takes the highest differing bit less one, wrapping at 64 bits": so it is right for the sign
// bit too, which the Rust reads as its smallest number. The bit is one of the differing ones, so the Rust's `&` with these is left out.
pub fn mask(min: u64, max: u64) -> u64
    ensures { result ≡ mask_of min max }
{
    if type_integer::is_less(max, min) {
        return 0; // a high range has no number
    }
    if min == max {
        return min; // a constant is its own mask
    }
    let differing = min ^ max;
    let bit = 0x8000_0000_0000_0000 >> u64::leading_zeros(differing);
    let below = std::num::wrapping_sub_u64(bit, 1);
    min | below | bit
}
