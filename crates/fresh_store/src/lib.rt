// A fresh store, on any words whatever.
#![tactic(auto)]

ghost use Rattle.std.specs.Prelude.{◌≡◌};
ghost use Rattle.call.specs.Call.{left, done};
ghost use Rattle.makers.specs.Makers.{fresh_call};

use call::Refusal;
use words::limits;

// Writes a fresh store and zeroes the rest.
pub fn fresh(words: &mut [u64]) -> Result<(), Refusal>
    ensures { left (done result) words.new ≡ fresh_call words.old }
{
    if words.len() < limits::FRESH_LENGTH {
        return Err(Refusal::NoStore);
    }
    if words.len() > limits::LONGEST {
        return Err(Refusal::NoStore);
    }
    words::clear(words);
    words::headed(words, limits::FRESH_LENGTH as u64, &wellformed::FRESH);
    Ok(())
}
