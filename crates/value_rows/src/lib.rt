// The tests of rows 4 and 5 on values, which read no store.
#![tactic(auto)]

ghost use Rattle.std.specs.Prelude.{◌≡◌, not, length, nat_lt};
ghost use Rattle.wellformed.specs.Entry.{most_counted, is_flag, float_ok};
ghost use Rattle.call.specs.Refusals.{row_of};
ghost use Rattle.call.specs.Call.{◌when◌};
ghost use Rattle.makers.specs.Entries.{stored_size};

use call::Refusal;
use words::limits;

pub fn float_rows(sz: u64, bits: u64) -> Result<(), Refusal>
    ensures { row_of result ≡ (4 when not (float_ok (stored_size sz) bits)) }
{
    let size = sz.wrapping_add(wellformed::SIZE_ZERO);
    if !wellformed::float_ok(size, bits) {
        return Err(Refusal::WrongValue);
    }
    Ok(())
}

#[tactic(auto, using(crate::proofs::Rows::long_name, crate::proofs::Rows::short_name))]
pub fn str_rows(text: &[u8]) -> Result<(), Refusal>
    ensures { row_of result ≡ (5 when nat_lt most_counted (length text.now)) }
{
    if text.len() > limits::MOST_COUNTED {
        return Err(Refusal::TooMany);
    }
    Ok(())
}

#[tactic(auto, using(crate::proofs::Rows::no_flag, crate::proofs::Rows::a_flag))]
pub fn bool_rows(value: u64) -> Result<(), Refusal>
    ensures { row_of result ≡ (4 when not (is_flag value)) }
{
    if value > limits::LARGEST_FLAG {
        return Err(Refusal::WrongValue);
    }
    Ok(())
}
