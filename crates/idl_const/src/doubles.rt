//! Doubles of constants: the 64 bits of whole numbers.

ghost use Rattle.std.specs.Prelude.{◌≡◌, ◌-◌, ◌*◌, ◌≤◌, ◌<◌, ◌^◌, suc, pos, neg_ℤ, if◌then◌else◌};
ghost use Rattle.std.specs.Int.RustNames.{unsigned_abs};
ghost use Rattle.check_model.specs.Scalars.{doubled};
ghost use Rattle.check_model.specs.WholeDoubles.{double_number, signed_within, int_as_double, highest_bit, magnitude_bits, double_bits};
ghost use Rattle.idl_const.specs.Flaws.{IsOneWorth};

use crate::decimals::whole_size;
use crate::faults::ConstFault;
use idl_token::{byte_at, sign_in};
use thrift_value::Value;

/// The greatest number up to which each whole number is a double.
const MOST: u64 = 1 << 53;

/// A power of 2.
fn power(exponent: u32) -> u64
    requires { exponent < 64 }
    ensures { result ≡ 2 ^ exponent }
{
    1 << exponent
}

/// The place of the highest bit of a number, at most this one.
fn highest_bit(most: u32, number: u64) -> u32
    requires { most < 64 }
    ensures value { result ≡ highest_bit most number }
    ensures most { result ≤ most }
    ensures below { number < 2 ^ suc most → number < 2 ^ suc result }
    ensures reached { 0 < number → 2 ^ result ≤ number }
{
    if most == 0 {
        return 0;
    }
    if number >= power(most) {
        return most;
    }
    highest_bit(most - 1, number)
}

/// What stands behind the highest bit of a number, as the fraction of a double.
fn fraction(place: u32, rest: u64) -> u64
    requires place { place ≤ 53 }
    requires rest { rest < 2 ^ place }
    requires last { place ≡ 53 → rest ≡ 0 }
    ensures value { result ≡ rest * 2 ^ (52 - place) }
    ensures below { result < 2 ^ 52 }
{
    rest * power(52u32.saturating_sub(place))
}

/// The bits of a whole number without its sign.
fn magnitude_bits(number: u64) -> u64
    requires { number ≤ MOST }
    ensures value { result ≡ magnitude_bits number }
    ensures below { result < 2 ^ 63 }
{
    if number == 0 {
        return 0;
    }
    let place = highest_bit(53, number);
    let rest = number - power(place);
    (1023 + u64::from(place)) * power(52) + fraction(place, rest)
}

/// The bits of a whole number.
fn double_bits(number: i64) -> u64
    requires { unsigned_abs number ≤ MOST }
    ensures { result ≡ double_bits number }
{
    let size = magnitude_bits(number.unsigned_abs());
    if number < 0 { power(63) + size } else { size }
}

/// An integer as a double.
#[tactic(auto, using(thrift_value::proofs::Trees::tree_equations), unfolding(check_model::specs::WholeDoubles::int_as_double))]
pub(crate) fn double_of(number: i64) -> Result<Value, ConstFault>
    ensures { IsOneWorth (doubled (int_as_double number)) result }
{
    if number.unsigned_abs() > MOST {
        return Err(ConstFault::DoubleConstant);
    }
    Ok(Value::Double(double_bits(number)))
}

/// A number that is written with a fraction or an exponent, as a double.
pub(crate) fn double_written(text: &[u8]) -> Result<Value, ConstFault>
    ensures { IsOneWorth (doubled (double_number text.now)) result }
{
    let (_, unsigned) = text.split_at(sign_in(text));
    let size = whole_size(unsigned)?;
    whole_double(byte_at(text, 0) == b'-', size)
}

/// A number with its sign, where it is whole, as a double.
#[tactic(auto, using(thrift_value::proofs::Trees::tree_equations))]
fn whole_double(negative: bool, whole: Option<u64>) -> Result<Value, ConstFault>
    ensures { IsOneWorth (doubled (signed_within negative whole)) result }
{
    let Some(size) = whole else {
        return Err(ConstFault::DoubleConstant);
    };
    if size > MOST {
        return Err(ConstFault::DoubleConstant);
    }
    let size = size as i64;
    let number = if negative { -size } else { size };
    Ok(Value::Double(double_bits(number)))
}
