//! What two numbers come to.

ghost use Rattle.std.specs.Prelude.{◌≡◌};
ghost use Rattle.calculator.specs.Kept.{result_seen};
ghost use Rattle.call_rules.specs.CalculatorRule.{calculation, product_or_quotient, quotient};

/// A quotient, truncated; the least number by -1 is itself.
#[tactic(auto, unfolding(call_rules::specs::CalculatorRule::quotient))]
fn quotient(a: i32, b: i32) -> Result<i32, &'static str>
    ensures { quotient a b ≡ result_seen result }
{
    if b == 0 {
        return Err("Cannot divide by 0");
    }
    Ok(a.wrapping_div(b))
}

/// What two numbers come to under the third and the fourth operation; there is no other.
#[tactic(auto, unfolding(call_rules::specs::CalculatorRule::product_or_quotient))]
fn product_or_quotient(op: i32, a: i32, b: i32) -> Result<i32, &'static str>
    ensures { product_or_quotient op a b ≡ result_seen result }
{
    if op == 3 {
        return Ok(a.wrapping_mul(b));
    }
    if op == 4 {
        return quotient(a, b);
    }
    Err("Unknown operation")
}

/// What two numbers come to under an operation, or why they come to nothing.
#[tactic(auto, unfolding(call_rules::specs::CalculatorRule::calculation))]
pub(crate) fn calculation(op: i32, a: i32, b: i32) -> Result<i32, &'static str>
    ensures { calculation op a b ≡ result_seen result }
{
    if op == 1 {
        return Ok(a.wrapping_add(b));
    }
    if op == 2 {
        return Ok(a.wrapping_sub(b));
    }
    product_or_quotient(op, a, b)
}
