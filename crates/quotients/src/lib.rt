// Quotients, rounded down, and remainders, which have the sign of the divisor.
#![tactic(auto)]

ghost use Rattle.std.specs.Prelude.{◌≡◌};
ghost use Rattle.definitions.specs.Rule as rules;
ghost use Rattle.definitions.specs.Attributes as results;
ghost use Rattle.numbers.specs.Value.{value_of};
ghost use Rattle.quotients.specs.Division.{DividesUnlessZero};

use numbers::fit_number;

// A quotient, rounded down, and what it leaves.
#[derive(Clone, Copy)]
pub struct Division {
    pub quotient: i64,
    pub rest: i64,
}

// The quotient and what it leaves, where the divisor is not zero. By a positive divisor what is left is not negative, as the library has
// it. By a negative one the quotient is that of the opposites, and what is left is the opposite of what theirs leaves.
fn divided(x: i32, y: i32) -> Option<Division>
    ensures { DividesUnlessZero x y result }
{
    let x = i64::from(x);
    let y = i64::from(y);
    if y == 0 {
        None
    } else if y < 0 {
        let quotient = (-x).div_euclid(-y);
        let rest = -(-x).rem_euclid(-y);
        Some(Division { quotient, rest })
    } else {
        let quotient = x.div_euclid(y);
        let rest = x.rem_euclid(y);
        Some(Division { quotient, rest })
    }
}

// The quotient.
pub fn divide(x: i32, y: i32) -> Option<i32>
    ensures { value_of result ≡ results.operate rules.divide x y }
{
    fit_number(i128::from(divided(x, y)?.quotient))
}

// The remainder.
pub fn remainder(x: i32, y: i32) -> Option<i32>
    ensures { value_of result ≡ results.operate rules.remainder x y }
{
    fit_number(i128::from(divided(x, y)?.rest))
}
