// What an expression gives: a number from -2^31 to 2^31 - 1, the range of an i32, or none.
#![tactic(auto)]

ghost use Rattle.std.specs.Prelude.{◌≡◌};
ghost use Rattle.definitions.specs.Attributes.{fit};
ghost use Rattle.numbers.specs.Value.{value_of};

// The number as a result, if it is in range. A number of 64 bits and a sign is taken whole.
pub fn fit_number(number: i128) -> Option<i32>
    ensures { value_of result ≡ fit number }
{
    i32::try_from(number).ok()
}
