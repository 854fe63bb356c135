// Exact arithmetic: what an operation of an expression gives for two operands. A result that is out of range is none.
#![tactic(auto)]

ghost use Rattle.std.specs.Prelude.{◌≡◌, ◌≤◌};
ghost use Rattle.definitions.specs.Rule as rules;
ghost use Rattle.definitions.specs.Attributes as results;
ghost use Rattle.numbers.specs.Value.{value_of, operation_of};

use definitions::{FORM_ADD, FORM_DIVIDE, FORM_MULTIPLY, FORM_SUBTRACT};
use quotients::{divide, remainder};

// The result of the operation with that form.
pub fn operate(form: usize, x: i32, y: i32) -> Option<i32>
    requires { rules.form_add ≤ form }
    ensures { value_of result ≡ results.operate (operation_of form) x y }
{
    match form {
        FORM_ADD => x.checked_add(y),
        FORM_SUBTRACT => x.checked_sub(y),
        FORM_MULTIPLY => x.checked_mul(y),
        FORM_DIVIDE => divide(x, y),
        _ => remainder(x, y),
    }
}

// The result of the operation for two results: an operand that has none gives none.
pub fn combine(form: usize, x: Option<i32>, y: Option<i32>) -> Option<i32>
    requires { rules.form_add ≤ form }
    ensures { value_of result ≡ results.combine (operation_of form) (value_of x) (value_of y) }
{
    operate(form, x?, y?)
}
