// The word of an expression's result, and whether a result may be an attribute of a vertex.
#![tactic(auto)]

ghost use Rattle.std.specs.Prelude.{◌≡◌};
ghost use Rattle.numbers.specs.Value.{value_of};
ghost use Rattle.new_words.specs.Words.{word_of_value, index_like};

use definitions::KIND_PROJ;

// The 32-bit word for a result, and zero where there is none.
pub fn word_of(value: Option<i32>) -> u32
    ensures { result ≡ word_of_value value }
{
    match value {
        None => 0,
        Some(number) => number.cast_unsigned(),
    }
}

// Whether a result, of any size, may be an attribute of a vertex of this kind: there is one, and for a Proj it is at least 1.
pub fn is_fit(kind: usize, value: Option<i128>) -> bool
    ensures { result ≡ index_like kind (value_of value) }
{
    match value {
        None => false,
        Some(number) => kind != KIND_PROJ || 0 < number,
    }
}
