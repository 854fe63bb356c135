// Arrays of a fixed length whose first places are computed, and whose other places are unused.
#![tactic(auto)]

ghost use Rattle.std.specs.Prelude.{◌≡◌, ℕ, List, ◌<◌, ◌≤◌, length, get_or};
ghost use Rattle.definitions.specs.Lists.{padded};

// What `place` says of the first `count` places, and `rest` in the others.
pub fn padded<T: Copy, const N: usize, F: Fn(usize) -> T>(count: usize, rest: T, place: F) -> [T; N]
    requires count_fits { count ≤ N }
    requires callable { (i : ℕ) → i < count → F.pre place i }
    ensures { (xs : List T) → length xs ≡ count
        → ((i : ℕ) → i < count → (x : T) → F.post place i x → x ≡ get_or xs i rest)
        → result ≡ padded N rest xs }
{
    let mut places = [rest; N];
    for i in 0..count {
        places[i] = place(i);
    }
    places
}
