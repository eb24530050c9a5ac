// Arrays that hold one value everywhere: the rooms of fixed length that the calls work in.
#![tactic(auto)]

ghost use Rattle.std.specs.Prelude.{◌≡◌, replicate};

// An array with the same value at every place. Its length is the type's, so that a room is asked for by its length alone.
pub fn filled<T: Copy, const N: usize>(value: T) -> [T; N]
    ensures { result ≡ replicate N value }
{
    [value; N]
}
