// Trailing spaces, which don't count where keys are compared: document 02 (iv).
#![tactic(auto)]

ghost use Rattle.std.specs.Prelude.{◌≡◌, length};
ghost use Rattle.semantics.specs.Text.{all_spaces, trimmed};

// Whether a text is spaces alone.
pub fn all_spaces(text: &[u8]) -> bool
    ensures { result ≡ all_spaces text.now }
{
    text.iter().all(|byte| *byte == b' ')
}

// How many bytes of a text are left without its trailing spaces.
pub fn trimmed_length(text: &[u8]) -> usize
    ensures { result ≡ length (trimmed text.now) }
{
    match text.iter().rposition(|byte| *byte != b' ') {
        Some(last) => last + 1,
        None => 0,
    }
}
