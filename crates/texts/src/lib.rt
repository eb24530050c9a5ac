// Texts: written into a buffer, and compared.
#![tactic(auto)]

ghost use Rattle.std.specs.Prelude.{◌≡◌, true};
ghost use Rattle.semantics.specs.Text.{same_text};
ghost use Rattle.texts.specs.Overlay.{Lays, Writes};

use padding::all_spaces;

// The text is written from the buffer's first byte on, as much of it as fits. The answer is how many bytes were set, which are the text; or nothing, where it did not
// fit, and every byte of the buffer is set.
pub fn write_text(text: &[u8], out: &mut [u8]) -> Option<usize>
    ensures { Writes text.now out.old out.new result }
{
    // byte by byte: most texts are a few bytes or none, for which a call of the library's copy is dear
    for (i, byte) in text.iter().enumerate() {
        if out.len() <= i {
            return None;
        }
        out[i] = *byte;
    }
    Some(text.len())
}

// The same of a text whose trailing spaces don't count: those that have no room are left out. What is behind the room tells whether they are trailing ones.
pub fn write_key(text: &[u8], out: &mut [u8]) -> Option<usize>
    ensures { Lays true text.now out.old out.new result }
{
    match write_text(text, out) {
        Some(n) => Some(n),
        None => {
            let n = out.len();
            if all_spaces(&text[n..]) {
                return Some(n);
            }
            None
        }
    }
}

pub fn same_text(a: &[u8], b: &[u8]) -> bool
    ensures { result ≡ same_text a.now b.now }
{
    a == b
}
