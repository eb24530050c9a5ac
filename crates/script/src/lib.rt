// Scripts for the programs that run cases: the lines and words of a script, and texts put together from them. What is found in a text is
// determined; what the texts hold that are put together is compared in the stored outputs of the programs.
#![tactic(auto)]

pub mod drafts;

ghost use Rattle.std.specs.Prelude.{◌≡◌, ◌+◌, drop};
ghost use Rattle.script.specs.Scripts.{bytes_before, with_digit, number_from};

// What follows the first word of a line.
pub fn argument(line: &[u8]) -> &[u8]
    ensures { result.now ≡ drop (bytes_before 32 line.now + 1) line.now }
{
    match line.iter().position(|byte| *byte == b' ') {
        Some(place) => &line[place + 1..],
        None => b"",
    }
}

// The decimal number at the start of a text; of one above 65,535, the lowest 16 bits.
pub fn number(text: &[u8]) -> usize
    ensures { result ≡ number_from 0 text.now }
{
    let mut n = 0;
    for byte in text {
        if !byte.is_ascii_digit() {
            return n;
        }
        n = with_digit(n, *byte);
    }
    n
}

fn with_digit(n: usize, byte: u8) -> usize
    ensures { result ≡ with_digit n byte }
{
    (n % 65536 * 10 + usize::from(byte % 16)) % 65536
}
