// What is counted of a put: the matches that it met, and the old entries that are left.
#![tactic(auto)]

ghost use Rattle.std.specs.Prelude.{◌≡◌, ◌≤◌, length, take};
ghost use Rattle.counts.specs.Counts.{unused_of, CountsFit, TalliesFrom};

use answers::Tally;

// What was written of a source, how many matches were met, and how many entries of the book are left.
#[derive(Clone, Copy)]
pub struct Made {
    pub wrote: Option<usize>,
    pub met: usize,
    pub dropped: usize,
}

// How many of so many entries were not taken, by their marks.
pub fn unused_in(used: &[bool], count: usize) -> usize
    requires { count ≤ length used.now }
    ensures { result ≡ unused_of (take count used.now) }
{
    used[..count].iter().filter(|taken| !**taken).count()
}

// The tally of a source that was written, from the number of old entries. One that did not fit has none.
pub fn tally_of(source: Made, entries: usize) -> Tally
    requires { CountsFit source entries }
    ensures { TalliesFrom source entries result }
{
    match source.wrote {
        None => Tally::default(),
        Some(_) => {
            let kept = entries - source.dropped;
            Tally {
                kept,
                made: source.met - kept,
                dropped: source.dropped,
            }
        }
    }
}
