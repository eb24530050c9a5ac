// The first and the last line of a section.
ghost use Rattle.std.specs.Prelude.{◌≡◌, MatchOption};
ghost use Rattle.sections.specs.Afm.{section_of, bad};
ghost use Rattle.afm.specs.Section.{StartsAt, EndFault};

use fields::{after_word, number_at};

// The largest count.
const COUNT: usize = 65535;

// The count of a section, and the lines behind the first.
#[derive(Clone, Copy)]
pub struct Start<'a> {
    pub count: usize,
    pub lines: &'a [u8],
}

// What the first line tells, if it is of its form.
pub fn start_line(text: &[u8]) -> Option<Start<'_>>
    ensures { MatchOption result (section_of text.now ≡ bad 1) (λ start. StartsAt text.now start) }
{
    let behind_word = after_word(b"StartKernPairs", text)?;
    let found = number_at(COUNT, behind_word)?;
    let lines = behind_word[found.count..].strip_prefix(b"\n")?;
    Some(Start {
        count: found.number,
        lines,
    })
}

// Which line is not what ends a section, counted from the one behind the pairs: that one (1), or what is behind it (2), if any.
pub fn end_fault(text: &[u8]) -> Option<usize>
    ensures { EndFault text.now result }
{
    match text.strip_prefix(b"EndKernPairs\n") {
        Some(behind) => (!behind.is_empty()).then_some(2),
        None => Some(1),
    }
}
