// What a lens reads off a text: get, keys, and create where no old entry answers.
#![tactic(auto)]

ghost use Rattle.std.specs.Prelude.{◌≡◌};
ghost use Rattle.lens.specs.Reading.{keyed, given_word};
ghost use Rattle.lens.specs.Emitting.{side_for};

use automaton::Side;

pub mod read;

// What is read off a text: the sheet of a source; the key of a sheet; the source that create makes of a sheet where no old entry answers; or the key of a source, by the
// source's own cuts.
#[derive(Clone, Copy)]
pub enum Mode {
    Get,
    Key,
    Create,
    SourceKey,
}

impl Mode {
    // The side of the text that is read. Key and create stand apart, so that the must-fail edit `key_by_source` turns one of them alone.
    fn side(self) -> Side
        ensures { result ≡ side_for self }
    {
        match self {
            Mode::Get | Mode::SourceKey => Side::Source,
            Mode::Key => Side::Sheet,
            Mode::Create => Side::Sheet,
        }
    }

    // Whether a key is read, of which trailing spaces don't count.
    fn is_keyed(self) -> bool
        ensures { result ≡ keyed self }
    {
        matches!(self, Mode::Key | Mode::SourceKey)
    }

    // The word that a const gives: that of the sheet, or the default of a source that is made.
    fn given_word(self, sheet: usize, default: usize) -> usize
        ensures { result ≡ given_word self sheet default }
    {
        match self {
            Mode::Create => default,
            Mode::Get | Mode::Key | Mode::SourceKey => sheet,
        }
    }
}
