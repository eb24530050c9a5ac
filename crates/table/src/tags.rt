// The kinds of node as a table names them: by a byte.
ghost use Rattle.std.specs.Prelude.{◌≡◌};
ghost use Rattle.semantics.specs.Table.{kind_of};
ghost use Rattle.table.specs.Rules.{Named, named, sort_of};

use crate::Sort;

// A kind without its operands.
#[derive(Clone, Copy, PartialEq, Eq)]
pub enum Tag {
    Word = 0,
    Range = 1,
    PatternJoin = 2,
    PatternUnion = 3,
    PatternRepeat = 4,
    Set = 5,
    Copy = 16,
    Const = 17,
    Key = 18,
    LensJoin = 19,
    LensUnion = 20,
    LensRepeat = 21,
    Match = 22,
}

impl Tag {
    // The kind of a kind byte, if there is such a kind.
    pub fn of(byte: u8) -> Option<Tag>
        ensures { Named (kind_of byte) result }
    {
        match byte {
            0 => Some(Tag::Word),
            1 => Some(Tag::Range),
            2 => Some(Tag::PatternJoin),
            3 => Some(Tag::PatternUnion),
            4 => Some(Tag::PatternRepeat),
            5 => Some(Tag::Set),
            16 => Some(Tag::Copy),
            17 => Some(Tag::Const),
            18 => Some(Tag::Key),
            19 => Some(Tag::LensJoin),
            20 => Some(Tag::LensUnion),
            21 => Some(Tag::LensRepeat),
            22 => Some(Tag::Match),
            _ => None,
        }
    }

    // The sort of the nodes of a kind.
    pub fn sort(self) -> Sort
        ensures { result ≡ sort_of (named self) }
    {
        match self {
            Tag::Word
            | Tag::Range
            | Tag::PatternJoin
            | Tag::PatternUnion
            | Tag::PatternRepeat
            | Tag::Set => Sort::Patterns,
            Tag::Copy
            | Tag::Const
            | Tag::Key
            | Tag::LensJoin
            | Tag::LensUnion
            | Tag::LensRepeat
            | Tag::Match => Sort::Lenses,
        }
    }
}
