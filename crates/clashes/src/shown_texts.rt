// The text that shows how a rule is broken, with its two ends.
ghost use Rattle.std.specs.Prelude.{◌≡◌, true, ◌≤◌, length};
ghost use Rattle.semantics.specs.Pattern.{Pattern};
ghost use Rattle.semantics.specs.Table.{Node};
ghost use Rattle.clash.specs.Clash.{Rule, one_arm, cut_twice, first_end, second_end};
ghost use Rattle.automaton.specs.Rows.{Room, Describes};
ghost use Rattle.clashes.specs.Shows.{ShowsText, Shows, CutRule, CutAsked, ArmRule, ArmAsked};

use crate::rooms::find;
use arrays::filled;
use automaton::Automaton;
use ends::ends_of;
use quests::{arm_quest, cut_quest};

// The length of the text, and the two ends; for a union its two children.
#[derive(Clone, Copy)]
pub struct Shown {
    pub length: usize,
    pub first: usize,
    pub second: usize,
}

impl Shown {
    // The empty text, whose ends are 0.
    pub fn empty() -> Shown
        ensures { (result.length ≡ 0) × (result.first ≡ 0) × (result.second ≡ 0) }
    {
        Shown {
            length: 0,
            first: 0,
            second: 0,
        }
    }
}

// The places of a text, of which none has more than 16,512 bytes.
const PLACES: usize = 16513;

// The two smallest ends of a text with two cuts. There is a flag for each place.
fn with_ends(prepared: &[u64], part: Automaton, rest: Automaton, text: &[u8]) -> Shown
    requires { (Room part prepared.now) × (Room rest prepared.now) × (length text.now ≤ 16512) }
    ensures { (r s : Pattern) → Describes r part prepared.now → Describes s rest prepared.now → cut_twice r s text.now ≡ true → (result.length ≡ length text.now) × (result.first ≡ first_end r s text.now) × (result.second ≡ second_end r s text.now) }
{
    let mut flags = filled::<u8, PLACES>(0);
    let ends = ends_of(prepared, part, rest, text, &mut flags);
    Shown {
        length: text.len(),
        first: ends.first,
        second: ends.second,
    }
}

// A text with two cuts. Where it is longer than the buffer, its ends are not asked for.
pub fn show_cut(
    prepared: &[u64],
    part: Automaton,
    whole: Automaton,
    rest: Automaton,
    out: &mut [u8],
) -> Shown
    requires room { (Room part prepared.now) × (Room whole prepared.now) × (Room rest prepared.now) }
    requires cut_asked { CutAsked prepared.now part whole rest }
    ensures { (rule : Rule) (n : Node) → CutRule prepared.now part whole rest rule → Shows rule n out.old out.new result }
{
    let length = find(prepared, &cut_quest(part, whole, rest), out);
    if out.len() < length {
        return Shown {
            length,
            first: 0,
            second: 0,
        };
    }
    with_ends(prepared, part, rest, &out[0..length])
}

// The length of a text of both arms: 0, if the empty one belongs to both.
pub fn show_overlap(prepared: &[u64], left: Automaton, right: Automaton, out: &mut [u8]) -> usize
    requires room { (Room left prepared.now) × (Room right prepared.now) }
    requires arm_asked { ArmAsked prepared.now left right }
    ensures { (r s : Pattern) → ArmRule prepared.now left right r s → ShowsText (one_arm r s) out.old out.new result }
{
    if left.nullable && right.nullable {
        return 0;
    }
    find(prepared, &arm_quest(left, right), out)
}
