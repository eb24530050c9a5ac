// How a join, a union and a repeat break their rules, by the automata of the node and of its children.
ghost use Rattle.semantics.specs.Pattern.{Pattern};
ghost use Rattle.semantics.specs.Table.{Node};
ghost use Rattle.clash.specs.Clash.{Rule, one_arm, one_list};
ghost use Rattle.automaton.specs.Rows.{automaton_at};
ghost use Rattle.typing.specs.Round.{Stands};
ghost use Rattle.clashes.specs.Shows.{ShowsText, Shows, CutRule, CutAsked, ArmRule, ArmAsked, ListRule, ListAsked};

use crate::shown_texts::{Shown, show_cut, show_overlap};
use automaton::{Side, automaton_of};

// A text of a join with two cuts.
pub fn show_join(
    prepared: &[u64],
    left: usize,
    right: usize,
    node: usize,
    side: Side,
    out: &mut [u8],
) -> Shown
    requires stands { (Stands prepared.now left) × (Stands prepared.now right) × (Stands prepared.now node) }
    requires cut_asked { CutAsked prepared.now (automaton_at prepared.now left side) (automaton_at prepared.now node side) (automaton_at prepared.now right side) }
    ensures { (rule : Rule) (n : Node) → CutRule prepared.now (automaton_at prepared.now left side) (automaton_at prepared.now node side) (automaton_at prepared.now right side) rule → Shows rule n out.old out.new result }
{
    let part = automaton_of(prepared, left, side);
    let whole = automaton_of(prepared, node, side);
    let rest = automaton_of(prepared, right, side);
    show_cut(prepared, part, whole, rest, out)
}

// A text of a repeat with two cuts into its first part and the others; the empty one, if that is a part.
pub fn show_repeat(prepared: &[u64], child: usize, node: usize, side: Side, out: &mut [u8]) -> Shown
    requires stands { (Stands prepared.now child) × (Stands prepared.now node) }
    requires list_asked { ListAsked prepared.now (automaton_at prepared.now child side) (automaton_at prepared.now node side) }
    ensures { (r : Pattern) (n : Node) → ListRule prepared.now (automaton_at prepared.now child side) (automaton_at prepared.now node side) r → Shows (one_list r) n out.old out.new result }
{
    let part = automaton_of(prepared, child, side);
    if part.nullable {
        return Shown::empty();
    }
    let whole = automaton_of(prepared, node, side);
    show_cut(prepared, part, whole, whole, out)
}

// A text of both arms of a union: its length.
pub fn show_union(prepared: &[u64], left: usize, right: usize, side: Side, out: &mut [u8]) -> usize
    requires stands { (Stands prepared.now left) × (Stands prepared.now right) }
    requires arm_asked { ArmAsked prepared.now (automaton_at prepared.now left side) (automaton_at prepared.now right side) }
    ensures { (r s : Pattern) → ArmRule prepared.now (automaton_at prepared.now left side) (automaton_at prepared.now right side) r s → ShowsText (one_arm r s) out.old out.new result }
{
    let a = automaton_of(prepared, left, side);
    let b = automaton_of(prepared, right, side);
    show_overlap(prepared, a, b, out)
}
