// The second round: the typing rules, asked of every node in turn.
ghost use Rattle.std.specs.Prelude.{◌≡◌, ℕ, ◌<◌};
ghost use Rattle.semantics.specs.Text.{Text};
ghost use Rattle.semantics.specs.Pattern.{Pattern, word, star};
ghost use Rattle.semantics.specs.Lens.{Lens, const, join, union, repeat};
ghost use Rattle.semantics.specs.Ambiguity.{two_cuts, bad_repeat};
ghost use Rattle.semantics.specs.Table.{node_count, tree_at, trees, typing_lines};
ghost use Rattle.semantics.specs.Table as S;
ghost use Rattle.automaton.specs.Built.{Built};
ghost use Rattle.typing.specs.Round.{typing_answer, typing_fault, fault_of, Stands, Speaks, SpeaksFor};

use crate::questions::{self, Rooms};
use arrays::filled;
use automaton::{Side, automaton_of};
use table::parts::node_count;
use table::{Kind, Refusal, Table};

// Whether some text has two cuts into a text of one node and a text of another, on that side.
fn cut_twice(prepared: &[u64], left: usize, right: usize, side: Side, rooms: &mut Rooms) -> bool
    requires stands { Stands prepared.now left }
    requires stands_2 { Stands prepared.now right }
    ensures { (r s : Pattern) → Speaks prepared.now left side r → Speaks prepared.now right side s → result ≡ two_cuts r s }
{
    let a = automaton_of(prepared, left, side);
    let b = automaton_of(prepared, right, side);
    questions::two_cuts(prepared, a, b, rooms)
}

// Whether a repeat fails on that side: its child has the empty text, or some text has two cuts into parts.
fn fails(prepared: &[u64], child: usize, node: usize, side: Side, rooms: &mut Rooms) -> bool
    requires stands { Stands prepared.now child }
    requires stands_2 { Stands prepared.now node }
    ensures { (r : Pattern) → Speaks prepared.now child side r → Speaks prepared.now node side (star r) → result ≡ bad_repeat r }
{
    let part = automaton_of(prepared, child, side);
    if part.nullable {
        return true;
    }
    cut_twice(prepared, child, node, side, rooms)
}

// The first typing line of a const, node k, that holds: its default word is not in its pattern.
fn const_fault(
    bytes: &[u8],
    prepared: &[u64],
    k: usize,
    pattern: usize,
    default: usize,
) -> Result<(), Refusal>
    requires built { Built bytes.now prepared.now }
    requires pattern_bound { (pattern < node_count bytes.now) × (default < node_count bytes.now) }
    ensures { (r : Pattern) (w d : Text) → tree_at (trees bytes.now) pattern ≡ S.pattern r → tree_at (trees bytes.now) default ≡ S.pattern (word d) → result ≡ fault_of (typing_lines k (const r w d)) }
{
    let Kind::Word { start, len } = Table::node(bytes, prepared, default).kind else {
        return Ok(());
    };
    let from = 3 + 4 * node_count(bytes) + start;
    let a = automaton_of(prepared, pattern, Side::Source);
    if !language::belongs(prepared, a, &bytes[from..from + len]) {
        return Err(Refusal { number: 6, node: k });
    }
    Ok(())
}

// The same of a join: some text has two cuts, on the source side or on the sheet side.
fn join_fault(
    prepared: &[u64],
    k: usize,
    left: usize,
    right: usize,
    rooms: &mut Rooms,
) -> Result<(), Refusal>
    requires stands { Stands prepared.now left }
    requires stands_2 { Stands prepared.now right }
    ensures { (l m : Lens) → SpeaksFor prepared.now left l → SpeaksFor prepared.now right m → result ≡ fault_of (typing_lines k (join l m)) }
{
    if cut_twice(prepared, left, right, Side::Source, rooms) {
        return Err(Refusal { number: 7, node: k });
    }
    if cut_twice(prepared, left, right, Side::Sheet, rooms) {
        return Err(Refusal { number: 8, node: k });
    }
    Ok(())
}

// The same of a union: some source belongs to both arms.
fn union_fault(
    prepared: &[u64],
    k: usize,
    left: usize,
    right: usize,
    rooms: &mut Rooms,
) -> Result<(), Refusal>
    requires stands { Stands prepared.now left }
    requires stands_2 { Stands prepared.now right }
    ensures { (l m : Lens) → SpeaksFor prepared.now left l → SpeaksFor prepared.now right m → result ≡ fault_of (typing_lines k (union l m)) }
{
    let a = automaton_of(prepared, left, Side::Source);
    let b = automaton_of(prepared, right, Side::Source);
    if questions::overlap(prepared, a, b, rooms) {
        return Err(Refusal { number: 9, node: k });
    }
    Ok(())
}

// The same of a repeat, whose own automaton reads the list of parts.
fn repeat_fault(prepared: &[u64], k: usize, child: usize, rooms: &mut Rooms) -> Result<(), Refusal>
    requires stands { Stands prepared.now child }
    requires stands_2 { Stands prepared.now k }
    ensures { (l : Lens) → SpeaksFor prepared.now child l → SpeaksFor prepared.now k (repeat l) → result ≡ fault_of (typing_lines k (repeat l)) }
{
    if fails(prepared, child, k, Side::Source, rooms) {
        return Err(Refusal {
            number: 10,
            node: k,
        });
    }
    if fails(prepared, child, k, Side::Sheet, rooms) {
        return Err(Refusal {
            number: 11,
            node: k,
        });
    }
    Ok(())
}

// The first of node k's typing lines that holds.
fn node_fault(bytes: &[u8], prepared: &[u64], k: usize, rooms: &mut Rooms) -> Result<(), Refusal>
    requires built { Built bytes.now prepared.now }
    requires k_bound { k < node_count bytes.now }
    ensures { result ≡ typing_fault bytes.now k }
{
    match Table::node(bytes, prepared, k).kind {
        Kind::Const {
            pattern,
            default,
            ..
        } => const_fault(bytes, prepared, k, pattern, default),
        Kind::LensJoin { left, right } => join_fault(prepared, k, left, right, rooms),
        Kind::LensUnion { left, right } => union_fault(prepared, k, left, right, rooms),
        Kind::LensRepeat { child } => repeat_fault(prepared, k, child, rooms),
        Kind::Word { .. }
        | Kind::OneOf { .. }
        | Kind::PatternJoin { .. }
        | Kind::PatternUnion { .. }
        | Kind::Copy { .. }
        | Kind::Key { .. }
        | Kind::Match { .. } => Ok(()),
        // Inside a pattern nothing is cut, so that a repeat of one may be as ambiguous as it likes.
        Kind::PatternRepeat { .. } => Ok(()),
    }
}

// The second round: every node in turn, lowest first. The room for pairs is cleared once for all of them.
pub fn second_round(bytes: &[u8], prepared: &[u64]) -> Result<(), Refusal>
    requires { Built bytes.now prepared.now }
    ensures { result ≡ typing_answer bytes.now }
{
    let mut rooms = Rooms {
        shares: filled(0),
        led: filled(0),
        cells: filled(0),
    };
    for k in 0..node_count(bytes) {
        node_fault(bytes, prepared, k, &mut rooms)?;
    }
    Ok(())
}
