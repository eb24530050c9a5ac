// What the call Clash does with a program that is refused: for 7 to 11 the text that shows why.
#![tactic(auto)]

ghost use Rattle.std.specs.Prelude.{◌≡◌, ◌<◌, length};
ghost use Rattle.semantics.specs.Table.{node_count, node_at, tree_at, trees};
ghost use Rattle.clash.specs.Clash.{rule_at, clash_call};
ghost use Rattle.clash.specs.Clash as S;
ghost use Rattle.automaton.specs.Rows.{side_of};
ghost use Rattle.automaton.specs.Built.{Built};
ghost use Rattle.answers.specs.Answers.{IsRefused};
ghost use Rattle.answers.specs.Outcomes.{GivesClash};
ghost use Rattle.clashes.specs.Shows.{Shows, BrokenAt};

use answers::{Clash, ClashAnswer};
use automaton::Side;
use nodes::{show_join, show_repeat, show_union};
use shown_texts::Shown;
use table::parts::operand;
use table::{Kind, Refusal, Table};

mod nodes;
mod rooms;
mod shown_texts;

// The side on which a rule is broken: 8 and 11 are about sheets.
fn side_of(number: usize) -> Side
    ensures { side_of result ≡ S.side_of number }
{
    match number {
        8 | 11 => Side::Sheet,
        _ => Side::Source,
    }
}

// The text that shows how a node breaks its rule on that side: its length, and its two ends, or the two children of a union.
fn show(bytes: &[u8], prepared: &[u64], node: usize, side: Side, out: &mut [u8]) -> Shown
    requires built { (Built bytes.now prepared.now) × (node < node_count bytes.now) }
    requires broken_at { BrokenAt bytes.now node (side_of side) }
    ensures { Shows (rule_at (side_of side) (tree_at (trees bytes.now) node)) (node_at bytes.now node) out.old out.new result }
{
    match Table::node(bytes, prepared, node).kind {
        Kind::LensJoin { left, right } => show_join(prepared, left, right, node, side, out),
        Kind::LensUnion { left, right } => Shown {
            length: show_union(prepared, left, right, side, out),
            first: operand(bytes, node, 0) as usize,
            second: operand(bytes, node, 1) as usize,
        },
        Kind::LensRepeat { child } => show_repeat(prepared, child, node, side, out),
        _ => Shown::empty(),
    }
}

// What Clash answers for a refused program.
pub fn clash_refused(
    bytes: &[u8],
    prepared: &[u64],
    refusal: Refusal,
    out: &mut [u8],
) -> ClashAnswer
    requires { IsRefused bytes.now prepared.now refusal.number refusal.node }
    ensures { GivesClash (clash_call bytes.now (length out.old)) out.old out.new result }
{
    if refusal.number < 7 {
        return Err(refusal);
    }
    let Refusal { number, node } = refusal;
    let shown = show(bytes, prepared, node, side_of(number), out);
    if out.len() < shown.length {
        return Err(Refusal {
            number: 17,
            node: 0,
        });
    }
    Ok(Some(Clash {
        number,
        node,
        length: shown.length,
        first: shown.first,
        second: shown.second,
    }))
}
