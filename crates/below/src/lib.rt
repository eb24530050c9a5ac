// What stands at and below each node: four numbers a node, the set of the children of its matches, 1 where there is a union, and how many matches a put meets there, if that
// depends on no text.
#![tactic(auto)]

ghost use Rattle.std.specs.Prelude.{◌≡◌, ◌↔◌, true, false, cond, ℕ, ◌+◌, ◌*◌, ◌≤◌, ◌<◌, eqb, length, Some};
ghost use Rattle.semantics.specs.Table.{node_count};
ghost use Rattle.table.specs.Rules.{AllSized};
ghost use Rattle.automaton.specs.Rows.{set_at};
ghost use Rattle.positions.specs.Positions.{Empty, Shared};
ghost use Rattle.below.specs.Below.{union_at, count_at, counted, standing_at, count_over, OverTwo, OverChild, OverParts, NodeStands, BelowTo, stored, BelowIs};

use automaton::set_at;
use positions::Set;
use table::{Kind, Table};

// What is kept in place of a count that depends on the texts, or is too large.
pub const VARIES: u64 = 65536;

// Whether no match at or below a node has one of these children.
pub fn asks_none(below: &[u64], node: usize, children: Set) -> bool
    requires { 4 * node + 4 ≤ length below.now }
    ensures { (result ≡ true) ↔ (¬ Shared (set_at below.now (4 * node)) children) }
{
    !set_at(below, 4 * node).meets(children)
}

// Whether there is a union at or below a node.
pub fn has_union(below: &[u64], node: usize) -> bool
    requires { 4 * node + 4 ≤ length below.now }
    ensures { result ≡ union_at below.now node }
{
    below[4 * node + 2] == 1
}

// How many matches a put meets at a node, as it is kept: `VARIES` where that depends on the texts.
pub fn count_at(below: &[u64], node: usize) -> u64
    requires { 4 * node + 4 ≤ length below.now }
    ensures { result ≡ count_at below.now node }
{
    below[4 * node + 3]
}

// The same, if it depends on no text.
pub fn even_count(below: &[u64], node: usize) -> Option<u64>
    requires { 4 * node + 4 ≤ length below.now }
    ensures { result ≡ counted (count_at below.now node) }
{
    counted(count_at(below, node))
}

// A count, if it is one that is kept.
fn counted(count: u64) -> Option<u64>
    ensures { result ≡ counted count }
{
    (count < VARIES).then_some(count)
}

// The children of the matches at and below a node, whether there is a union, and the count.
#[derive(Clone, Copy)]
struct Standing {
    asked: Set,
    union: bool,
    count: Option<u64>,
}

fn at_node(below: &[u64], node: usize) -> Standing
    requires { 4 * node + 4 ≤ length below.now }
    ensures { result ≡ standing_at below.now node }
{
    Standing {
        asked: set_at(below, 4 * node),
        union: has_union(below, node),
        count: even_count(below, node),
    }
}

// The count of a join: that of both halves.
fn sum_of(a: Option<u64>, b: Option<u64>) -> Option<u64>
    ensures { (m n : ℕ) → a ≡ counted m → b ≡ counted n → result ≡ counted (m + n) }
{
    counted(a?.saturating_add(b?))
}

// The count of a union: that of whichever arm is taken.
fn same_of(a: Option<u64>, b: Option<u64>) -> Option<u64>
    ensures { (m n : ℕ) → a ≡ counted m → b ≡ counted n → result ≡ counted (cond (eqb m n) m 65536) }
{
    if a == b { a } else { None }
}

// The count of a repeat, which depends on its parts unless they have none.
fn none_of(a: Option<u64>) -> Option<u64>
    ensures { (n : ℕ) → a ≡ counted n → result ≡ counted (cond (eqb n 0) 0 65536) }
{
    a.filter(|count| *count == 0)
}

// The count of a union or of a join.
fn of_two(union: bool, a: Option<u64>, b: Option<u64>) -> Option<u64>
    ensures { (m n : ℕ) → a ≡ counted m → b ≡ counted n → result ≡ counted (count_over union m n) }
{
    if union { same_of(a, b) } else { sum_of(a, b) }
}

// What stands at a node over two others, or at a union of them.
fn over_two(below: &[u64], left: usize, right: usize, union: bool) -> Standing
    requires { (4 * left + 4 ≤ length below.now) × (4 * right + 4 ≤ length below.now) }
    ensures { OverTwo below.now left right union result }
{
    let a = at_node(below, left);
    let b = at_node(below, right);
    Standing {
        asked: a.asked.union(b.asked),
        union: union || a.union || b.union,
        count: of_two(union, a.count, b.count),
    }
}

// What stands at a match of a child, and below it.
fn over_child(below: &[u64], child: usize) -> Standing
    requires { (4 * child + 4 ≤ length below.now) × (child < 128) }
    ensures { OverChild below.now child result }
{
    let a = at_node(below, child);
    Standing {
        asked: a.asked.with(child),
        union: a.union,
        count: Some(1),
    }
}

// What stands at a repeat of a child, and below it.
fn over_parts(below: &[u64], child: usize) -> Standing
    requires { 4 * child + 4 ≤ length below.now }
    ensures { OverParts below.now child result }
{
    let a = at_node(below, child);
    Standing {
        count: none_of(a.count),
        ..a
    }
}

fn nothing() -> Standing
    ensures { Empty result.asked × (result.union ≡ false) × (result.count ≡ Some 0) }
{
    Standing {
        asked: Set::empty(),
        union: false,
        count: Some(0),
    }
}

// What stands at and below a node, where the nodes below it are stored.
fn of_node(bytes: &[u8], prepared: &[u64], node: usize, below: &[u64]) -> Standing
    requires all_sized { AllSized bytes.now prepared.now × (node < node_count bytes.now) }
    requires below_to { BelowTo bytes.now below.now node × (384 ≤ length below.now) }
    ensures { NodeStands bytes.now node result }
{
    match Table::node(bytes, prepared, node).kind {
        Kind::LensJoin { left, right } => over_two(below, left, right, false),
        Kind::LensUnion { left, right } => over_two(below, left, right, true),
        Kind::LensRepeat { child } => over_parts(below, child),
        Kind::Match { child } => over_child(below, child),
        _ => nothing(),
    }
}

fn store(below: &mut [u64], node: usize, stands: Standing)
    requires { 4 * node + 4 ≤ length below.old }
    ensures { below.new ≡ stored below.old node stands }
{
    let i = 4 * node;
    below[i] = stands.asked.low;
    below[i + 1] = stands.asked.high;
    below[i + 2] = u64::from(stands.union);
    below[i + 3] = stands.count.unwrap_or(VARIES);
}

// What stands at and below each node of the program.
pub fn fill_below(bytes: &[u8], prepared: &[u64], nodes: usize, below: &mut [u64])
    requires all_sized { AllSized bytes.now prepared.now × (nodes ≡ node_count bytes.now) }
    requires in_bounds { 384 ≤ length below.old }
    ensures { BelowIs bytes.now below.new }
{
    for k in 0..nodes {
        let stands = of_node(bytes, prepared, k, below);
        store(below, k, stands);
    }
}
