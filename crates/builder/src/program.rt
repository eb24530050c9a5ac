// The automata of every node of a table, built lowest node first, from those of its children.
ghost use Rattle.std.specs.Prelude.{◌≡◌, ◌+◌, ◌≤◌, ◌<◌, length, take, drop};
ghost use Rattle.semantics.specs.Table.{node_count, pool};
ghost use Rattle.table.specs.Prepared.{Shows};
ghost use Rattle.table.specs.Rules.{AllSized};
ghost use Rattle.automaton.specs.Rows.{row_at};
ghost use Rattle.automaton.specs.Built.{Built};
ghost use Rattle.builder.specs.Program.{rows_taken, rows_needed, is_pattern, OwnSide, const_part, parts_of, LettersInside, PairReady, PairMade, RepeatReady, RepeatMade, AliasReady, AliasMade, next_node, next_side, BuiltUpTo, Turn};
ghost use Rattle.automaton.specs.declared.Side.TheVariants.{Source, Sheet};

use crate::build::{
    CLASS_ROWS, Slot, alias, build_alt, build_class, build_concat, build_star, build_word,
};
use automaton::{Side, automaton_of};
use table::parts::node_count;
use table::{Kind, Table};

// The two ways to make a pattern of two.
#[derive(Clone, Copy)]
enum Pair {
    Join,
    Union,
}

// The parts of a node on one side: letters of the pool, runs of bytes from a place of the table on, or nodes whose same side it is made of.
#[derive(Clone, Copy)]
enum Parts {
    Letters(usize, usize),
    Runs(usize, usize),
    Two(Pair, usize, usize),
    Repeat(usize),
    Same(usize),
}

// How many rows the automata of node k take. Both sides of a pattern have the same rows, so they count once. A range or a set has its class
// in front of its row. A copy, const, key or match takes none: it has those of its children.
fn rows_of(bytes: &[u8], prepared: &[u64], k: usize) -> usize
    requires all_sized { AllSized bytes.now prepared.now }
    requires k_bound { k < node_count bytes.now }
    ensures { result ≡ rows_taken bytes.now k Source + rows_taken bytes.now k Sheet }
{
    let node = Table::node(bytes, prepared, k);
    match node.kind {
        Kind::Word { .. }
        | Kind::PatternJoin { .. }
        | Kind::PatternUnion { .. }
        | Kind::PatternRepeat { .. } => node.source,
        Kind::OneOf { .. } => CLASS_ROWS,
        Kind::Copy { .. } | Kind::Const { .. } | Kind::Key { .. } | Kind::Match { .. } => 0,
        Kind::LensJoin { .. } | Kind::LensUnion { .. } | Kind::LensRepeat { .. } => {
            node.source + node.sheet
        }
    }
}

// How many rows the automata of all nodes take, no more and no fewer.
pub fn rows_needed(bytes: &[u8], prepared: &[u64]) -> usize
    requires { AllSized bytes.now prepared.now }
    ensures { (result ≡ rows_needed bytes.now) × (result ≤ 24576) }
{
    let mut rows = 0;
    for k in 0..node_count(bytes) {
        rows += rows_of(bytes, prepared, k);
    }
    rows
}

// The letters of a word: its part of the pool.
fn letters(bytes: &[u8], start: usize, len: usize) -> &[u8]
    requires { LettersInside bytes.now start len }
    ensures { result.now ≡ take len (drop start (pool bytes.now)) }
{
    let from = 3 + 4 * node_count(bytes) + start;
    &bytes[from..from + len]
}

// The node's side, made of the same side of two others, and the next free row.
fn two_of(prepared: &mut [u64], slot: Slot, pair: Pair, a: usize, b: usize) -> usize
    requires { PairReady slot.node slot.side slot.row a b prepared.old }
    ensures { PairMade pair slot.node slot.side slot.row a b result prepared.old prepared.new }
{
    let left = automaton_of(prepared, a, slot.side);
    let right = automaton_of(prepared, b, slot.side);
    match pair {
        Pair::Join => build_concat(prepared, slot, left, right),
        Pair::Union => build_alt(prepared, slot, left, right),
    }
    slot.row + (left.count + right.count)
}

// The node's side, a repeat of the same side of another, and the next free row.
fn repeat_of(prepared: &mut [u64], slot: Slot, a: usize) -> usize
    requires { RepeatReady slot.node slot.side slot.row a prepared.old }
    ensures { RepeatMade slot.node slot.side slot.row a result prepared.old prepared.new }
{
    let part = automaton_of(prepared, a, slot.side);
    build_star(prepared, slot, part);
    slot.row + part.count
}

// The node's side, the same as a side of another. It takes no row.
fn same_as(prepared: &mut [u64], slot: Slot, a: usize, other: Side) -> usize
    requires { AliasReady slot.node a prepared.old }
    ensures { AliasMade slot.node slot.side slot.row a other result prepared.old prepared.new }
{
    let automaton = automaton_of(prepared, a, other);
    alias(prepared, slot.node, slot.side, automaton);
    slot.row
}

// A const is its pattern on the source side, and its word on the sheet side.
fn const_part(side: Side, pattern: usize, sheet: usize) -> usize
    ensures { result ≡ const_part side pattern sheet }
{
    match side {
        Side::Source => pattern,
        Side::Sheet => sheet,
    }
}

// What a node of that kind is made of on a side.
fn parts_of(kind: Kind, side: Side) -> Parts
    ensures { result ≡ parts_of kind side }
{
    match kind {
        Kind::Word { start, len } => Parts::Letters(start, len),
        Kind::OneOf { at, runs } => Parts::Runs(at, runs),
        Kind::PatternJoin { left, right } => Parts::Two(Pair::Join, left, right),
        Kind::PatternUnion { left, right } => Parts::Two(Pair::Union, left, right),
        Kind::PatternRepeat { child } => Parts::Repeat(child),
        Kind::Copy { pattern } => Parts::Same(pattern),
        Kind::Const { pattern, sheet, .. } => Parts::Same(const_part(side, pattern, sheet)),
        Kind::Key { pattern } => Parts::Same(pattern),
        Kind::LensJoin { left, right } => Parts::Two(Pair::Join, left, right),
        Kind::LensUnion { left, right } => Parts::Two(Pair::Union, left, right),
        Kind::LensRepeat { child } => Parts::Repeat(child),
        Kind::Match { child } => Parts::Same(child),
    }
}

// One side of a node, from the sides before it, and the next free row.
fn build_side(bytes: &[u8], prepared: &mut [u64], kind: Kind, slot: Slot) -> usize
    requires turn { Turn bytes.now slot.node slot.side slot.row prepared.old }
    requires shows { Shows bytes.now slot.node kind }
    requires own_side { OwnSide kind slot.side }
    ensures { BuiltUpTo bytes.now (next_node slot.node slot.side) (next_side slot.side) result prepared.new }
{
    match parts_of(kind, slot.side) {
        Parts::Letters(start, len) => {
            let word = letters(bytes, start, len);
            build_word(prepared, slot, word);
            slot.row + word.len()
        }
        Parts::Runs(at, count) => {
            build_class(prepared, slot, &bytes[at..at + 2 * count]);
            slot.row + CLASS_ROWS
        }
        Parts::Two(pair, a, b) => two_of(prepared, slot, pair, a, b),
        Parts::Repeat(a) => repeat_of(prepared, slot, a),
        Parts::Same(a) => same_as(prepared, slot, a, slot.side),
    }
}

// Whether a node of that kind is a pattern, and no lens.
fn is_pattern(kind: Kind) -> bool
    ensures { result ≡ is_pattern kind }
{
    matches!(
        kind,
        Kind::Word { .. }
            | Kind::OneOf { .. }
            | Kind::PatternJoin { .. }
            | Kind::PatternUnion { .. }
            | Kind::PatternRepeat { .. }
    )
}

// Both sides of node k, and the next free row. A pattern has the same automaton on both.
fn build_node(bytes: &[u8], prepared: &mut [u64], k: usize, row: usize) -> usize
    requires { Turn bytes.now k Source row prepared.old }
    ensures { BuiltUpTo bytes.now (k + 1) Source result prepared.new }
{
    let kind = Table::node(bytes, prepared, k).kind;
    let source = Slot {
        node: k,
        side: Side::Source,
        row,
    };
    let next = build_side(bytes, prepared, kind, source);
    let sheet = Slot {
        node: k,
        side: Side::Sheet,
        row: next,
    };
    if is_pattern(kind) {
        return same_as(prepared, sheet, k, Side::Source);
    }
    build_side(bytes, prepared, kind, sheet)
}

// Builds every node's automata, lowest first, from those of its children.
pub fn build_all(bytes: &[u8], prepared: &mut [u64])
    requires all_sized { AllSized bytes.now prepared.old }
    requires bytes_in_bounds { row_at (rows_needed bytes.now) ≤ length prepared.old }
    ensures { Built bytes.now prepared.new }
{
    let mut row = 0;
    for k in 0..node_count(bytes) {
        row = build_node(bytes, prepared, k, row);
    }
}
