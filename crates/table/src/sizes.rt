// A node by value: its kind with its own operands, and its sizes, worked out from those of its children or read from the prepared program.
ghost use Rattle.std.specs.Prelude.{◌≡◌, false, ◌+◌, ◌*◌, ◌≤◌, ◌<◌, length};
ghost use Rattle.semantics.specs.Table.{trees, tree_at, is_broken};
ghost use Rattle.table.specs.Prepared.{Shows};
ghost use Rattle.table.specs.Rules.{Within, SizedBelow, Small, SizedAs, Numbers, OverOne, OverTwo, OverConst, OverMatch, NodeRead, decoded, named};

use crate::operands::Operands;
use crate::parts::{kind_byte, node_count};
use crate::tags::Tag;
use crate::{Kind, Node, Table};

// A kind with its own operands, of those of a record that stands at `at`. The pool stands at `pool`.
fn kind_from(tag: Tag, operands: Operands, at: usize, pool: usize) -> Kind
    requires { pool ≤ 387 }
    ensures { result ≡ decoded (named tag) operands.a operands.b operands.c at pool }
{
    let x = usize::from(operands.a);
    let y = usize::from(operands.b);
    let z = usize::from(operands.c);
    match tag {
        Tag::Word => Kind::Word {
            start: operands.start(),
            len: z,
        },
        Tag::Range => Kind::OneOf { at, runs: 1 },
        Tag::PatternJoin => Kind::PatternJoin { left: x, right: y },
        Tag::PatternUnion => Kind::PatternUnion { left: x, right: y },
        Tag::PatternRepeat => Kind::PatternRepeat { child: x },
        Tag::Set => Kind::OneOf {
            at: pool + operands.start(),
            runs: z,
        },
        Tag::Copy => Kind::Copy { pattern: x },
        Tag::Const => Kind::Const {
            pattern: x,
            sheet: y,
            default: z,
        },
        Tag::Key => Kind::Key { pattern: x },
        Tag::LensJoin => Kind::LensJoin { left: x, right: y },
        Tag::LensUnion => Kind::LensUnion { left: x, right: y },
        Tag::LensRepeat => Kind::LensRepeat { child: x },
        Tag::Match => Kind::Match { child: x },
    }
}

// The kind of node k, which keeps the rules.
pub fn kind_of(bytes: &[u8], k: usize) -> Kind
    requires within { Within bytes.now k }
    requires k_value { is_broken (tree_at (trees bytes.now) k) ≡ false }
    ensures { Shows bytes.now k result }
{
    let operands = Operands::read(bytes, k);
    let n = node_count(bytes);
    let tag = Tag::of(kind_byte(bytes, k)).unwrap();
    kind_from(tag, operands, 3 + n + 3 * k, 3 + 4 * n)
}

// The sizes of node a, from its four words in the prepared program, with a kind.
pub fn sized(prepared: &[u64], a: usize, kind: Kind) -> Node
    requires { 16 * a + 3 < length prepared.now }
    ensures { SizedAs prepared.now a kind result }
{
    let at = Table::WORDS * a;
    Node {
        size: prepared[at] as usize,
        source: prepared[at + 1] as usize,
        sheet: prepared[at + 2] as usize,
        holds_match: prepared[at + 3] > 0,
        kind,
    }
}

// A word, a range or a set: it has no child.
fn leaf(positions: usize, kind: Kind) -> Node
    ensures { Numbers result kind 1 positions positions false }
{
    Node {
        size: 1,
        source: positions,
        sheet: positions,
        holds_match: false,
        kind,
    }
}

// A node with one child.
fn over_one(prepared: &[u64], a: usize, kind: Kind) -> Node
    requires { Small prepared.now a }
    ensures { OverOne prepared.now a kind result }
{
    let child = sized(prepared, a, kind);
    Node {
        size: 1 + child.size,
        ..child
    }
}

// A node with two children.
fn over_two(prepared: &[u64], a: usize, b: usize, kind: Kind) -> Node
    requires small { Small prepared.now a }
    requires small_2 { Small prepared.now b }
    ensures { OverTwo prepared.now a b kind result }
{
    let left = sized(prepared, a, kind);
    let right = sized(prepared, b, kind);
    Node {
        size: 1 + left.size + right.size,
        source: left.source + right.source,
        sheet: left.sheet + right.sheet,
        holds_match: left.holds_match || right.holds_match,
        kind,
    }
}

// A const: its source side is its pattern's, its sheet side its sheet word's. Its words count 1 each.
fn over_const(prepared: &[u64], pattern: usize, sheet: usize, kind: Kind) -> Node
    requires small { Small prepared.now pattern }
    requires small_2 { Small prepared.now sheet }
    ensures { OverConst prepared.now pattern sheet kind result }
{
    let pattern = sized(prepared, pattern, kind);
    let word = sized(prepared, sheet, kind);
    Node {
        size: 1 + pattern.size + 1 + 1,
        source: pattern.source,
        sheet: word.sheet,
        holds_match: false,
        kind,
    }
}

// A match: it counts as its child does, and holds a match.
fn over_match(prepared: &[u64], a: usize, kind: Kind) -> Node
    requires { Small prepared.now a }
    ensures { OverMatch prepared.now a kind result }
{
    Node {
        holds_match: true,
        ..over_one(prepared, a, kind)
    }
}

// Node k, which keeps the rules, with its sizes worked out from those of its children.
pub fn measured(bytes: &[u8], prepared: &[u64], k: usize) -> Node
    requires sized_below { SizedBelow bytes.now k prepared.now }
    requires k_value { is_broken (tree_at (trees bytes.now) k) ≡ false }
    ensures { NodeRead bytes.now k result }
{
    let kind = kind_of(bytes, k);
    match kind {
        Kind::Word { len, .. } => leaf(len, kind),
        Kind::OneOf { .. } => leaf(1, kind),
        Kind::PatternJoin { left, right }
        | Kind::PatternUnion { left, right }
        | Kind::LensJoin { left, right }
        | Kind::LensUnion { left, right } => over_two(prepared, left, right, kind),
        Kind::PatternRepeat { child }
        | Kind::LensRepeat { child }
        | Kind::Copy { pattern: child }
        | Kind::Key { pattern: child } => over_one(prepared, child, kind),
        Kind::Const { pattern, sheet, .. } => over_const(prepared, pattern, sheet, kind),
        Kind::Match { child } => over_match(prepared, child, kind),
    }
}
