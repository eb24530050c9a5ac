// The rules on kinds and operands. A child's sort is read off its kind byte: the nodes below keep the rules.
ghost use Rattle.std.specs.Prelude.{◌≡◌, ◌<◌, length, take, false, not};
ghost use Rattle.semantics.specs.Text.{some_passes};
ghost use Rattle.semantics.specs.Table.{trees, pool, sizes_wrong, runs_of, reversed, set_keeps};
ghost use Rattle.table.specs.Rules.{Whole, sort_at, word_there, word_fits, range_ordered, one_child, two_children, const_parts, keeps_rules, named};

use crate::operands::Operands;
use crate::parts::{kind_byte, node_count, pool_length};
use crate::tags::Tag;
use crate::{Sort, Table};

// Whether a node of that sort stands at a, below node k.
pub fn is_sort(bytes: &[u8], k: usize, sort: Sort, a: usize) -> bool
    requires { Whole bytes.now k }
    ensures { result ≡ sort_at sort (take k (trees bytes.now)) a }
{
    a < k && Tag::of(kind_byte(bytes, a)).is_some_and(|tag| tag.sort() == sort)
}

// Whether a word stands at w, below node k.
fn is_word(bytes: &[u8], k: usize, w: usize) -> bool
    requires { Whole bytes.now k }
    ensures { result ≡ word_there (take k (trees bytes.now)) w }
{
    w < k && Tag::of(kind_byte(bytes, w)) == Some(Tag::Word)
}

// The pool: what stands behind the operand records.
fn pool(bytes: &[u8]) -> &[u8]
    requires { sizes_wrong bytes.now ≡ false }
    ensures { result.now ≡ pool bytes.now }
{
    &bytes[3 + 4 * node_count(bytes)..]
}

fn word_fits(bytes: &[u8], operands: Operands) -> bool
    requires { 2 < length bytes.now }
    ensures { result ≡ word_fits bytes.now operands.a operands.b operands.c }
{
    let len = usize::from(operands.c);
    len <= Table::WORD && operands.start() + len <= pool_length(bytes)
}

fn range_ordered(operands: Operands) -> bool
    ensures { result ≡ range_ordered operands.a operands.b operands.c }
{
    operands.a <= operands.b && operands.c == 0
}

// Whether none of the runs of a set is reversed. Each is a pair of bytes; one that is left over is no run.
fn runs_ordered(pairs: &[u8]) -> bool
    ensures { result ≡ not (some_passes reversed (runs_of pairs.now)) }
{
    pairs.chunks(2).all(|run| match run {
        [first, last, ..] => first <= last,
        _ => true,
    })
}

fn set_fits(bytes: &[u8], operands: Operands) -> bool
    requires { sizes_wrong bytes.now ≡ false }
    ensures { result ≡ set_keeps (pool bytes.now) operands.a operands.b operands.c }
{
    let pool = pool(bytes);
    let runs = usize::from(operands.c);
    let start = operands.start();
    1 <= runs
        && runs <= Table::RUNS
        && start + 2 * runs <= pool.len()
        && runs_ordered(&pool[start..start + 2 * runs])
}

fn one_child(bytes: &[u8], k: usize, sort: Sort, operands: Operands) -> bool
    requires { Whole bytes.now k }
    ensures { result ≡ one_child (take k (trees bytes.now)) sort operands.a operands.b operands.c }
{
    operands.b == 0 && operands.c == 0 && is_sort(bytes, k, sort, usize::from(operands.a))
}

fn two_children(bytes: &[u8], k: usize, sort: Sort, operands: Operands) -> bool
    requires { Whole bytes.now k }
    ensures { result ≡ two_children (take k (trees bytes.now)) sort operands.a operands.b operands.c }
{
    operands.c == 0
        && is_sort(bytes, k, sort, usize::from(operands.a))
        && is_sort(bytes, k, sort, usize::from(operands.b))
}

fn const_parts(bytes: &[u8], k: usize, operands: Operands) -> bool
    requires { Whole bytes.now k }
    ensures { result ≡ const_parts (take k (trees bytes.now)) operands.a operands.b operands.c }
{
    is_sort(bytes, k, Sort::Patterns, usize::from(operands.a))
        && is_word(bytes, k, usize::from(operands.b))
        && is_word(bytes, k, usize::from(operands.c))
}

// Whether the operands keep the rules of a kind, at node k.
pub fn keeps(bytes: &[u8], k: usize, tag: Tag, operands: Operands) -> bool
    requires { Whole bytes.now k }
    ensures { result ≡ keeps_rules bytes.now (take k (trees bytes.now)) (named tag) operands.a operands.b operands.c }
{
    match tag {
        Tag::Word => word_fits(bytes, operands),
        Tag::Range => range_ordered(operands),
        Tag::Set => set_fits(bytes, operands),
        Tag::PatternJoin | Tag::PatternUnion => two_children(bytes, k, Sort::Patterns, operands),
        Tag::LensJoin | Tag::LensUnion => two_children(bytes, k, Sort::Lenses, operands),
        Tag::PatternRepeat | Tag::Copy | Tag::Key => one_child(bytes, k, Sort::Patterns, operands),
        Tag::LensRepeat | Tag::Match => one_child(bytes, k, Sort::Lenses, operands),
        Tag::Const => const_parts(bytes, k, operands),
    }
}
