// What is read off a text at a node: a sheet, a key or a source.
ghost use Rattle.std.specs.Prelude.{◌≡◌, ◌≤◌, length};
ghost use Rattle.semantics.specs.Table.{trees, lens};
ghost use Rattle.semantics.specs.Lens.{repeat};
ghost use Rattle.table.specs.Prepared.{OneLens};
ghost use Rattle.automaton.specs.Rows.{automaton_at};
ghost use Rattle.paths.specs.Finding.{MarksRoom};
ghost use Rattle.texts.specs.Overlay.{Lays};
ghost use Rattle.lens.specs.Reading.{mode_side, keyed, copied};
ghost use Rattle.lens.specs.Emitting.{side_for, Prepared, WordNode, WordIs, LensNode, Fits, Emits, EmitsJoin, ReadBy};
ghost use Rattle.lens.specs.Parsed.{Parsed, ParsedJoin};

use crate::Mode;
use automaton::{Automaton, automaton_of};
use cuts::{border, ends_of, first_loop, goes_left};
use paths::find_path;
use table::{Kind, Table};
use texts::{write_key, write_text};

// The automaton of a node, for the side that is read.
fn automaton_for(prepared: &[u64], node: usize, mode: Mode) -> Automaton
    requires { Prepared prepared.now node (side_for mode) }
    ensures { result ≡ automaton_at prepared.now node (side_for mode) }
{
    automaton_of(prepared, node, mode.side())
}

// The bytes of a word, in the table's pool.
fn word_of<'a>(bytes: &'a [u8], prepared: &[u64], node: usize) -> &'a [u8]
    requires { WordNode bytes.now prepared.now node }
    ensures { WordIs bytes.now node result.now }
{
    let read = Table::node(bytes, prepared, node);
    let Kind::Word { start, len } = read.kind else {
        return bytes;
    };
    let from = 3 + 4 * (bytes[0] as usize) + start;
    let to = from + len;
    &bytes[from..to]
}

// What a copy gives: its text, and no key.
fn emit_copy(mode: Mode, text: &[u8], out: &mut [u8]) -> Option<usize>
    ensures { Lays (keyed mode) (copied mode text.now) out.old out.new result }
{
    if mode.is_keyed() {
        return Some(0);
    }
    write_text(text, out)
}

// What a key gives: its text.
fn emit_key(mode: Mode, text: &[u8], out: &mut [u8]) -> Option<usize>
    ensures { Lays (keyed mode) text.now out.old out.new result }
{
    if mode.is_keyed() {
        return write_key(text, out);
    }
    write_text(text, out)
}

// What is read off a text at a node, written from the buffer's first byte on. The path tells how the text is cut; the node's positions are numbered from
// `base` on.
#[cycle(emit_emit_join_emit_repeat)]
pub fn emit(
    bytes: &[u8],
    prepared: &[u64],
    node: usize,
    mode: Mode,
    base: usize,
    text: &[u8],
    path: &[u8],
    out: &mut [u8],
) -> Option<usize>
    requires lens_node { LensNode bytes.now prepared.now node }
    requires parsed { Parsed bytes.now node (mode_side mode) base path.now text.now }
    ensures { Emits bytes.now node mode text.now out.old out.new result }
{
    let read = Table::node(bytes, prepared, node);
    match read.kind {
        Kind::Word { .. }
        | Kind::OneOf { .. }
        | Kind::PatternJoin { .. }
        | Kind::PatternUnion { .. }
        | Kind::PatternRepeat { .. } => Some(0),
        Kind::Copy { .. } => emit_copy(mode, text, out),
        Kind::Const { sheet, default, .. } => {
            let given = mode.given_word(sheet, default);
            emit_copy(mode, word_of(bytes, prepared, given), out)
        }
        Kind::Key { .. } => emit_key(mode, text, out),
        Kind::LensJoin { left, right } => {
            emit_join(bytes, prepared, left, right, mode, base, text, path, out)
        }
        Kind::LensUnion { left, right } => {
            let a = automaton_for(prepared, left, mode);
            let n = base + a.count;
            if goes_left(path, n, a.nullable) {
                return emit(bytes, prepared, left, mode, base, text, path, out);
            }
            emit(bytes, prepared, right, mode, n, text, path, out)
        }
        Kind::LensRepeat { child } => {
            emit_repeat(bytes, prepared, node, child, mode, base, text, path, out)
        }
        Kind::Match { child } => emit(bytes, prepared, child, mode, base, text, path, out),
    }
}

// The left half of a text, and directly behind what it gives the right half.
#[cycle(emit_emit_join_emit_repeat)]
fn emit_join(
    bytes: &[u8],
    prepared: &[u64],
    left: usize,
    right: usize,
    mode: Mode,
    base: usize,
    text: &[u8],
    path: &[u8],
    out: &mut [u8],
) -> Option<usize>
    requires lens_node { LensNode bytes.now prepared.now left }
    requires lens_node_2 { LensNode bytes.now prepared.now right }
    requires parsed_join { ParsedJoin bytes.now left right (mode_side mode) base path.now text.now }
    ensures { EmitsJoin bytes.now left right mode text.now out.old out.new result }
{
    let a = automaton_for(prepared, left, mode);
    let mid = base + a.count;
    let i = border(path, mid);
    let n = emit(
        bytes,
        prepared,
        left,
        mode,
        base,
        &text[0..i],
        &path[0..i],
        out,
    )?;
    let m = emit(
        bytes,
        prepared,
        right,
        mode,
        mid,
        &text[i..],
        &path[i..],
        &mut out[n..],
    )?;
    Some(n + m)
}

// The node by which a text of a lens is read: a match gives what its child gives.
fn read_by(bytes: &[u8], prepared: &[u64], node: usize) -> usize
    requires { LensNode bytes.now prepared.now node }
    ensures { ReadBy bytes.now node result }
{
    let read = Table::node(bytes, prepared, node);
    if let Kind::Match { child } = read.kind {
        return child;
    }
    node
}

// The parts of a text, one by one, each directly behind the one before. Where the child is a match, its own child is asked for once, and not for each part.
#[cycle(emit_emit_join_emit_repeat)]
fn emit_repeat(
    bytes: &[u8],
    prepared: &[u64],
    node: usize,
    child: usize,
    mode: Mode,
    base: usize,
    text: &[u8],
    path: &[u8],
    out: &mut [u8],
) -> Option<usize>
    requires lens_node { LensNode bytes.now prepared.now node }
    requires one_lens { OneLens (trees bytes.now) node child (λ l. lens (repeat l)) }
    requires parsed { Parsed bytes.now node (mode_side mode) base path.now text.now }
    ensures { Emits bytes.now node mode text.now out.old out.new result }
{
    let part = automaton_for(prepared, child, mode);
    let inner = read_by(bytes, prepared, child);
    let ends = ends_of(part, base);
    let mut o = 0;
    let mut n = 0;
    while o < text.len() {
        let end = o + first_loop(&path[o..], ends.last, ends.first);
        let m = emit(
            bytes,
            prepared,
            inner,
            mode,
            base,
            &text[o..end],
            &path[o..end],
            &mut out[n..],
        )?;
        o = end;
        n += m;
    }
    Some(n)
}

// The same for a text that stands by itself, of a node that it belongs to: its path is found first, in the room that is lent.
pub fn read_text(
    bytes: &[u8],
    prepared: &[u64],
    node: usize,
    mode: Mode,
    text: &[u8],
    marks: &mut [u64],
    path: &mut [u8],
    out: &mut [u8],
) -> Option<usize>
    requires lens_node { LensNode bytes.now prepared.now node }
    requires fits { Fits bytes.now node (mode_side mode) text.now }
    requires text_in_bounds { (length text.now ≤ length path.old) × MarksRoom text.now marks.old }
    ensures { Emits bytes.now node mode text.now out.old out.new result }
{
    let a = automaton_for(prepared, node, mode);
    let n = text.len();
    if !find_path(prepared, a, text, marks, &mut path[0..n]) {
        return None;
    }
    emit(bytes, prepared, node, mode, 0, text, &path[0..n], out)
}
