// The entries of an old source listed in order, into a book.
#![tactic(auto)]

ghost use Rattle.std.specs.Prelude.{◌+◌, ◌≤◌, ◌<◌, length};
ghost use Rattle.semantics.specs.Lens.{repeat, match, source};
ghost use Rattle.semantics.specs.Table.{node_count, lens, trees, tree_at};
ghost use Rattle.table.specs.Prepared.{OneLens};
ghost use Rattle.lens.specs.Parsed.{Parsed};
ghost use Rattle.books.specs.Listed.{Sized};
ghost use Rattle.listing.specs.Listing.{ToList, Lists, ListsMatch, tree_entries, repeat_entries};

use automaton::{Side, automaton_of};
use books::Book;
use cuts::{border, ends_of, first_loop, goes_left};
use table::{Kind, Table};

// The text that a match reads is one entry, of the match's child. None, here and below, where there are more than 256 entries.
fn list_match(child: usize, base: usize, text: &[u8], at: usize, book: Book) -> Option<Book>
    requires child_bound { (child < 128) × (base < 256) × (at + length text.now ≤ 65535) }
    requires sized { Sized book × (book.count ≤ 256) }
    ensures { ListsMatch child base text.now at book result }
{
    if book.count < Book::ENTRIES {
        Some(book.added(at, text.len(), base, child))
    } else {
        None
    }
}

// The entries that the matches at and below a node read in a text, put behind those in the book. The text stands at `at` in the old source; the path tells
// how it is cut, and the node's positions are numbered from `base` on.
#[cycle(list_list_parts)]
pub fn list(
    bytes: &[u8],
    prepared: &[u64],
    node: usize,
    base: usize,
    text: &[u8],
    path: &[u8],
    at: usize,
    book: Book,
) -> Option<Book>
    requires to_list { ToList bytes.now prepared.now text.now at book }
    requires node_bound { node < node_count bytes.now }
    requires parsed { Parsed bytes.now node source base path.now text.now }
    ensures { Lists bytes.now (tree_entries (tree_at (trees bytes.now) node) text.now) text.now path.now at book result }
{
    let read = Table::node(bytes, prepared, node);
    if !read.holds_match {
        return Some(book);
    }
    match read.kind {
        Kind::Match { child } => list_match(child, base, text, at, book),
        Kind::LensUnion { left, right } => {
            let a = automaton_of(prepared, left, Side::Source);
            let mid = base + a.count;
            if goes_left(path, mid, a.nullable) {
                return list(bytes, prepared, left, base, text, path, at, book);
            }
            list(bytes, prepared, right, mid, text, path, at, book)
        }
        Kind::LensJoin { left, right } => {
            let a = automaton_of(prepared, left, Side::Source);
            let mid = base + a.count;
            let i = border(path, mid);
            let front = &text[0..i];
            let more = list(bytes, prepared, left, base, front, &path[0..i], at, book)?;
            let back = &text[i..];
            list(bytes, prepared, right, mid, back, &path[i..], at + i, more)
        }
        Kind::LensRepeat { child } => {
            list_parts(bytes, prepared, node, child, base, text, path, at, book)
        }
        _ => Some(book),
    }
}

// The same for a repeat and its child: part by part.
#[cycle(list_list_parts)]
fn list_parts(
    bytes: &[u8],
    prepared: &[u64],
    node: usize,
    child: usize,
    base: usize,
    text: &[u8],
    path: &[u8],
    at: usize,
    mut book: Book,
) -> Option<Book>
    requires to_list { ToList bytes.now prepared.now text.now at book }
    requires child_lt_node { (child < node) × (node < node_count bytes.now) }
    requires one_lens { OneLens (trees bytes.now) node child (λ l. lens (repeat l)) }
    requires parsed { Parsed bytes.now node source base path.now text.now }
    ensures { Lists bytes.now (repeat_entries (tree_at (trees bytes.now) child) text.now) text.now path.now at book result }
{
    let read = Table::node(bytes, prepared, child);
    if let Kind::Match { child: inner } = read.kind {
        return list_matches(
            bytes, prepared, node, child, inner, base, text, path, at, book,
        );
    }
    let part = automaton_of(prepared, child, Side::Source);
    let ends = ends_of(part, base);
    let mut o = 0;
    while o < text.len() {
        let e = o + first_loop(&path[o..], ends.last, ends.first);
        let cut = &text[o..e];
        book = list(bytes, prepared, child, base, cut, &path[o..e], at + o, book)?;
        o = e;
    }
    Some(book)
}

// The same where the child is a match: each part is one entry, of the match's child.
fn list_matches(
    bytes: &[u8],
    prepared: &[u64],
    node: usize,
    child: usize,
    inner: usize,
    base: usize,
    text: &[u8],
    path: &[u8],
    at: usize,
    mut book: Book,
) -> Option<Book>
    requires to_list { ToList bytes.now prepared.now text.now at book }
    requires child_lt_node { (child < node) × (node < node_count bytes.now) }
    requires one_lens { OneLens (trees bytes.now) node child (λ l. lens (repeat l)) }
    requires one_lens_2 { OneLens (trees bytes.now) child inner (λ l. lens (match inner l)) }
    requires parsed { Parsed bytes.now node source base path.now text.now }
    ensures { Lists bytes.now (repeat_entries (tree_at (trees bytes.now) child) text.now) text.now path.now at book result }
{
    let part = automaton_of(prepared, child, Side::Source);
    let ends = ends_of(part, base);
    let mut o = 0;
    while o < text.len() {
        let e = o + first_loop(&path[o..], ends.last, ends.first);
        if book.count == Book::ENTRIES {
            return None;
        }
        // Stored in place and not by `added`: so the book is not copied for each entry.
        let i = book.count;
        book.starts[i] = (at + o) as u16;
        book.lengths[i] = (e - o) as u16;
        book.bases[i] = base as u8;
        book.children[i] = inner as u8;
        book.used[i] = false;
        book.left = book.left.with(inner);
        book.count = i + 1;
        o = e;
    }
    Some(book)
}
