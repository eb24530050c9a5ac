// What Put does with an accepted and prepared program: a source from a sheet and an old source.
ghost use Rattle.std.specs.Prelude.{◌≡◌, Err, length};
ghost use Rattle.semantics.specs.Lens.{source, sheet};
ghost use Rattle.semantics.specs.Calls.{put_call};
ghost use Rattle.semantics.specs.Tally.{put_tally};
ghost use Rattle.table.specs.Prepared.{refusal};
ghost use Rattle.answers.specs.Answers.{Ready};
ghost use Rattle.answers.specs.Outcomes.{RepliesSource};
ghost use Rattle.answers.specs.Results.{TextReady};
ghost use Rattle.calls.specs.Puts.{ListsSource, PutsInto};

use answers::Reply;
use answers::results::{finish, refuse, room_in, root_of, root_path, uncounted};
use arrays::filled;
use automaton::Side;
use books::Book;
use counts::tally_of;
use listing::list;
use sources::write_source;
use table::Table;

// The entries of an old source, in a book of their own; none where there are too many.
fn entries_of(bytes: &[u8], prepared: &[u64], text: &[u8], path: &[u8]) -> Option<Book>
    requires ready { Ready bytes.now prepared.now }
    requires text_ready { TextReady bytes.now source text.now path.now }
    ensures { ListsSource bytes.now text.now path.now result }
{
    list(
        bytes,
        prepared,
        root_of(bytes),
        0,
        text,
        path,
        0,
        Book::empty(),
    )
}

// The source of a sheet and an old source, of a program that is accepted and prepared.
pub fn put_with(
    bytes: &[u8],
    prepared: &[u64],
    sheet: &[u8],
    source: &[u8],
    out: &mut [u8],
) -> Reply
    requires { Ready bytes.now prepared.now }
    ensures { RepliesSource (put_call bytes.now sheet.now source.now (length out.old)) (put_tally bytes.now sheet.now source.now) out.old out.new result }
{
    if Table::TEXT < sheet.len() || Table::TEXT < source.len() {
        return refuse_put(12);
    }
    let mut old_positions: [u8; Table::TEXT] = filled(0);
    let trail = &mut old_positions[..source.len()];
    if !root_path(bytes, prepared, Side::Source, source, trail) {
        return refuse_put(13);
    }
    let mut positions: [u8; Table::TEXT] = filled(0);
    let path = &mut positions[..sheet.len()];
    if !root_path(bytes, prepared, Side::Sheet, sheet, path) {
        return refuse_put(14);
    }
    put_parsed(bytes, prepared, sheet, path, source, trail, out)
}

// The same for a sheet and a source that belong, with their paths.
fn put_parsed(
    bytes: &[u8],
    prepared: &[u64],
    new: &[u8],
    path: &mut [u8],
    old: &[u8],
    trail: &[u8],
    out: &mut [u8],
) -> Reply
    requires ready { Ready bytes.now prepared.now }
    requires text_ready { TextReady bytes.now sheet new.now path.old × TextReady bytes.now source old.now trail.now }
    ensures { PutsInto bytes.now new.now old.now out.old out.new result }
{
    let Some(book) = entries_of(bytes, prepared, old, trail) else {
        return refuse_put(15);
    };
    let mut result: [u8; Table::TEXT] = filled(0);
    let room = room_in(out.len());
    let made = &mut result[..room];
    let source = write_source(bytes, prepared, new, path, old, trail, book, made);
    Reply {
        tally: tally_of(source, book.count),
        ..uncounted(finish(source.wrote, made, out))
    }
}

// A refusal has no counts.
fn refuse_put(number: usize) -> Reply
    ensures { result.answer ≡ Err (refusal number 0) }
{
    uncounted(Err(refuse(number)))
}
