// What Get and Create do with an accepted and prepared program: a text that belongs to the root is read, and what it gives is given. With an empty book no match
// finds an entry, so the source that Create makes is read off the sheet.
ghost use Rattle.std.specs.Prelude.{◌≡◌, ℕ, false, length};
ghost use Rattle.semantics.specs.Calls.{get_call, create_call};
ghost use Rattle.automaton.specs.Rows.{side_of};
ghost use Rattle.lens.specs.Reading.{reading, mode_side, keyed};
ghost use Rattle.answers.specs.Answers.{Ready};
ghost use Rattle.answers.specs.Outcomes.{GivesText};
ghost use Rattle.answers.specs.Results.{TextReady, GivesMade};
ghost use Rattle.readings.specs.Reading.{read_call};

use answers::Answer;
use answers::results::{finish, refuse, room_in, root_of, root_path};
use arrays::filled;
use automaton::Side;
use lens::Mode;
use lens::read::emit;
use table::Table;

// The sheet of a source.
pub fn get_with(bytes: &[u8], prepared: &[u64], source: &[u8], out: &mut [u8]) -> Answer
    requires { Ready bytes.now prepared.now }
    ensures { GivesText (get_call bytes.now source.now (length out.old)) out.old out.new result }
{
    read_with(bytes, prepared, Mode::Get, Side::Source, 13, source, out)
}

// The source of a sheet.
pub fn create_with(bytes: &[u8], prepared: &[u64], sheet: &[u8], out: &mut [u8]) -> Answer
    requires { Ready bytes.now prepared.now }
    ensures { GivesText (create_call bytes.now sheet.now (length out.old)) out.old out.new result }
{
    read_with(bytes, prepared, Mode::Create, Side::Sheet, 14, sheet, out)
}

// What the root reads off a text of that side; the number is that of the refusal of a text that does not belong to it.
fn read_with(
    bytes: &[u8],
    prepared: &[u64],
    mode: Mode,
    side: Side,
    number: usize,
    text: &[u8],
    out: &mut [u8],
) -> Answer
    requires ready { Ready bytes.now prepared.now }
    requires side_value { mode_side mode ≡ side_of side }
    requires mode_value { keyed mode ≡ false }
    ensures { GivesText (read_call bytes.now mode number text.now (length out.old)) out.old out.new result }
{
    if Table::TEXT < text.len() {
        return Err(refuse(12));
    }
    let mut positions: [u8; Table::TEXT] = filled(0);
    let path = &mut positions[..text.len()];
    if !root_path(bytes, prepared, side, text, path) {
        return Err(refuse(number));
    }
    give_read(bytes, prepared, mode, text, path, out)
}

// What the root reads off a text whose path is known, given or refused for its length. (Of a key trailing spaces may be left out, so it is no result.)
fn give_read(
    bytes: &[u8],
    prepared: &[u64],
    mode: Mode,
    text: &[u8],
    path: &[u8],
    out: &mut [u8],
) -> Answer
    requires ready { Ready bytes.now prepared.now }
    requires text_ready { TextReady bytes.now (mode_side mode) text.now path.now }
    requires mode_value { keyed mode ≡ false }
    ensures { GivesMade bytes.now (λ l. reading mode l text.now) out.old out.new result }
{
    let mut result: [u8; Table::TEXT] = filled(0);
    let room = room_in(out.len());
    let made = &mut result[..room];
    let root = root_of(bytes);
    let wrote = emit(bytes, prepared, root, mode, 0, text, path, made);
    finish(wrote, made, out)
}
