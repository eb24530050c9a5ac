// The one way into the rooms. A call is tried in a small one and, where its program does not fit, in the next: so it takes the stack that its program
// needs. What is added for a call is an arm of `answer_with`.
ghost use Rattle.std.specs.Prelude.{◌≤◌, length};
ghost use Rattle.semantics.specs.Text.{Text};
ghost use Rattle.answers.specs.Answers.{Ready, IsRefused};
ghost use Rattle.engine.specs.Rooms.{Owes, Tries};

use answers::results::{clashed, uncounted};
use answers::{Hindrance, Reply, check_in};
use arrays::filled;
use calls::put::put_with;
use clashes::clash_refused;
use readings::line::line_with;
use readings::reading::{create_with, get_with};
use table::parts::node_count;
use table::{Refusal, Table};

// What is asked of an accepted program.
#[derive(Clone, Copy)]
pub enum Call {
    Check,
    Get,
    Put,
    Create,
    // the line that `lenscheck` prints
    Line,
    Clash,
}

// The rooms: the numbers of a program's nodes, and three for each row that its automata may take. Those are 128, 2,048, and as many as any program has, with
// both sides of all nodes and all their positions.
const SMALL: usize = Table::ROWS + 3 * 128;

const MIDDLE: usize = Table::ROWS + 3 * 2048;

const FULL: usize = Table::ROWS + 3 * (2 * Table::NODES * Table::POSITIONS);

// What a call does with an accepted and prepared program.
fn answer_with(
    call: Call,
    bytes: &[u8],
    prepared: &[u64],
    sheet: &[u8],
    source: &[u8],
    out: &mut [u8],
) -> Reply
    requires { Ready bytes.now prepared.now }
    ensures { Owes call bytes.now sheet.now source.now out.old out.new result }
{
    match call {
        Call::Check => {
            let length = node_count(bytes);
            uncounted(Ok(length))
        }
        Call::Get => uncounted(get_with(bytes, prepared, source, out)),
        Call::Put => put_with(bytes, prepared, sheet, source, out),
        Call::Create => uncounted(create_with(bytes, prepared, sheet, out)),
        Call::Line => uncounted(line_with(bytes, prepared, out)),
        Call::Clash => clashed(Ok(None)),
    }
}

// What a call does with a refused program: Clash shows why, and to every other call the program is refused.
fn refuse_with(
    call: Call,
    refusal: Refusal,
    bytes: &[u8],
    prepared: &[u64],
    out: &mut [u8],
) -> Reply
    requires { IsRefused bytes.now prepared.now refusal.number refusal.node }
    ensures { (sheet source : Text) → Owes call bytes.now sheet source out.old out.new result }
{
    match call {
        Call::Clash => clashed(clash_refused(bytes, prepared, refusal, out)),
        _ => uncounted(Err(refusal)),
    }
}

// A call in the slice that is lent for its program, unless the program does not fit. A program that is refused is refused to every call.
fn try_in(
    call: Call,
    bytes: &[u8],
    prepared: &mut [u64],
    sheet: &[u8],
    source: &[u8],
    out: &mut [u8],
) -> Option<Reply>
    requires { 1536 ≤ length prepared.old }
    ensures { Tries (length prepared.old) call bytes.now sheet.now source.now out.old out.new result }
{
    match check_in(bytes, prepared) {
        Ok(()) => Some(answer_with(call, bytes, prepared, sheet, source, out)),
        Err(Hindrance::Refused(refusal)) => {
            Some(refuse_with(call, refusal, bytes, prepared, out))
        }
        Err(Hindrance::Small) => None,
    }
}

// The same in a room of so many numbers. It is never made a part of its caller, so that two rooms never lie on the stack together.
#[inline(never)]
fn try_in_room<const NUMBERS: usize>(
    call: Call,
    bytes: &[u8],
    sheet: &[u8],
    source: &[u8],
    out: &mut [u8],
) -> Option<Reply>
    requires { (1536 ≤ NUMBERS) × (NUMBERS ≤ 75264) }
    ensures { Tries NUMBERS call bytes.now sheet.now source.now out.old out.new result }
{
    let mut prepared = filled::<u64, NUMBERS>(0);
    try_in(call, bytes, &mut prepared, sheet, source, out)
}

// A call in a small room or, where its program does not fit, in a larger one.
pub fn answer_in(call: Call, bytes: &[u8], sheet: &[u8], source: &[u8], out: &mut [u8]) -> Reply
    ensures { Owes call bytes.now sheet.now source.now out.old out.new result }
{
    if let Some(reply) = try_in_room::<SMALL>(call, bytes, sheet, source, out) {
        return reply;
    }
    if let Some(reply) = try_in_room::<MIDDLE>(call, bytes, sheet, source, out) {
        return reply;
    }
    // every program fits the full room
    try_in_room::<FULL>(call, bytes, sheet, source, out).unwrap()
}
