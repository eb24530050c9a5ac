// The least path of a text, forward, as long as there is one way to go.
#![tactic(auto)]

ghost use Rattle.std.specs.Prelude.{◌≡◌, ◌<◌, length, IfSome, MatchOption};
ghost use Rattle.automaton.specs.Rows.{Room};
ghost use Rattle.walks.specs.Walking.{NoneReads, Lowest, Alone, Past, walk_at, DueBehind, StepsKept, Walked};

use arrays::filled;
use automaton::Automaton;
use positions::Set;

// A text of so many bytes is long enough for kept steps to be worth their room.
const LONG: usize = 256;

// How far a path has come: so many bytes are read, whether the text may end here, and at which positions the next byte can stand.
#[derive(Clone, Copy)]
pub struct Walk {
    pub at: usize,
    pub here: bool,
    pub set: Set,
}

// ---- One step

// The lowest of the positions at which the byte may stand.
pub fn lowest(prepared: &[u64], a: Automaton, due: Set, byte: u8) -> Option<usize>
    requires { Room a prepared.now }
    ensures { MatchOption result (NoneReads prepared.now a due byte) (Lowest prepared.now a due byte) }
{
    for p in due.below(a.count) {
        if automaton::stands(prepared, a.start + p, byte) {
            return Some(p);
        }
    }
    None
}

// The only one of the positions at which the byte may stand; `None` if there is none or more than one.
fn alone(prepared: &[u64], a: Automaton, due: Set, byte: u8) -> Option<usize>
    requires { Room a prepared.now }
    ensures { IfSome result (Alone prepared.now a due byte) }
{
    let mut found = None;
    for p in due.below(a.count) {
        if automaton::stands(prepared, a.start + p, byte) {
            if found.is_some() {
                return None;
            }
            found = Some(p);
        }
    }
    found
}

// The path comes past position p.
pub fn past(prepared: &[u64], a: Automaton, p: usize, at: usize) -> Walk
    requires room { Room a prepared.now }
    requires p_lt_count { p < a.count }
    ensures { Past prepared.now a p at result }
{
    Walk {
        at,
        here: a.last.has(p),
        set: automaton::follow(prepared, a.start + p),
    }
}

// ---- Forward, as long as there is one way to go

// A walk that has passed a position last, or none yet. So it is asked once, at the walk's end, whether the text may end there.
fn walk_at(a: Automaton, at: usize, passed: Option<usize>, set: Set) -> Walk
    ensures { result ≡ walk_at a at passed set }
{
    let here = match passed {
        None => a.nullable,
        Some(p) => a.last.has(p),
    };
    Walk { at, here, set }
}

// ---- Steps that are kept

// How many steps there is room for: one for each byte behind each of the first 32 positions.
const STEPS: usize = 8192;

// The only one of the positions at which the byte may stand, as `alone` tells it; `due` has those that may follow the position passed last. A step that was
// found stands behind that position, as a number that is one more, and is not asked for again.
// Kept by hand, and no `Option`: one of a byte takes twice the room, which is cleared for each long text.
fn step_alone(
    prepared: &[u64],
    a: Automaton,
    passed: Option<usize>,
    due: Set,
    byte: u8,
    steps: &mut [u8],
) -> Option<usize>
    requires room { Room a prepared.now }
    requires due_behind { DueBehind prepared.now a passed due }
    requires steps_kept { StepsKept prepared.now a steps.old }
    ensures { IfSome result (Alone prepared.now a due byte) × StepsKept prepared.now a steps.new }
{
    let Some(behind) = passed else {
        return alone(prepared, a, due, byte);
    };
    let i = 256 * behind + byte as usize;
    if steps.len() <= i {
        return alone(prepared, a, due, byte);
    }
    let kept = steps[i] as usize;
    if 0 < kept {
        return Some(kept - 1);
    }
    let p = alone(prepared, a, due, byte)?;
    steps[i] = (p + 1) as u8;
    Some(p)
}

// The path up to the first byte at which there is a choice, or none can be made.
fn walk_alone(
    prepared: &[u64],
    a: Automaton,
    text: &[u8],
    path: &mut [u8],
    steps: &mut [u8],
) -> Walk
    requires room { Room a prepared.now }
    requires path_len { length path.old ≡ length text.now }
    requires steps_kept { StepsKept prepared.now a steps.old }
    ensures { Walked prepared.now a text.now path.new result }
{
    let mut due = a.first;
    let mut passed = None;
    for (i, byte) in text.iter().enumerate() {
        let Some(p) = step_alone(prepared, a, passed, due, *byte, steps) else {
            return walk_at(a, i, passed, due);
        };
        path[i] = p as u8;
        passed = Some(p);
        due = automaton::follow(prepared, a.start + p);
    }
    walk_at(a, text.len(), passed, due)
}

// The same for a text that is long enough for kept steps to be worth their room.
fn walk_long(prepared: &[u64], a: Automaton, text: &[u8], path: &mut [u8]) -> Walk
    requires room { Room a prepared.now }
    requires path_len { length path.old ≡ length text.now }
    ensures { Walked prepared.now a text.now path.new result }
{
    let mut steps: [u8; STEPS] = filled(0);
    walk_alone(prepared, a, text, path, &mut steps)
}

// The path from the beginning of a text, up to the first choice.
pub fn walk_first(prepared: &[u64], a: Automaton, text: &[u8], path: &mut [u8]) -> Walk
    requires room { Room a prepared.now }
    requires path_len { length path.old ≡ length text.now }
    ensures { Walked prepared.now a text.now path.new result }
{
    if LONG <= text.len() {
        return walk_long(prepared, a, text, path);
    }
    // A short text would not earn the clearing of the room: an array has one number at least, and that is all.
    let mut none: [u8; 1] = filled(0);
    walk_alone(prepared, a, text, path, &mut none)
}
