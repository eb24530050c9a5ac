// The position automaton, run over a text: forward, for whether the text belongs to the language, and backward by one byte.
#![tactic(auto)]

ghost use Rattle.std.specs.Prelude.{◌≡◌, true, ◌+◌, ◌*◌, ◌≤◌, ◌<◌, length};
ghost use Rattle.semantics.specs.Pattern.{Pattern, matches};
ghost use Rattle.positions.specs.Positions.{holds};
ghost use Rattle.automaton.specs.Rows.{Room, Describes, follow_of};
ghost use Rattle.language.specs.Sets.{Gathered, Grown, Standing, Onward, Back, Meeting, Stored, NoLeads, LedFrom, Leads};
ghost use Rattle.language.specs.Runs.{Stepped, Advanced, SteppedBack};

use automaton::{Automaton, set_at};
use positions::Set;

// A run over a text: whether the part that was read belongs, and the positions by which it can go on.
#[derive(Clone, Copy)]
pub struct Run {
    pub here: bool,
    pub set: Set,
}

// A byte that is read: the positions at which it stands, and those that may follow them.
#[derive(Clone, Copy)]
struct Step {
    reached: Set,
    onward: Set,
}

// The step that reads a byte at those of the positions at which it may stand.
fn read(prepared: &[u64], a: Automaton, due: Set, byte: u8) -> Step
    requires { Room a prepared.now }
    ensures { Stepped prepared.now a due byte a.count result }
{
    let mut reached = Set::empty();
    let mut onward = Set::empty();
    for p in due.below(a.count) {
        let row = a.start + p;
        if automaton::stands(prepared, row, byte) {
            reached = reached.with(p);
            onward = automaton::follow(prepared, row).union(onward);
        }
    }
    Step { reached, onward }
}

// One byte forward.
pub fn advance(prepared: &[u64], a: Automaton, run: Run, byte: u8) -> Run
    requires { Room a prepared.now }
    ensures { Advanced prepared.now a byte run result }
{
    let step = read(prepared, a, run.set, byte);
    Run {
        here: step.reached.meets(a.last),
        set: step.onward,
    }
}

// ---- The sets of the positions that a position may follow

// A set is kept, in two numbers.
pub fn keep(sets: &mut [u64], i: usize, set: Set)
    requires { 2 * i + 2 ≤ length sets.old }
    ensures { Stored sets.old i set sets.new }
{
    sets[2 * i] = set.low;
    sets[2 * i + 1] = set.high;
}

// How many numbers a set for each position takes, two each.
pub const LEADS: usize = 2 * Set::SIZE;

// Position q is added to the sets of those that may follow it.
fn lead_from(prepared: &[u64], a: Automaton, q: usize, leads: &mut [u64])
    requires room { Room a prepared.now }
    requires q_lt_count { (q < a.count) × (256 ≤ length leads.old) }
    ensures { LedFrom a.count (follow_of prepared.now (a.start + q)) q a.count leads.old leads.new }
{
    let next = automaton::follow(prepared, a.start + q);
    for p in next.below(a.count) {
        let led = set_at(leads, 2 * p);
        keep(leads, p, led.with(q));
    }
}

// For each position, the set of those that it may follow. A row has no such set, since every call has the rows on its stack; so the sets are
// found where a text is long enough to need them, for the automaton at hand.
pub fn fill_leads(prepared: &[u64], a: Automaton, leads: &mut [u64])
    requires room { Room a prepared.now }
    requires no_leads { NoLeads leads.old }
    ensures { Leads prepared.now a leads.new }
{
    for q in 0..a.count {
        lead_from(prepared, a, q, leads);
    }
}

// ---- One byte backward

// Those of the positions at which the byte may stand.
pub fn standing(prepared: &[u64], a: Automaton, due: Set, byte: u8) -> Set
    requires { Room a prepared.now }
    ensures { Gathered (Standing prepared.now a due byte) a.count result }
{
    let mut set = Set::empty();
    for p in due.below(a.count) {
        if automaton::stands(prepared, a.start + p, byte) {
            set = set.with(p);
        }
    }
    set
}

// A step back by the follow sets: every position is asked whether one at which the byte stands may follow it.
fn step_back_asking(prepared: &[u64], a: Automaton, behind: Set, byte: u8) -> Set
    requires { Room a prepared.now }
    ensures { SteppedBack prepared.now a byte behind result }
{
    let here = standing(prepared, a, behind, byte);
    if here.is_empty() {
        return here;
    }
    let mut set = Set::empty();
    for q in 0..a.count {
        let next = automaton::follow(prepared, a.start + q);
        if next.meets(here) {
            set = set.with(q);
        }
    }
    set
}

// The positions behind which a text may stand, once a byte is put in front of it.
pub fn step_back(prepared: &[u64], a: Automaton, leads: &[u64], behind: Set, byte: u8) -> Set
    requires room { Room a prepared.now }
    requires leads { Leads prepared.now a leads.now }
    ensures { SteppedBack prepared.now a byte behind result }
{
    if leads.len() < LEADS {
        return step_back_asking(prepared, a, behind, byte);
    }
    let mut set = Set::empty();
    for p in behind.below(a.count) {
        if automaton::stands(prepared, a.start + p, byte) {
            set = set_at(leads, 2 * p).union(set);
        }
    }
    set
}

// ---- Forward over a whole text

// Whether the text belongs.
pub fn belongs(prepared: &[u64], a: Automaton, text: &[u8]) -> bool
    requires { Room a prepared.now }
    ensures { (r : Pattern) → Describes r a prepared.now → result ≡ matches r text.now }
{
    let mut run = Run {
        here: a.nullable,
        set: a.first,
    };
    for byte in text {
        if run.set.is_empty() {
            return false;
        }
        run = advance(prepared, a, run, *byte);
    }
    run.here
}
