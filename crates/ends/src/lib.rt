// The two smallest ends that the first half can have in a cut of a text: a pass backward flags each place from which the rest belongs to the second
// half, a pass forward finds the first two flagged places in front of which the text belongs to the first half.
#![tactic(auto)]

ghost use Rattle.std.specs.Prelude.{◌≡◌, true, ◌&&◌, ◌+◌, ◌<◌, eqb, length};
ghost use Rattle.semantics.specs.Pattern.{Pattern};
ghost use Rattle.clash.specs.Clash.{cut_twice, first_end, second_end};
ghost use Rattle.automaton.specs.Rows.{Room, Describes};
ghost use Rattle.language.specs.Sets.{Leads};
ghost use Rattle.ends.specs.Places.{Retreated, flagged, Flagged, ReadTo, NextEnd, TwoEnds};

use arrays::filled;
use automaton::Automaton;
use language::{LEADS, Run, advance, fill_leads, standing, step_back};
use positions::Set;

// The two smallest ends that the first half can have in a cut of a text.
#[derive(Clone, Copy)]
pub struct Ends {
    pub first: usize,
    pub second: usize,
}

// A place of a text, with the run over what stands in front of it.
#[derive(Clone, Copy)]
struct Place {
    at: usize,
    run: Run,
}

// ---- Backward

// One byte backward: whether the text belongs with the byte in front of it, and the positions behind which it may then stand.
fn retreat(prepared: &[u64], b: Automaton, leads: &[u64], behind: Set, byte: u8) -> Run
    requires room { Room b prepared.now }
    requires leads { Leads prepared.now b leads.now }
    ensures { Retreated prepared.now b byte behind result }
{
    let here = standing(prepared, b, behind, byte);
    Run {
        here: b.first.meets(here),
        set: step_back(prepared, b, leads, behind, byte),
    }
}

// The flag of each place tells whether the rest of the text belongs.
fn flag_rests(prepared: &[u64], b: Automaton, leads: &[u64], text: &[u8], flags: &mut [u8])
    requires room { Room b prepared.now }
    requires leads { Leads prepared.now b leads.now }
    requires text_in_bounds { length text.now < length flags.old }
    ensures { Flagged prepared.now b text.now 0 flags.new }
{
    let mut behind = b.last;
    flags[text.len()] = u8::from(b.nullable);
    for i in (0..text.len()).rev() {
        let run = retreat(prepared, b, leads, behind, text[i]);
        flags[i] = u8::from(run.here);
        behind = run.set;
    }
}

// ---- Forward

// Whether the first half may end at the place.
fn may_end(place: Place, flags: &[u8]) -> bool
    requires { place.at < length flags.now }
    ensures { result ≡ (place.run.here && flagged flags.now place.at) }
{
    place.run.here && flags[place.at] == 1
}

// The next place.
fn pass(prepared: &[u64], a: Automaton, text: &[u8], place: Place) -> Place
    requires room { Room a prepared.now }
    requires at_in_bounds { place.at < length text.now }
    requires read_to { ReadTo prepared.now a text.now place }
    ensures { (result.at ≡ place.at + 1) × ReadTo prepared.now a text.now result }
{
    Place {
        at: place.at + 1,
        run: advance(prepared, a, place.run, text[place.at]),
    }
}

// The first place from a given one on at which the first half may end; the text's length where it may end at none before.
// Kept by hand as a `while`: the place itself counts.
fn next_end(prepared: &[u64], a: Automaton, text: &[u8], flags: &[u8], from: Place) -> Place
    requires room { Room a prepared.now }
    requires text_in_bounds { length text.now < length flags.now }
    requires read_to { ReadTo prepared.now a text.now from }
    ensures { ReadTo prepared.now a text.now result × NextEnd prepared.now a text.now flags.now from.at result.at }
{
    let mut place = from;
    while place.at < text.len() {
        if may_end(place, flags) {
            return place;
        }
        place = pass(prepared, a, text, place);
    }
    place
}

// The first place at which the first half may end, and the first behind it.
fn two_ends(prepared: &[u64], a: Automaton, text: &[u8], flags: &[u8]) -> Ends
    requires room { Room a prepared.now }
    requires text_in_bounds { length text.now < length flags.now }
    ensures { TwoEnds prepared.now a text.now flags.now result }
{
    let run = Run {
        here: a.nullable,
        set: a.first,
    };
    let place = next_end(prepared, a, text, flags, Place { at: 0, run });
    let first = place.at;
    if text.len() <= first {
        return Ends {
            first,
            second: first,
        };
    }
    let behind = pass(prepared, a, text, place);
    let other = next_end(prepared, a, text, flags, behind);
    Ends {
        first,
        second: other.at,
    }
}

// The two smallest ends of a text that has two. The flags have room for one for each place of the text, one more than its bytes.
pub fn ends_of(prepared: &[u64], a: Automaton, b: Automaton, text: &[u8], flags: &mut [u8]) -> Ends
    requires room { Room a prepared.now }
    requires room_2 { Room b prepared.now }
    requires text_in_bounds { length text.now < length flags.old }
    ensures { (r s : Pattern) → Describes r a prepared.now → Describes s b prepared.now → cut_twice r s text.now ≡ true → (result.first ≡ first_end r s text.now) × (result.second ≡ second_end r s text.now) }
{
    let mut leads: [u64; LEADS] = filled(0);
    fill_leads(prepared, b, &mut leads);
    flag_rests(prepared, b, &leads, text, flags);
    two_ends(prepared, a, text, flags)
}
