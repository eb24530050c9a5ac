// The least path of a text through an automaton: forward as long as there is one way to go, and from the first choice on by the sets behind the text's bytes.
#![tactic(auto)]

ghost use Rattle.std.specs.Prelude.{◌≡◌, ◌+◌, ◌-◌, ◌*◌, ◌/◌, ◌≤◌, ◌<◌, length, take};
ghost use Rattle.automaton.specs.Rows.{Room};
ghost use Rattle.language.specs.Sets.{NoLeads, Leads};
ghost use Rattle.walks.specs.Walking.{Walked};
ghost use Rattle.paths.specs.Finding.{Filled, BehindAt, block_end, Marked, MarksRoom, WalkedTo, PathFound};

use arrays::filled;
use automaton::{Automaton, set_at};
use language::{LEADS, fill_leads, keep, step_back};
use positions::Set;
use table::Table;
use walks::{Walk, lowest, past, walk_first};

// The sets behind a text are kept block by block.
const BLOCK: usize = 256;

// A text that an automaton reads, with the leads that were found for it: those of all positions or none.
#[derive(Clone, Copy)]
struct Reading<'a> {
    prepared: &'a [u64],
    a: Automaton,
    leads: &'a [u64],
    text: &'a [u8],
    ghost room: { Room a prepared.now },
    ghost led: { Leads prepared.now a leads.now },
}

// Where a block of a text of so many bytes ends.
fn block_end(length: usize, k: usize) -> usize
    requires { 256 * k < length }
    ensures { result ≡ block_end length k }
{
    BLOCK * k + BLOCK.min(length - BLOCK * k)
}

impl Reading<'_> {
    // ---- Backward, block by block

    // The sets behind the bytes of a block are kept; the answer is the set behind what stands in front of it.
    fn fill_block(&self, start: usize, end: usize, behind: Set, sets: &mut [u64]) -> Set
        requires start_le_end { (start ≤ end) × (end ≤ length self.now.text.now) × (2 * (end - start) ≤ length sets.old) }
        requires behind_at { BehindAt self.now.prepared.now self.now.a self.now.text.now end behind }
        ensures { BehindAt self.now.prepared.now self.now.a self.now.text.now start result × Filled self.now.prepared.now self.now.a self.now.text.now start start end sets.new }
    {
        let mut set = behind;
        for i in (start..end).rev() {
            keep(sets, i - start, set);
            set = step_back(self.prepared, self.a, self.leads, set, self.text[i]);
        }
        set
    }

    // The set behind each block is kept, from block `first` on.
    fn mark_blocks(&self, first: usize, sets: &mut [u64], marks: &mut [u64])
        requires in_bounds { (512 ≤ length sets.old) × (2 * ((length self.now.text.now + 255) / 256) ≤ length marks.old) × (length self.now.text.now < 1048576) }
        ensures { Marked self.now.prepared.now self.now.a self.now.text.now first marks.new }
    {
        let mut behind = self.a.last;
        for k in (first..self.text.len().div_ceil(BLOCK)).rev() {
            keep(marks, k, behind);
            let end = block_end(self.text.len(), k);
            behind = self.fill_block(BLOCK * k, end, behind, sets);
        }
    }

    // ---- Forward again, by the sets that are kept

    // The path goes on to the end of a block: at each byte by the lowest position from which the rest can be read.
    fn walk_block(
        &self,
        start: usize,
        end: usize,
        sets: &[u64],
        walk: Walk,
        path: &mut [u8],
    ) -> Walk
        requires start_le_at { (start ≤ walk.at) × (walk.at ≤ end) × (end ≤ length self.now.text.now) × (2 * (end - start) ≤ length sets.now) }
        requires filled { Filled self.now.prepared.now self.now.a self.now.text.now start start end sets.now }
        requires path_len { length path.old ≡ length self.now.text.now }
        requires walked { Walked self.now.prepared.now self.now.a self.now.text.now path.old walk }
        ensures { WalkedTo self.now.prepared.now self.now.a self.now.text.now end path.new result }
    {
        let mut walk = walk;
        for i in walk.at..end {
            let may = walk.set.intersect(set_at(sets, 2 * (i - start)));
            let Some(p) = lowest(self.prepared, self.a, may, self.text[i]) else {
                return walk;
            };
            path[i] = p as u8;
            walk = past(self.prepared, self.a, p, i + 1);
        }
        walk
    }

    // The rest of the path, block by block. Kept by hand as a `while`: the walk tells how far it has come.
    fn walk_blocks(&self, walk: Walk, sets: &mut [u64], marks: &[u64], path: &mut [u8]) -> bool
        requires in_bounds { (512 ≤ length sets.old) × (2 * ((length self.now.text.now + 255) / 256) ≤ length marks.now) × (length self.now.text.now < 1048576) }
        requires path_len { length path.old ≡ length self.now.text.now }
        requires walked { Walked self.now.prepared.now self.now.a self.now.text.now path.old walk }
        requires marked { Marked self.now.prepared.now self.now.a self.now.text.now (walk.at / 256) marks.now }
        ensures { PathFound self.now.prepared.now self.now.a self.now.text.now path.new result }
    {
        let mut walk = walk;
        while walk.at < self.text.len() {
            let k = walk.at / BLOCK;
            let end = block_end(self.text.len(), k);
            let behind = set_at(marks, 2 * k);
            self.fill_block(BLOCK * k, end, behind, sets);
            walk = self.walk_block(BLOCK * k, end, sets, walk, path);
            if walk.at < end {
                return false;
            }
        }
        walk.here
    }

    // ---- From the first choice on

    // The rest of a path.
    fn choose(&self, walk: Walk, sets: &mut [u64], marks: &mut [u64], path: &mut [u8]) -> bool
        requires in_bounds { (512 ≤ length sets.old) × (2 * ((length self.now.text.now + 255) / 256) ≤ length marks.old) × (length self.now.text.now < 1048576) }
        requires path_len { length path.old ≡ length self.now.text.now }
        requires walked { Walked self.now.prepared.now self.now.a self.now.text.now path.old walk }
        ensures { PathFound self.now.prepared.now self.now.a self.now.text.now path.new result }
    {
        self.mark_blocks(walk.at / BLOCK, sets, marks);
        self.walk_blocks(walk, sets, marks, path)
    }

    // The same for a text of at most 4,096 bytes, with marks of its own.
    fn choose_short(&self, walk: Walk, sets: &mut [u64], path: &mut [u8]) -> bool
        requires in_bounds { (512 ≤ length sets.old) × (length self.now.text.now ≤ 4096) × (length path.old ≡ length self.now.text.now) }
        requires walked { Walked self.now.prepared.now self.now.a self.now.text.now path.old walk }
        ensures { PathFound self.now.prepared.now self.now.a self.now.text.now path.new result }
    {
        let mut marks: [u64; MARKS] = filled(0);
        self.choose(walk, sets, &mut marks, path)
    }

    // The same for a text of at most 256 bytes: what is left of it is one block, with no marks.
    fn choose_block(&self, walk: Walk, sets: &mut [u64], path: &mut [u8]) -> bool
        requires in_bounds { (512 ≤ length sets.old) × (length self.now.text.now ≤ 256) × (length path.old ≡ length self.now.text.now) }
        requires walked { Walked self.now.prepared.now self.now.a self.now.text.now path.old walk }
        ensures { PathFound self.now.prepared.now self.now.a self.now.text.now path.new result }
    {
        let start = walk.at;
        let end = self.text.len();
        self.fill_block(start, end, self.a.last, sets);
        let done = self.walk_block(start, end, sets, walk, path);
        end <= done.at && done.here
    }
}

// ---- Room for the sets

// How many numbers the sets behind the bytes of a block take.
const SETS: usize = 2 * BLOCK;

// How many those behind the blocks of a text of at most 4,096 bytes take.
const MARKS: usize = 32;

// The leads, where a text of so many bytes is long enough for them to be worth finding, else none: they cost at most the square of the positions,
// and without them each byte costs a question to every position, so it is from twice as many bytes as positions on.
fn find_leads<'a>(prepared: &[u64], a: Automaton, bytes: usize, leads: &'a mut [u64]) -> &'a [u64]
    requires room { Room a prepared.now }
    requires no_leads { NoLeads leads.old }
    ensures { Leads prepared.now a result.now }
{
    if bytes < 2 * a.count {
        return &leads[..0];
    }
    fill_leads(prepared, a, leads);
    leads
}

// ---- The path of a text

// The rest of a path, by the length of the text. The rooms for sets and leads are cleared here, so that a text without a choice does not pay for it.
fn choose_way(
    prepared: &[u64],
    a: Automaton,
    text: &[u8],
    walk: Walk,
    marks: &mut [u64],
    path: &mut [u8],
) -> bool
    requires room { Room a prepared.now }
    requires marks_room { MarksRoom text.now marks.old }
    requires path_len { length path.old ≡ length text.now }
    requires walked { Walked prepared.now a text.now path.old walk }
    ensures { PathFound prepared.now a text.now path.new result }
{
    let mut sets: [u64; SETS] = filled(0);
    let mut room: [u64; LEADS] = filled(0);
    let reading = Reading {
        prepared,
        a,
        leads: find_leads(prepared, a, text.len(), &mut room),
        text,
    };
    if text.len() <= BLOCK {
        return reading.choose_block(walk, &mut sets, path);
    }
    if text.len() <= Table::TEXT {
        return reading.choose_short(walk, &mut sets, path);
    }
    reading.choose(walk, &mut sets, marks, path)
}

// Whether the text belongs, and its least path if it does. Only a text with choices needs sets of its blocks, and room is lent for those of a long one.
pub fn find_path(
    prepared: &[u64],
    a: Automaton,
    text: &[u8],
    marks: &mut [u64],
    path: &mut [u8],
) -> bool
    requires room { Room a prepared.now }
    requires marks_room { MarksRoom text.now marks.old }
    requires path_len { length path.old ≡ length text.now }
    ensures { PathFound prepared.now a text.now path.new result }
{
    let walk = walk_first(prepared, a, text, path);
    if walk.at == text.len() {
        return walk.here;
    }
    choose_way(prepared, a, text, walk, marks, path)
}
