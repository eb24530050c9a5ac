// The bytes of the text, from the front: each the lowest by which a pair of the next layer can be reached from those that the text so far leads to.
#![tactic(auto)]

ghost use Rattle.std.specs.Prelude.{◌≡◌, true, ◌↔◌, ℕ, ◌≤◌, ◌<◌, length, get_or};
ghost use Rattle.clash.specs.Clash.{Given};
ghost use Rattle.search.specs.Graph.{Accepts};
ghost use Rattle.search.specs.Pairs.{held_in, pair_in, left_row, right_row, PatchFits, QuestFits, PairRoom};
ghost use Rattle.search.specs.Searches.{graph_at};
ghost use Rattle.spelling.specs.Texts.{comes_at, LowerByte, LowestByte, Among, Marked, NoneAlive, EntriesRoom, WrittenOut};

use automaton::{first_shared, set_at, stands};
use language::keep;
use positions::Set;
use search::patches::{Patch, Quest};
use search::searches::Search;

// Where the positions of a pair have their rows in the prepared program.
#[derive(Clone, Copy)]
struct Rows {
    left: usize,
    right: usize,
}

fn rows_of(prepared: &[u64], quest: &Quest, pair: usize) -> Rows
    requires { PairRoom prepared.now quest.now pair }
    ensures { (result.left ≡ left_row quest.now pair) × (result.right ≡ right_row quest.now pair) }
{
    let row = pair / 128;
    let column = pair % 128;
    if row < 128 {
        return Rows {
            left: quest.part.start + row,
            right: quest.part.start + column,
        };
    }
    Rows {
        left: quest.whole.start + (row - 128),
        right: quest.rest.start + column,
    }
}

// Whether a pair of the patch is alive, by the table of 256 rows that begins at `table`.
fn some_alive(alive: &[u64], table: usize, patch: Patch) -> bool
    requires { (length alive.now ≡ 1024) × (table ≤ 256) × PatchFits patch }
    ensures { (result ≡ true) ↔ ((pair : ℕ) × (held_in alive.now table pair ≡ true) × (pair_in patch pair ≡ true)) }
{
    for p in patch.rows.below(Set::SIZE) {
        if set_at(alive, 2 * (table + patch.base + p)).meets(patch.columns) {
            return true;
        }
    }
    false
}

// Whether byte i of the text can lead to a pair: the first one begins there, any other comes from a pair that is alive. The tables of two bytes that follow each
// other are kept apart.
fn may_come(search: Search, alive: &[u64], i: usize, pair: usize) -> bool
    requires { (length alive.now ≡ 1024) × (pair < 32768) }
    ensures { (result ≡ true) ↔ comes_at search.entry alive.now i pair }
{
    if i == 0 {
        return search.quest.begins(pair);
    }
    let row = pair / 128;
    let column = pair % 128;
    let table = 256 * ((i - 1) % 2);
    some_alive(alive, table, search.before(row, column))
        || some_alive(alive, table, search.linked(row, column))
}

// The lower one of a byte and the lowest by which the text can go on to a pair.
// Kept by hand: 256 is no byte in the clauses `LowerByte`, `LowestByte` and automaton's `FirstShared`, and a bound for every byte.
fn lower_byte(
    prepared: &[u64],
    search: Search,
    alive: &[u64],
    i: usize,
    pair: usize,
    lowest: usize,
) -> usize
    requires alive_len { length alive.now ≡ 1024 }
    requires pair_bound { (pair < 32768) × (lowest ≤ 256) × PairRoom prepared.now search.quest.now pair }
    ensures { LowerByte (graph_at prepared.now search.entry) (comes_at search.entry alive.now i) pair lowest result }
{
    let at = rows_of(prepared, search.quest, pair);
    let byte = first_shared(prepared, at.left, at.right);
    if byte < lowest && may_come(search, alive, i, pair) {
        byte
    } else {
        lowest
    }
}

// The lowest byte by which the text can go on to one of the pairs of a layer; 256 if there is none.
fn lowest_byte(prepared: &[u64], search: Search, alive: &[u64], i: usize, layer: &[u16]) -> usize
    requires alive_len { length alive.now ≡ 1024 }
    requires layer_room { EntriesRoom prepared.now search.quest.now layer.now (length layer.now) }
    ensures { LowestByte (graph_at prepared.now search.entry) (comes_at search.entry alive.now i) layer.now result }
{
    let mut lowest = 256;
    for &pair in layer {
        lowest = lower_byte(prepared, search, alive, i, pair as usize, lowest);
    }
    lowest
}

// A pair is alive if the text can go on to it by that byte.
fn mark(prepared: &[u64], search: Search, alive: &mut [u64], i: usize, pair: usize, byte: u8)
    requires alive_len { length alive.old ≡ 1024 }
    requires pair_bound { (pair < 32768) × PairRoom prepared.now search.quest.now pair }
    ensures { Marked (graph_at prepared.now search.entry) (comes_at search.entry alive.old i) (λ k. k ≡ pair) i byte alive.old alive.new }
{
    let at = rows_of(prepared, search.quest, pair);
    if stands(prepared, at.left, byte)
        && stands(prepared, at.right, byte)
        && may_come(search, &*alive, i, pair)
    {
        let row = 256 * (i % 2) + pair / 128;
        let marked = set_at(&*alive, 2 * row);
        keep(alive, row, marked.with(pair % 128));
    }
}

// Of the pairs of a layer those are alive to which the text can go on by that byte.
fn mark_layer(
    prepared: &[u64],
    search: Search,
    alive: &mut [u64],
    i: usize,
    layer: &[u16],
    byte: u8,
)
    requires alive_len { length alive.old ≡ 1024 }
    requires layer_room { EntriesRoom prepared.now search.quest.now layer.now (length layer.now) }
    ensures { Marked (graph_at prepared.now search.entry) (comes_at search.entry alive.old i) (Among layer.now) i byte alive.old alive.new }
{
    for &pair in layer {
        mark(prepared, search, alive, i, pair as usize, byte);
    }
}

// The text, which has one byte for each layer.
pub fn write_text(
    prepared: &[u64],
    search: Search,
    order: &[u16],
    starts: &[u16],
    alive: &mut [u64],
    out: &mut [u8],
)
    requires quest_fits { QuestFits search.quest.now }
    requires none_alive { NoneAlive alive.old }
    requires out_in_bounds { (length out.old < length starts.now) × EntriesRoom prepared.now search.quest.now order.now (get_or starts.now (length out.old) 0) }
    requires written_out { WrittenOut (graph_at prepared.now search) order.now starts.now (length out.old) }
    ensures { Given (Accepts (graph_at prepared.now search.entry)) out.new }
{
    let length = out.len();
    for i in 0..length {
        let from = starts[length - 1 - i] as usize;
        let to = starts[length - i] as usize;
        let layer = &order[from..to];
        let byte = lowest_byte(prepared, search, &*alive, i, layer) as u8;
        out[i] = byte;
        mark_layer(prepared, search, alive, i, layer, byte);
    }
}
