// What is searched for to show that a rule is broken, and the search with its tables.
#![tactic(auto)]

ghost use Rattle.std.specs.Prelude.{◌≡◌, Bool, ◌+◌, ◌*◌, ◌≤◌, length};
ghost use Rattle.semantics.specs.Text.{Text};
ghost use Rattle.automaton.specs.Rows.{Room};
ghost use Rattle.search.specs.Pairs.{QuestFits};
ghost use Rattle.quests.specs.Quests.{cut_quest, arm_quest, Rooms, Cleared, Opened, Tables, FreshIn, Asks, Answerable, Hunted};

use arrays::filled;
use automaton::Automaton;
use language::{fill_leads, keep};
use pairs::sharing;
use positions::Set;
use search::layers::fill_layers;
use search::patches::{Patch, Quest};
use search::searches::Search;
use spelling::write_text;

// The set of no positions. Kept by hand: the definition `no_set` names this value, and `Set::empty` promises only that nothing is held.
const NONE: Set = Set { low: 0, high: 0 };

// A text with two cuts: both readings begin in the part, or the first one at once in the rest where the part may be empty.
pub fn cut_quest(part: Automaton, whole: Automaton, rest: Automaton) -> Quest
    ensures { result ≡ cut_quest part whole rest }
{
    let opening = if part.nullable { part.first } else { NONE };
    Quest {
        part,
        whole,
        rest,
        last: part.last,
        first: rest.first,
        early: Patch {
            base: 0,
            rows: part.first,
            columns: part.first,
        },
        late: Patch {
            base: 128,
            rows: opening,
            columns: rest.first,
        },
        goal: Patch {
            base: 128,
            rows: whole.last,
            columns: rest.last,
        },
    }
}

// A text of both arms: the late pairs alone, by the first arm as the whole and the second as the rest.
pub fn arm_quest(left: Automaton, right: Automaton) -> Quest
    ensures { result ≡ arm_quest left right }
{
    Quest {
        part: left,
        whole: left,
        rest: right,
        last: NONE,
        first: NONE,
        early: Patch {
            base: 0,
            rows: NONE,
            columns: NONE,
        },
        late: Patch {
            base: 128,
            rows: left.first,
            columns: right.first,
        },
        goal: Patch {
            base: 128,
            rows: left.last,
            columns: right.last,
        },
    }
}

// From row `base` on: for each position of the first automaton those of the second that share a byte with it.
fn open_rows(prepared: &[u64], a: Automaton, b: Automaton, base: usize, fresh: &mut [u64])
    requires room { (Room a prepared.now) × (Room b prepared.now) }
    requires base_bound { (base ≤ 128) × (length fresh.old ≡ 512) }
    ensures { Opened prepared.now a b base a.count fresh.old fresh.new }
{
    for x in 0..a.count {
        keep(fresh, base + x, sharing(prepared, a.start + x, b));
    }
}

// For each position those that it may follow: the part's, the whole's and the rest's, 128 sets each.
fn fill_tables(prepared: &[u64], quest: &Quest, leads: &mut [u64])
    requires rooms { Rooms prepared.now quest.now }
    requires cleared { Cleared 768 leads.old }
    ensures { Tables prepared.now quest.now leads.new }
{
    fill_leads(prepared, quest.part, &mut leads[0..256]);
    fill_leads(prepared, quest.whole, &mut leads[256..512]);
    fill_leads(prepared, quest.rest, &mut leads[512..768]);
}

// All pairs that share a byte are fresh.
fn fill_fresh(prepared: &[u64], quest: &Quest, fresh: &mut [u64])
    requires rooms { Rooms prepared.now quest.now }
    requires cleared { Cleared 512 fresh.old }
    ensures { FreshIn prepared.now quest.now fresh.new }
{
    open_rows(prepared, quest.part, quest.part, 0, fresh);
    open_rows(prepared, quest.whole, quest.rest, 128, fresh);
}

// The length of the text that is searched for and, if the buffer is long enough, the text at its start. The order and its starts are lent: there is
// room in them for all pairs of positions.
pub fn hunt(
    prepared: &[u64],
    quest: &Quest,
    order: &mut [u16],
    starts: &mut [u16],
    out: &mut [u8],
) -> usize
    requires rooms { Rooms prepared.now quest.now }
    requires answerable { QuestFits quest.now × Answerable prepared.now quest.now }
    requires count_in_bounds { (quest.now.part.count * quest.now.part.count + quest.now.whole.count * quest.now.rest.count ≤ length order.old) × (length order.old ≤ 32768) × (length order.old + 2 ≤ length starts.old) }
    ensures { (test : Text → Bool) → Asks prepared.now quest.now test → Hunted test out.old out.new result }
{
    let mut leads = filled::<u64, 768>(0);
    let mut fresh = filled::<u64, 512>(0);
    fill_tables(prepared, quest, &mut leads);
    fill_fresh(prepared, quest, &mut fresh);
    let search = Search {
        quest,
        leads: &leads,
    };
    let length = fill_layers(search, order, &mut fresh, starts) + 1;
    if out.len() < length {
        return length;
    }
    let mut alive = filled::<u64, 1024>(0);
    let text = &mut out[0..length];
    write_text(prepared, search, order, starts, &mut alive, text);
    length
}
