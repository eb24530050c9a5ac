// Room for the search, by the number of pairs of positions.
ghost use Rattle.std.specs.Prelude.{◌≡◌, Bool, ◌+◌, ◌*◌, ◌≤◌};
ghost use Rattle.semantics.specs.Text.{Text};
ghost use Rattle.search.specs.Pairs.{QuestFits};
ghost use Rattle.quests.specs.Quests.{Rooms, Asks, Answerable, Hunted};

use arrays::filled;
use quests::hunt;
use search::patches::Quest;

// Room for few pairs, or for as many as there can be, and for the starts of their layers, of which there are two more.
const FEW_PAIRS: usize = 2048;

const FEW_STARTS: usize = 2050;

const ALL_PAIRS: usize = 32768;

const ALL_STARTS: usize = 32770;

// The search in room for so many pairs. It is never made a part of its caller, so that the arrays of two rooms never lie on the stack together.
#[inline(never)]
fn find_in<const PAIRS: usize, const STARTS: usize>(
    prepared: &[u64],
    quest: &Quest,
    out: &mut [u8],
) -> usize
    requires rooms { Rooms prepared.now quest.now }
    requires answerable { QuestFits quest.now × Answerable prepared.now quest.now }
    requires count_bound { (quest.now.part.count * quest.now.part.count + quest.now.whole.count * quest.now.rest.count ≤ PAIRS) × (PAIRS ≤ 32768) × (PAIRS + 2 ≡ STARTS) }
    ensures { (test : Text → Bool) → Asks prepared.now quest.now test → Hunted test out.old out.new result }
{
    let mut order = filled::<u16, PAIRS>(0);
    let mut starts = filled::<u16, STARTS>(0);
    hunt(prepared, quest, &mut order, &mut starts, out)
}

// The search in the room that its pairs need.
pub fn find(prepared: &[u64], quest: &Quest, out: &mut [u8]) -> usize
    requires rooms { Rooms prepared.now quest.now }
    requires answerable { QuestFits quest.now × Answerable prepared.now quest.now }
    ensures { (test : Text → Bool) → Asks prepared.now quest.now test → Hunted test out.old out.new result }
{
    let pairs = quest.part.count * quest.part.count + quest.whole.count * quest.rest.count;
    if pairs <= FEW_PAIRS {
        return find_in::<FEW_PAIRS, FEW_STARTS>(prepared, quest, out);
    }
    find_in::<ALL_PAIRS, ALL_STARTS>(prepared, quest, out)
}
