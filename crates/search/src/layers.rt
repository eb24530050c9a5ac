// The pairs by their distance from the end: layer after layer, until a pair comes up by which a text begins.
ghost use Rattle.std.specs.Prelude.{◌≡◌, true, ◌↔◌, List, ℕ, ◌+◌, ◌≤◌, ◌<◌, length, get_or};
ghost use Rattle.semantics.specs.Text.{Text};
ghost use Rattle.search.specs.Graph.{Accepts};
ghost use Rattle.search.specs.Pairs.{begins_in, QuestFits};
ghost use Rattle.search.specs.Searches.{graph_at};
ghost use Rattle.search.specs.Queue.{Queue};
ghost use Rattle.search.specs.Layers.{AllFresh, Filled};

use crate::patches::Quest;
use crate::queue::{take_patch, visit_layer};
use crate::searches::Search;

// Whether a text begins by one of the pairs of a layer.
fn some_begins(quest: &Quest, layer: &[u16]) -> bool
    ensures { (result ≡ true) ↔ ((i : ℕ) × (i < length layer.now) × (begins_in quest.now (get_or layer.now i 0) ≡ true)) }
{
    layer.iter().any(|&pair| quest.begins(pair as usize))
}

// The layers, each from one of `starts` to before the next, and the number of the first one with a pair by which a text begins: so many bytes follow
// such a pair.
pub fn fill_layers(
    search: Search,
    order: &mut [u16],
    fresh: &mut [u64],
    starts: &mut [u16],
) -> usize
    requires quest_fits { QuestFits search.quest.now }
    requires queue { Queue order.old fresh.old 0 }
    requires order_len_bound { (length order.old ≤ 32768) × (length order.old + 2 ≤ length starts.old) }
    ensures { (prepared : List ℕ) → AllFresh (graph_at prepared search.entry) order.old fresh.old → (t : Text) → Accepts (graph_at prepared search.entry) t → Filled (graph_at prepared search.entry) order.new starts.new result }
{
    let mut from = 0;
    let mut to = take_patch(order, fresh, 0, search.quest.goal);
    let mut depth = 0;
    starts[0] = 0;
    starts[1] = to as u16;
    while from < to && !some_begins(search.quest, &order[from..to]) {
        let next = visit_layer(search, order, fresh, from, to);
        from = to;
        to = next;
        depth += 1;
        starts[depth + 1] = to as u16;
    }
    depth
}
