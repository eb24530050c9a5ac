// Get and then put, by their exported forms.
ghost use Rattle.std.specs.Prelude.{length};
ghost use Rattle.semantics.specs.Calls.{get_call, put_call};
ghost use Rattle.semantics.specs.Tally.{put_tally};
ghost use Rattle.demands.specs.Demands.{LinkedMade, LinkedRestores};
ghost use Rattle.afresh.specs.Following.{LinkedHeld, LinkedFollows};

use arrays::filled;
use demands::LinkedCalls;
use noontrough::{Numbers, PutNumbers, noontrough_get, noontrough_put};

pub fn linked_get_then_put(table: &[u8], source: &[u8]) -> LinkedCalls
    ensures made { LinkedMade (get_call table.now source.now 4096) (λ a. put_call table.now a source.now 4096) (λ a. put_tally table.now a source.now) result }
    ensures demand { LinkedRestores table.now source.now result }
{
    let mut given: [u8; 4096] = filled(0);
    let mut again: [u8; 4096] = filled(0);
    let first = noontrough_get(table, source, &mut given);
    let second = linked_put_of(table, first, &given, source, &mut again);
    LinkedCalls {
        first,
        given,
        second,
        again,
    }
}

// Put of the sheet that get gave: number 0 says that it gave one.
fn linked_put_of(
    table: &[u8],
    first: Numbers,
    given: &[u8],
    source: &[u8],
    again: &mut [u8],
) -> PutNumbers
    requires { LinkedHeld given.now first }
    ensures { LinkedFollows given.now first (λ a. put_call table.now a source.now (length again.old)) (λ a. put_tally table.now a source.now) again.old again.new result }
{
    if first.number != 0 {
        return PutNumbers {
            number: first.number,
            node: first.node,
            length: 0,
            kept: 0,
            made: 0,
            dropped: 0,
        };
    }
    let length = first.length as usize;
    noontrough_put(table, &given[..length], source, again)
}
