// Put, and then the new source read afresh: get of it, and that sheet put back on it, which keeps each of its entries.
ghost use Rattle.afresh.specs.Counting.{ReadMade, CountsAfresh};

use crate::linked::linked_get_then_put;
use arrays::filled;
use demands::LinkedCalls;
use noontrough::{PutNumbers, noontrough_put};

// The numbers of put and its whole buffer afterwards, and the calls that read the new source.
#[derive(Clone, Copy)]
pub struct ReadAfresh {
    pub first: PutNumbers,
    pub given: [u8; 4096],
    pub afresh: LinkedCalls,
}

// Where put refuses, its length is 0, and the text of no bytes is read.
pub fn put_then_read(table: &[u8], sheet: &[u8], source: &[u8]) -> ReadAfresh
    ensures made { ReadMade table.now sheet.now source.now result }
    ensures demand { CountsAfresh table.now source.now result }
{
    let mut given: [u8; 4096] = filled(0);
    let first = noontrough_put(table, sheet, source, &mut given);
    let length = first.length as usize;
    let afresh = linked_get_then_put(table, &given[..length]);
    ReadAfresh {
        first,
        given,
        afresh,
    }
}
