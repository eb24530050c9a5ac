// The first round: a node's turn, and what it leaves in the prepared program.
ghost use Rattle.std.specs.Prelude.{◌≡◌, ◌+◌, ◌*◌, ◌<◌, length};
ghost use Rattle.table.specs.Rules.{SizedBelow, Smalls, Turned, Stored, nests, over_limits};

use crate::operands::Operands;
use crate::parts::kind_byte;
use crate::rules::keeps;
use crate::sizes::{measured, sized};
use crate::tags::Tag;
use crate::{Kind, Node, Refusal, Table};

// Whether a node that keeps the rules is a match whose child holds a match.
fn nests(prepared: &[u64], node: Node) -> bool
    requires { Smalls prepared.now node.kind }
    ensures { result ≡ nests prepared.now node.kind }
{
    let Kind::Match { child } = node.kind else {
        return false;
    };
    sized(prepared, child, node.kind).holds_match
}

// Whether a node passes a limit.
fn over_limits(node: Node) -> bool
    ensures { result ≡ over_limits node }
{
    Table::SIZE < node.size || Table::POSITIONS < node.source || Table::POSITIONS < node.sheet
}

// Node k's four words.
fn store(prepared: &mut [u64], k: usize, node: Node)
    requires { 16 * k + 3 < length prepared.old }
    ensures { Stored prepared.old k node prepared.new }
{
    let at = Table::WORDS * k;
    prepared[at] = node.size as u64;
    prepared[at + 1] = node.source as u64;
    prepared[at + 2] = node.sheet as u64;
    prepared[at + 3] = u64::from(node.holds_match);
}

// Node k's turn: the first of its four lines that holds refuses the table. Else its sizes are in the prepared program.
pub fn turn(bytes: &[u8], prepared: &mut [u64], k: usize) -> Result<(), Refusal>
    requires { SizedBelow bytes.now k prepared.old }
    ensures { Turned bytes.now k result prepared.new }
{
    let Some(tag) = Tag::of(kind_byte(bytes, k)) else {
        return Err(Refusal { number: 2, node: k });
    };
    if !keeps(bytes, k, tag, Operands::read(bytes, k)) {
        return Err(Refusal { number: 3, node: k });
    }
    let node = measured(bytes, prepared, k);
    if nests(prepared, node) {
        return Err(Refusal { number: 4, node: k });
    }
    if over_limits(node) {
        return Err(Refusal { number: 5, node: k });
    }
    store(prepared, k, node);
    Ok(())
}
