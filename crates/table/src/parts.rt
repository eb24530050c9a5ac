// Where the parts of a table stand: sizes, kind bytes, operand records.
ghost use Rattle.std.specs.Prelude.{◌≡◌, ◌+◌, ◌*◌, ◌<◌, length};
ghost use Rattle.semantics.specs.Table.{at, node_at, node_count, pool_length, sizes_wrong};
ghost use Rattle.table.specs.Rules.{Within};

use crate::Table;
use crate::operands::two;

// The node count N.
pub fn node_count(bytes: &[u8]) -> usize
    requires { 0 < length bytes.now }
    ensures { result ≡ node_count bytes.now }
{
    usize::from(bytes[0])
}

// The pool length P, two bytes, high byte first.
pub fn pool_length(bytes: &[u8]) -> usize
    requires { 2 < length bytes.now }
    ensures { result ≡ pool_length bytes.now }
{
    two(bytes[1], bytes[2])
}

// Whether N, P or the total length is wrong.
pub fn sizes_wrong(bytes: &[u8]) -> bool
    ensures { result ≡ sizes_wrong bytes.now }
{
    if bytes.len() < 3 {
        return true;
    }
    let n = node_count(bytes);
    let p = pool_length(bytes);
    n == 0 || Table::NODES < n || Table::POOL < p || bytes.len() != 3 + 4 * n + p
}

// The kind byte of node k.
pub fn kind_byte(bytes: &[u8], k: usize) -> u8
    requires { Within bytes.now k }
    ensures { result ≡ (node_at bytes.now k).kind }
{
    bytes[3 + k]
}

// Byte i of the operand record of node k.
pub fn operand(bytes: &[u8], k: usize, i: usize) -> u8
    requires within { Within bytes.now k }
    requires i_bound { i < 3 }
    ensures { result ≡ at bytes.now (3 + node_count bytes.now + 3 * k + i) }
{
    bytes[3 + node_count(bytes) + 3 * k + i]
}
