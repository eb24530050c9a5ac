// Operand records: three bytes for each node, which its kind reads as child numbers, as a range or as a part of the pool.
ghost use Rattle.std.specs.Prelude.{◌≡◌};
ghost use Rattle.semantics.specs.Table.{two};
ghost use Rattle.table.specs.Rules.{Within, OperandsRead};

use crate::parts::operand;

#[derive(Clone, Copy)]
pub struct Operands {
    pub a: u8,
    pub b: u8,
    pub c: u8,
}

impl Operands {
    // The operand record of node k.
    pub fn read(bytes: &[u8], k: usize) -> Operands
        requires { Within bytes.now k }
        ensures { OperandsRead bytes.now k result }
    {
        Operands {
            a: operand(bytes, k, 0),
            b: operand(bytes, k, 1),
            c: operand(bytes, k, 2),
        }
    }

    // The place in the pool that a and b name.
    pub fn start(self) -> usize
        ensures { result ≡ two self.a self.b }
    {
        two(self.a, self.b)
    }
}

// A number of two bytes, high byte first.
pub fn two(high: u8, low: u8) -> usize
    ensures { result ≡ two high low }
{
    256 * usize::from(high) + usize::from(low)
}
