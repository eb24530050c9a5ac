// Classes: sets of bytes, what one position of a pattern may hold. Each question takes constant time, whatever the number of runs.
#![tactic(auto)]

ghost use Rattle.std.specs.Prelude.{◌≡◌, true, false, not, ◌&&◌, ◌||◌, ◌↔◌, ℕ, ◌≤◌, ltb, leb};
ghost use Rattle.semantics.specs.Pattern.{in_run, in_class};
ghost use Rattle.semantics.specs.Table.{runs_of};
ghost use Rattle.classes.specs.Classes.{holds_byte, SharedByte, FirstShared};

use positions::Set;

// Bytes 0 to 127 are the positions of low; those from 128 on, less 128, are those of high.
#[derive(Clone, Copy)]
pub struct Class {
    pub low: Set,
    pub high: Set,
}

impl Class {
    // The class that holds nothing.
    fn empty() -> Class
        ensures { (byte : ℕ) → holds_byte result byte ≡ false }
    {
        Class {
            low: Set::empty(),
            high: Set::empty(),
        }
    }

    // The bytes from one on; 256 is behind the last.
    fn from(first: usize) -> Class
        requires { first ≤ 256 }
        ensures { (byte : ℕ) → holds_byte result byte ≡ (ltb byte 256 && leb first byte) }
    {
        if first < 128 {
            return Class {
                low: Set::from(first),
                high: Set::from(0),
            };
        }
        Class {
            low: Set::empty(),
            high: Set::from(first - 128),
        }
    }

    // What this one holds and the other does not.
    fn minus(self, other: Class) -> Class
        ensures { (byte : ℕ) → holds_byte result byte ≡ (holds_byte self byte && not (holds_byte other byte)) }
    {
        Class {
            low: self.low.minus(other.low),
            high: self.high.minus(other.high),
        }
    }

    // What one of the two holds.
    fn union(self, other: Class) -> Class
        ensures { (byte : ℕ) → holds_byte result byte ≡ (holds_byte self byte || holds_byte other byte) }
    {
        Class {
            low: self.low.union(other.low),
            high: self.high.union(other.high),
        }
    }

    // The bytes of one run, both ends included.
    fn run(first: u8, last: u8) -> Class
        ensures { (byte : ℕ) → holds_byte result byte ≡ in_run byte (record { first = first; last = last }) }
    {
        let behind = Class::from(last as usize + 1);
        Class::from(first as usize).minus(behind)
    }

    // The class of runs, two bytes each: a first and a last one.
    pub fn of(runs: &[u8]) -> Class
        ensures { (byte : ℕ) → holds_byte result byte ≡ in_class (runs_of runs.now) byte }
    {
        let mut class = Class::empty();
        for i in 0..runs.len() / 2 {
            let next = Class::run(runs[2 * i], runs[2 * i + 1]);
            class = next.union(class);
        }
        class
    }

    // The lowest byte that the two share; 256 or more if there is none.
    // Kept by hand: the crates above cite the promise `FirstShared`, which speaks of such a number and no Option.
    pub fn first_shared(self, other: Class) -> usize
        ensures { FirstShared self other result }
    {
        let below = self.low.intersect(other.low).first_from(0);
        if below < Set::SIZE {
            return below;
        }
        let above = self.high.intersect(other.high).first_from(0);
        if above < Set::SIZE {
            return Set::SIZE + above;
        }
        256
    }

    // Whether the two share a byte.
    pub fn meets(self, other: Class) -> bool
        ensures { (result ≡ true) ↔ SharedByte self other }
    {
        self.low.meets(other.low) || self.high.meets(other.high)
    }
}
