// Sets of at most 128 positions, each step in constant time.
#![tactic(auto)]

ghost use Rattle.std.specs.Prelude.{◌≡◌, true, ◌&&◌, ◌↔◌, ℕ, ◌≤◌, ◌<◌, ltb, leb};
ghost use Rattle.std.specs.Int.Count.{count_trailing_zeros};
ghost use Rattle.std.specs.Iterator.{at_most};
ghost use Rattle.positions.specs.Positions.{holds, Empty, Only, Added, Removed, Less, Joined, Met, Shared, Moved, FirstFrom};
ghost use Rattle.positions.specs.Below.{held_below, Gives};

// Positions 0 to 63 are the bits of low, 64 to 127 those of high.
#[derive(Clone, Copy)]
pub struct Set {
    pub low: u64,
    pub high: u64,
}

// How many zeros a number ends in, of its 64 bits.
fn zeros(number: u64) -> usize
    ensures { (result ≡ count_trailing_zeros 64 number) × (result ≤ 64) }
{
    u64::trailing_zeros(number) as usize
}

impl Set {
    // the positions that a set has room for
    pub const SIZE: usize = 128;

    // The set that holds nothing.
    pub fn empty() -> Set
        ensures { Empty result }
    {
        Set { low: 0, high: 0 }
    }

    // The set of every position.
    fn full() -> Set
        ensures { (q : ℕ) → holds result q ≡ ltb q 128 }
    {
        Set {
            low: 18446744073709551615,
            high: 18446744073709551615,
        }
    }

    // The positions from p on.
    pub fn from(p: usize) -> Set
        ensures { (q : ℕ) → holds result q ≡ (ltb q 128 && leb p q) }
    {
        Set::full().moved(p)
    }

    // Whether the set holds p; it holds nothing from 128 on.
    pub fn has(self, p: usize) -> bool
        ensures { result ≡ holds self p }
    {
        if p < 64 {
            return (self.low >> p) % 2 == 1;
        }
        if p < Set::SIZE {
            return (self.high >> (p - 64)) % 2 == 1;
        }
        false
    }

    // The first position from p on that the set holds; 128 or more if there is none.
    // Kept by hand: the crates above cite the promise `FirstFrom`, which speaks of such a number and no Option.
    pub fn first_from(self, p: usize) -> usize
        ensures { FirstFrom self p result }
    {
        if p < 64 {
            let rest = self.low >> p;
            if rest != 0 {
                return p + zeros(rest);
            }
            return 64 + zeros(self.high);
        }
        if p < Set::SIZE {
            return p + zeros(self.high >> (p - 64));
        }
        p
    }

    // The set without its first position: so a loop over a set goes from one to the next without a shift.
    pub fn rest(self) -> Set
        ensures { (p : ℕ) → FirstFrom self 0 p → Removed self p result }
    {
        if self.low != 0 {
            return Set {
                low: self.low & (self.low - 1),
                high: self.high,
            };
        }
        if self.high != 0 {
            return Set {
                low: 0,
                high: self.high & (self.high - 1),
            };
        }
        self
    }

    // The positions below an end that the set holds, from the lowest on: `for p in set.below(end)` goes through them.
    pub fn below(self, end: usize) -> Below
        ensures { result ≡ record { left = self; end = end } }
    {
        Below { left: self, end }
    }

    // The set of p alone.
    fn only(p: usize) -> Set
        requires { p < 128 }
        ensures { Only p result }
    {
        if 64 <= p {
            Set {
                low: 0,
                high: 1 << (p - 64),
            }
        } else {
            Set {
                low: 1 << p,
                high: 0,
            }
        }
    }

    // The set with p added.
    pub fn with(self, p: usize) -> Set
        requires { p < 128 }
        ensures { Added self p result }
    {
        Set::only(p).union(self)
    }

    // The set without p.
    pub fn without(self, p: usize) -> Set
        requires { p < 128 }
        ensures { Removed self p result }
    {
        self.minus(Set::only(p))
    }

    // What this one holds and the other does not: that is added, so that flipping it takes it away.
    pub fn minus(self, other: Set) -> Set
        ensures { Less self other result }
    {
        Set {
            low: (self.low | other.low) ^ other.low,
            high: (self.high | other.high) ^ other.high,
        }
    }

    // What one of the two holds.
    pub fn union(self, other: Set) -> Set
        ensures { Joined self other result }
    {
        Set {
            low: self.low | other.low,
            high: self.high | other.high,
        }
    }

    // What both hold.
    pub fn intersect(self, other: Set) -> Set
        ensures { Met self other result }
    {
        Set {
            low: self.low & other.low,
            high: self.high & other.high,
        }
    }

    // The positions moved up by n; those that would come to 128 or more are dropped.
    pub fn moved(self, n: usize) -> Set
        ensures { Moved self n result }
    {
        if Set::SIZE <= n {
            return Set::empty();
        }
        if 64 <= n {
            return Set {
                low: 0,
                high: self.low << (n - 64),
            };
        }
        if n == 0 {
            return self;
        }
        Set {
            low: self.low << n,
            high: (self.high << n) | (self.low >> (64 - n)),
        }
    }

    // Whether the two share a position.
    pub fn meets(self, other: Set) -> bool
        ensures { (result ≡ true) ↔ Shared self other }
    {
        ((self.low & other.low) | (self.high & other.high)) != 0
    }

    // Whether the set holds nothing.
    pub fn is_empty(self) -> bool
        ensures { (result ≡ true) ↔ Empty self }
    {
        (self.low | self.high) == 0
    }
}

// The positions of a set below an end, from the lowest on: `left` holds those that have not come.
#[derive(Clone, Copy)]
pub struct Below {
    pub left: Set,
    pub end: usize,
}

impl Iterator for Below {
    type Item = usize;

    ghost next_gives = { Gives };

    ghost remaining = { λ s. at_most (held_below 128 s.left) };

    #[inline(always)]
    fn next(&mut self) -> Option<usize> {
        let p = self.left.first_from(0);
        if self.end.min(Set::SIZE) <= p {
            return None;
        }
        self.left = self.left.rest();
        Some(p)
    }
}
