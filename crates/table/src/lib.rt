// The program table: from any bytes to a table, or the refusal of the first round with its number and node.
#![tactic(auto)]

ghost use Rattle.std.specs.Prelude.{◌≤◌, ◌<◌, length};
ghost use Rattle.semantics.specs.Table.{node_count};
ghost use Rattle.table.specs.Rules.{AllSized, NodeRead, ReadLeaves};

mod operands;
pub mod parts;
mod round;
mod rules;
mod sizes;
mod tags;

use parts::{node_count, pool_length, sizes_wrong};
use round::turn;
use rules::is_sort;
use sizes::{kind_of, sized};

// What every layer needs to know of a table: its sizes. The limits belong to it.
#[derive(Clone, Copy)]
pub struct Table {
    pub nodes: usize,
    pub pool: usize,
}

// Why a program, a text or a result is refused: the refusal's number, and the node that it concerns, or 0. A number and no enum: these are
// document 02's own numbers, which C callers read and which the clauses `answer_for`, `typing_lines` and `first_that_holds` speak of.
#[derive(Clone, Copy, PartialEq, Eq)]
pub struct Refusal {
    pub number: usize,
    pub node: usize,
}

// A node's kind with its own operands: a part of the pool, the place of its runs, or child numbers. A range and a set are one kind: the runs
// of a set stand in the pool, and the one of a range is its operands a and b.
#[derive(Clone, Copy)]
pub enum Kind {
    Word {
        start: usize,
        len: usize,
    },
    OneOf {
        at: usize,
        runs: usize,
    },
    PatternJoin {
        left: usize,
        right: usize,
    },
    PatternUnion {
        left: usize,
        right: usize,
    },
    PatternRepeat {
        child: usize,
    },
    Copy {
        pattern: usize,
    },
    Const {
        pattern: usize,
        sheet: usize,
        default: usize,
    },
    Key {
        pattern: usize,
    },
    LensJoin {
        left: usize,
        right: usize,
    },
    LensUnion {
        left: usize,
        right: usize,
    },
    LensRepeat {
        child: usize,
    },
    Match {
        child: usize,
    },
}

#[derive(Clone, Copy)]
pub struct Node {
    pub size: usize,
    pub source: usize,
    pub sheet: usize,
    pub holds_match: bool,
    pub kind: Kind,
}

// The two sorts of node.
#[derive(Clone, Copy, PartialEq, Eq)]
pub enum Sort {
    Patterns,
    Lenses,
}

impl Table {
    pub const NODES: usize = 96;

    pub const POOL: usize = 512;

    pub const WORD: usize = 64;

    // the most runs of a set
    pub const RUNS: usize = 32;

    pub const SIZE: usize = 512;

    pub const POSITIONS: usize = 128;

    // numbers of the prepared program that belong to a node
    pub const WORDS: usize = 16;

    // where its rows begin: behind the numbers of all nodes
    pub const ROWS: usize = Table::NODES * Table::WORDS;

    // the longest source, sheet or result of a program, in bytes
    pub const TEXT: usize = 4096;

    // A table from any bytes, its nodes' sizes in the prepared program; or the refusal of the first round.
    pub fn read(bytes: &[u8], prepared: &mut [u64]) -> Result<Table, Refusal>
        requires { 1536 ≤ length prepared.old }
        ensures { ReadLeaves bytes.now result prepared.new }
    {
        if sizes_wrong(bytes) {
            return Err(Refusal { number: 1, node: 0 });
        }
        let n = node_count(bytes);
        for k in 0..n {
            turn(bytes, prepared, k)?;
        }
        if !is_sort(bytes, n, Sort::Lenses, n - 1) {
            return Err(Refusal {
                number: 3,
                node: n - 1,
            });
        }
        Ok(Table {
            nodes: n,
            pool: pool_length(bytes),
        })
    }

    // Node k of a table that was read: its sizes from the prepared program, its kind from the table's bytes.
    pub fn node(bytes: &[u8], prepared: &[u64], k: usize) -> Node
        requires all_sized { AllSized bytes.now prepared.now }
        requires k_bound { k < node_count bytes.now }
        ensures { NodeRead bytes.now k result }
    {
        sized(prepared, k, kind_of(bytes, k))
    }
}
