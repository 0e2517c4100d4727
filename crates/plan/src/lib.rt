// Reads plans: document 01, "The plan on file". The public calls are `accept` and `accept_over`.
#![tactic(auto)]

pub mod agree;
pub mod code;
mod expressions;
mod fields;
pub mod kind;
mod kinds;
mod named;
mod owns;
mod reading;
mod replies;
mod root;
pub mod table;
mod tree;

ghost use Rattle.std.specs.Prelude.{◌≡◌};
ghost use Rattle.plan.specs.Answers.{answer_of, table_into, table_for, flags_for};
ghost use Rattle.plan.specs.Read.{read_plan};

use table::{LENGTH, Table};

// The reading head: the lent bytes and a place in them.
// Stays: (a) docs/DECISIONS.md names it as what every number of a plan is read through.
#[derive(Clone, Copy)]
pub struct Head<'a> {
    pub bytes: &'a [u8],
    pub place: usize,
}

// A tuple that is read: how many variables, and these, with zeros behind them; and the next place.
#[derive(Clone, Copy, PartialEq, Eq, Debug)]
pub struct Tuple {
    pub count: u32,
    pub variables: [u32; 4],
    pub next: usize,
}

// An expression that is read: the next place, and the number of the next node.
#[derive(Clone, Copy, PartialEq, Eq, Debug)]
pub struct Nodes {
    pub next: usize,
    pub nodes: usize,
}

// An activity's own numbers, where they are read: its kind, how many stand directly within it, the next place and the number of the next node; of a scope with
// fault parts by number only the place of its body, since its numbers stand between its parts.
#[derive(Clone, Copy, PartialEq, Eq, Debug)]
pub enum Own {
    Read {
        kind: u32,
        within: u32,
        next: usize,
        nodes: usize,
    },
    Numbered {
        body: usize,
    },
}

// Activities that are read: the next place, the number of the next activity and of the next node, and whether the first and whether
// every one of them is a start form.
#[derive(Clone, Copy, PartialEq, Eq, Debug)]
pub struct Out {
    pub next: usize,
    pub count: usize,
    pub nodes: usize,
    pub first: bool,
    pub every: bool,
}

// Why bytes are no plan: the refusal's number, and the place of the byte in trouble.
#[derive(Clone, Copy, PartialEq, Eq, Debug)]
pub struct Refusal {
    pub number: u32,
    pub place: usize,
}

// What is found of bytes that are a plan: how many variables, activities and expression nodes it has.
#[derive(Clone, Copy, PartialEq, Eq, Debug)]
pub struct Accepted {
    pub variables: u32,
    pub activities: usize,
    pub nodes: usize,
}

// Whether bytes are a plan.
pub type Answer = Result<Accepted, Refusal>;

// The whole plan, written over what the table held: for a caller with a blank table, which need not be blanked again. Its answer, and in the lent
// arrays its rows and which variables are for correlation; all zero where it is refused.
// Stays: (a) the flags are bytes and no bools: `flags_for`, in the clauses of both calls, says so, and an argument's type may not change.
pub fn accept_over(s: &[u8], table: &mut Table, correlation: &mut [u8; 16]) -> Answer
    ensures is { result ≡ answer_of (read_plan s.now) }
    ensures rows { table.new ≡ table_into table.old (read_plan s.now) }
    ensures flags { correlation.new ≡ flags_for (read_plan s.now) }
{
    *correlation = [0u8; 16];
    let a = root::agreed_at(s, table, correlation);
    if a.is_err() {
        *table = [0u32; LENGTH];
        *correlation = [0u8; 16];
    }
    a
}

// The whole plan: its answer, and in the lent arrays its table and which variables are for correlation. All zero where it is refused.
pub fn accept(s: &[u8], table: &mut Table, correlation: &mut [u8; 16]) -> Answer
    ensures is { result ≡ answer_of (read_plan s.now) }
    ensures rows { table.new ≡ table_for (read_plan s.now) }
    ensures flags { correlation.new ≡ flags_for (read_plan s.now) }
{
    *table = [0u32; LENGTH];
    accept_over(s, table, correlation)
}
