// How an activity begins, and an order.
#![tactic(auto)]

ghost use Rattle.std.specs.Prelude.{◌≤◌, ◌<◌, ◌≡◌};
ghost use Rattle.order.specs.Answering.{throughout_of, around_of, Begins, BeginsInTurn, BeginsAll, StartsOrder};
ghost use Rattle.order.specs.State.{no_order};

use order::kind::is_scope;
use order::rows::{end_of, kind_of};
use order::{Closing, Entered, Order, mark};
use plan::kind;
use plan::table::Table;

// Sequence or flow k, within which these began: over with them.
fn throughout(k: usize, r: Entered) -> Entered
    requires { k < 256 }
    ensures { result ≡ throughout_of k r }
{
    if r.over {
        let mut marks = r.marks;
        marks[k] = mark::IDLE;
        Entered { marks, over: true }
    } else {
        r
    }
}

// Scope k, whose body began so: where the body is over, it may close.
fn around(k: usize, r: Entered) -> Entered
    requires { k < 256 }
    ensures { result ≡ around_of k r }
{
    if r.over {
        let mut marks = r.marks;
        marks[k] = mark::DONE;
        Entered { marks, over: false }
    } else {
        r
    }
}

// Activity k begins, where there is one.
#[cycle(begin_begin_all_begin_in_turn)]
pub fn begin(table: &Table, k: usize, marks: [u8; 256]) -> Entered
    ensures { Begins table.now k marks result }
{
    if 256 <= k {
        return Entered { marks, over: true };
    }
    let mut m = marks;
    m[k] = mark::ACTIVE;
    let e = end_of(table, k);
    match kind_of(table, k) {
        kind::EMPTY | kind::ARM => Entered { marks, over: true },
        kind::SEQUENCE => throughout(k, begin_in_turn(table, k + 1, e, m)),
        kind::FLOW => throughout(k, begin_all(table, k + 1, e, m)),
        kind if is_scope(kind) && k + 1 < e => around(k, begin(table, k + 1, m)),
        _ => Entered {
            marks: m,
            over: false,
        },
    }
}

// The activities from row c to row e begin, one after the other.
#[cycle(begin_begin_all_begin_in_turn)]
pub fn begin_in_turn(table: &Table, c: usize, e: usize, marks: [u8; 256]) -> Entered
    ensures { BeginsInTurn table.now c e marks result }
{
    let mut m = marks;
    if 256 < e {
        return Entered {
            marks: m,
            over: true,
        };
    }
    // Stays: (d) the next place is told by the row itself, so no range has these places.
    let mut j = c;
    while j < e {
        let r = begin(table, j, m);
        if !r.over {
            return r;
        }
        m = r.marks;
        j = end_of(table, j);
    }
    Entered {
        marks: m,
        over: true,
    }
}

// The activities from row c to row e begin, side by side.
#[cycle(begin_begin_all_begin_in_turn)]
fn begin_all(table: &Table, c: usize, e: usize, marks: [u8; 256]) -> Entered
    requires { e ≤ 256 }
    ensures { BeginsAll table.now c e marks result }
{
    let mut m = marks;
    let mut over = true;
    // Stays: (d) as above.
    let mut i = c;
    while i < e {
        let r = begin(table, i, m);
        m = r.marks;
        over = over && r.over;
        i = end_of(table, i);
    }
    Entered { marks: m, over }
}

// No order.
#[tactic(auto, unfolding(order::specs::State::no_order))]
pub fn no_order() -> Order
    ensures { result ≡ no_order }
{
    Order {
        root: mark::IDLE,
        marks: [mark::IDLE; 256],
        values: [0; 16],
        bound: [0; 16],
        remembered: [Closing { scope: 0, part: 0 }; 32],
        kept: 0,
        cause: 0,
    }
}

// An order as it starts: its body begun.
pub fn started_order(table: &Table) -> Order
    ensures { StartsOrder table.now result }
{
    let o = no_order();
    let marks = begin(table, 0, o.marks).marks;
    Order {
        root: mark::ACTIVE,
        marks,
        ..o
    }
}
