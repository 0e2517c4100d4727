// The receives and arms that are open in an order, judged: the higher-numbered of two that are for one thing.
ghost use Rattle.std.specs.Prelude.{◌≤◌, ◌<◌, ◌≡◌};
ghost use Rattle.settling.specs.Answering.{SameThing, SeenRow, Reaches, OpenRow, Clashes};

use fit::search::arm_at;
use order::mark;
use plan::kind;
use plan::table::{END, PARTNER, Table, VARIABLE, WIDTH};

// Whether rows j and k name the same partner, operation and variables, the variables in the same order; the variable for whom to reply to is ignored.
fn same_thing(table: &Table, j: usize, k: usize) -> bool
    requires { (j < 256) × (k < 256) }
    ensures { SameThing table.now j k result }
{
    table[j * WIDTH + PARTNER..j * WIDTH + VARIABLE]
        == table[k * WIDTH + PARTNER..k * WIDTH + VARIABLE]
}

// Whether one of the open rows names what row k names.
fn is_second(table: &Table, opened: &[u8], k: usize) -> bool
    requires { k < 256 }
    ensures { SeenRow table.now opened.now k result }
{
    opened
        .iter()
        .any(|row| same_thing(table, usize::from(*row), k))
}

// Where the active picks among the rows up to row k end, the rows before it ending at `reach`.
fn reach_at(table: &Table, marks: &[u8; 256], reach: u32, k: usize) -> u32
    requires { k < 256 }
    ensures { Reaches table.now marks.now reach k result }
{
    if table[k * WIDTH] == kind::PICK && marks[k] == mark::ACTIVE {
        reach.max(table[k * WIDTH + END])
    } else {
        reach
    }
}

// Whether row k is an open receive or arm, where the active picks before it end at `reach`: an arm beyond is not open.
fn open_at(table: &Table, marks: &[u8; 256], reach: u32, k: usize) -> bool
    requires { k < 256 }
    ensures { OpenRow table.now marks.now reach k result }
{
    match table[k * WIDTH] {
        kind::RECEIVE | kind::ASKING_RECEIVE => marks[k] == mark::ACTIVE,
        kind::ARM => (k as u32) < reach && arm_at(table, marks, k),
        _ => false,
    }
}

// The higher number of two that are open for one thing, of several pairs the one whose higher number is least; none where no two are. One pass over the
// rows, and one comparison for each two that are open.
pub fn first_conflict(table: &Table, activities: usize, marks: &[u8; 256]) -> Option<usize>
    ensures { Clashes table.now activities marks.now result }
{
    // Stays: (a) `opened` has its length beside it: nothing is allocated.
    let rows = activities.min(256);
    let mut opened = [0; 256];
    let mut n = 0;
    let mut reach = 0;
    for k in 0..rows {
        if open_at(table, marks, reach, k) {
            if is_second(table, &opened[..n], k) {
                return Some(k);
            }
            opened[n] = k as u8;
            n += 1;
        }
        reach = reach_at(table, marks, reach, k);
    }
    None
}
