// The table of a plan (specs/Table.antt): how it is laid out, a row for each activity and arm, then a flag for each partner, then a pair for each node of the
// expressions; and the stores into it.
ghost use Rattle.std.specs.Prelude.{◌+◌, ◌*◌, ◌≤◌, ◌<◌, eqb, get_or, set, ◌||◌, [], ◌∷◌, ◌≡◌};
ghost use Rattle.plan.specs.Numbering.{numbers_row};
ghost use Rattle.plan.specs.Table.{noted, put_row, put_close, put_node};

use super::kind;

// The table of a plan, as `accept` writes it.
pub type Table = [u32; LENGTH];

pub const LENGTH: usize = NODES + 8192;

// A row has a number in each of its columns; row k starts at k * WIDTH, with its kind.
pub const WIDTH: usize = 13;

pub const KIND: usize = 0;

// What a send, a receive or an arm is about: the partner, the operation, how many variables, and these, of which there are at most four.
pub const PARTNER: usize = 1;

// A raise has the number of its fault where those have their partner.
pub const NUMBER: usize = PARTNER;

pub const OPERATION: usize = 2;

pub const COUNT: usize = 3;

pub const VARIABLES: usize = 4;

// A send to the partner that a variable holds has its reply partner there.
pub const REPLY: usize = PARTNER;

// The variable of a set, the one that holds the partner of a send and the one that stores the reply partner of a receive; and the number of the first node of the expression of a set, a choose or a repeat.
pub const VARIABLE: usize = 8;

pub const EXPRESSION: usize = 9;

// A scope has the count of its fault parts by number where those have their count, and their numbers, eight at most, in the places that it has no use for: the
// first two from FIRST_NUMBERS on, the third and those after it from OTHER_NUMBERS on.
pub const FIRST_NUMBERS: usize = PARTNER;

pub const OTHER_NUMBERS: usize = VARIABLES;

// The place of the first byte; the number after the last activity within; and the place after the last byte.
pub const PLACE: usize = 10;

pub const END: usize = 11;

pub const STOP: usize = 12;

// Behind the 256 rows: a flag for each of 64 partners, which is 1 where the plan receives from that partner.
pub const PARTNERS: usize = 256 * WIDTH;

// Behind the flags: a pair for each of 4,096 nodes, its code and its value. The code of node m stands at NODES + m * 2, its value at VALUES + m * 2.
pub const NODES: usize = PARTNERS + 64;

pub const VALUES: usize = NODES + 1;

// Whether an activity of this kind takes messages.
fn receives(kind: u32) -> bool
    ensures { result ≡ (eqb kind 2 || (eqb kind 18 || eqb kind 255)) }
{
    matches!(kind, kind::RECEIVE | kind::ASKING_RECEIVE | kind::ARM)
}

// Flags the partner of a receive or an arm; what stands in a raise's row in its place is below 256, and no partner.
fn note(table: &mut Table, kind: u32, partner: u32)
    requires { partner < 256 }
    ensures { table.new ≡ noted kind partner table.old }
{
    if receives(kind) {
        table[PARTNERS + partner as usize] = 1;
    }
}

// Row n, but for its end and its stop.
pub(crate) fn write_row(
    table: &mut Table,
    n: usize,
    kind: u32,
    partner: u32,
    operation: u32,
    count: u32,
    variables: [u32; 4],
    variable: u32,
    expression: usize,
    place: usize,
)
    requires { ((n < 256) × (partner < 256)) × ((expression ≤ 4096) × (place ≤ 4096)) }
    ensures { table.new ≡ put_row n (kind ∷ partner ∷ operation ∷ count ∷ get_or variables 0 0 ∷ get_or variables 1 0 ∷ get_or variables 2 0 ∷ get_or variables 3 0 ∷ variable ∷ expression ∷ place ∷ []) table.old }
{
    let b = n * WIDTH;
    table[b] = kind;
    table[b + PARTNER] = partner;
    table[b + OPERATION] = operation;
    table[b + COUNT] = count;
    table[b + VARIABLES] = variables[0];
    table[b + 5] = variables[1];
    table[b + 6] = variables[2];
    table[b + 7] = variables[3];
    table[b + VARIABLE] = variable;
    table[b + EXPRESSION] = expression as u32;
    table[b + PLACE] = place as u32;
    note(table, kind, partner);
}

// Row n of a scope with `count` fault parts by number, but for its end and its stop.
pub(crate) fn write_numbers(
    table: &mut Table,
    n: usize,
    numbers: [u32; 8],
    count: usize,
    place: usize,
)
    requires { (n < 256) × ((count ≤ 8) × (place ≤ 4096)) }
    ensures { table.new ≡ put_row n (numbers_row numbers count place) table.old }
{
    let b = n * WIDTH;
    table[b] = kind::NUMBERED_SCOPE;
    table[b + FIRST_NUMBERS] = numbers[0];
    table[b + 2] = numbers[1];
    table[b + COUNT] = count as u32;
    table[b + OTHER_NUMBERS] = numbers[2];
    table[b + 5] = numbers[3];
    table[b + 6] = numbers[4];
    table[b + 7] = numbers[5];
    table[b + 8] = numbers[6];
    table[b + 9] = numbers[7];
    table[b + PLACE] = place as u32;
}

// Column c of row n.
pub(crate) fn write_column(table: &mut Table, n: usize, c: usize, x: u32)
    requires { (n < 256) × (c < 13) }
    ensures { table.new ≡ set table.old (n * 13 + c) x }
{
    table[n * WIDTH + c] = x;
}

// The end and the stop of row n: the number after its last activity, and the place after its last byte.
pub(crate) fn close_row(table: &mut Table, n: usize, end: usize, stop: usize)
    requires { (n < 256) × ((end ≤ 256) × (stop ≤ 4096)) }
    ensures { table.new ≡ put_close n end stop table.old }
{
    let b = n * WIDTH;
    table[b + END] = end as u32;
    table[b + STOP] = stop as u32;
}

// Expression node m.
pub(crate) fn write_node(table: &mut Table, m: usize, code: u32, value: u32)
    requires { m < 4096 }
    ensures { table.new ≡ put_node m code value table.old }
{
    let b = NODES + m * 2;
    table[b] = code;
    table[b + 1] = value;
}
