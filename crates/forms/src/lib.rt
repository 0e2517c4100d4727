// How an expression of a plan is drawn, by the nodes of its table: by its own operation, or, where several nodes say what one word says (as the crate
// spelling has them say it, combining.rt there), by that word. Each such word, read again, is these very nodes.
#![tactic(auto)]

use plan::table::{NODES, Table, VALUES};

// How an operation is drawn: by its own code, or by a word for several nodes.
#[derive(Clone, Copy, PartialEq, Eq, Debug, Drop)]
pub enum Form {
    Constant,
    Variable,
    Plus,
    Minus,
    Equal,
    Less,
    And,
    Or,
    Not,
    NotLess,
    Unequal,
    More,
    NotMore,
    Unknown,
}

// A code as a form. (An accepted plan has the codes 0 to 5; a table of none may have any.)
impl From<u32> for Form {
    fn from(code: u32) -> Form {
        match code {
            0 => Form::Constant,
            1 => Form::Variable,
            2 => Form::Plus,
            3 => Form::Minus,
            4 => Form::Equal,
            5 => Form::Less,
            6 => Form::And,
            7 => Form::Or,
            8 => Form::Not,
            9 => Form::NotLess,
            10 => Form::Unequal,
            11 => Form::More,
            12 => Form::NotMore,
            _ => Form::Unknown,
        }
    }
}

// The code of node m.
pub fn code_of(table: &Table, m: usize) -> u32 {
    if m < 4096 { table[NODES + m * 2] } else { 0 }
}

// The value of node m: a constant, the number of a variable, or the number of the right operand's first node.
pub fn value_of(table: &Table, m: usize) -> u32 {
    if m < 4096 { table[VALUES + m * 2] } else { 0 }
}

// What node m is by its own code.
fn own_form(table: &Table, m: usize) -> Form {
    Form::from(code_of(table, m))
}

// The node that the left operand of node m starts with, and the right one's.
fn left_of(m: usize) -> usize {
    if m < 4096 { m + 1 } else { m }
}

fn right_of(table: &Table, m: usize) -> usize {
    value_of(table, m) as usize
}

fn is_zero(table: &Table, m: usize) -> bool {
    own_form(table, m) == Form::Constant && value_of(table, m) == 0
}

// Equal and less, which give 1 or 0.
fn is_comparison(table: &Table, m: usize) -> bool {
    matches!(own_form(table, m), Form::Equal | Form::Less)
}

// Whether node m is `E = 0`.
fn is_negated(table: &Table, m: usize) -> bool {
    own_form(table, m) == Form::Equal && is_zero(table, right_of(table, m))
}

// Whether node m is `E + F` of two comparisons.
fn is_sum(table: &Table, m: usize) -> bool {
    own_form(table, m) == Form::Plus
        && is_comparison(table, left_of(m))
        && is_comparison(table, right_of(table, m))
}

// Whether node m compares a number with what is none: the number then stands on the right, as `tries > 2`.
fn is_turned(table: &Table, m: usize) -> bool {
    own_form(table, left_of(m)) == Form::Constant
        && own_form(table, right_of(table, m)) != Form::Constant
}

// A `less` by what it says: `E and F` is `(E = 0) < F` of a comparison F, `E or F` is `0 < (E + F)` of comparisons.
fn form_of_less(table: &Table, m: usize) -> Form {
    if is_negated(table, left_of(m)) && is_comparison(table, right_of(table, m)) {
        Form::And
    } else if is_zero(table, left_of(m)) && is_sum(table, right_of(table, m)) {
        Form::Or
    } else if is_turned(table, m) {
        Form::More
    } else {
        Form::Less
    }
}

// A `less` that stands negated: `a >= b`, or `a <= b` where that is turned; `not E` of an `and` or an `or`.
fn form_of_not_less(table: &Table, m: usize) -> Form {
    match form_of_less(table, m) {
        Form::Less => Form::NotLess,
        Form::More => Form::NotMore,
        _ => Form::Not,
    }
}

// What stands negated in node m: a `less`, or an `=`, which is `a != b`.
fn form_of_negated(table: &Table, m: usize) -> Form {
    let inner = left_of(m);
    match own_form(table, inner) {
        Form::Less => form_of_not_less(table, inner),
        Form::Equal => Form::Unequal,
        _ => Form::Equal,
    }
}

// How operation m is drawn.
pub fn form_of(table: &Table, m: usize) -> Form {
    match own_form(table, m) {
        Form::Less => form_of_less(table, m),
        Form::Equal if is_negated(table, m) => form_of_negated(table, m),
        form => form,
    }
}

// The nodes of the two operands that are drawn; of a `not` the first alone.
pub fn first_of(table: &Table, m: usize, form: Form) -> usize {
    match form {
        Form::And | Form::NotLess | Form::Unequal => left_of(left_of(m)),
        Form::Or => left_of(right_of(table, m)),
        Form::More => right_of(table, m),
        Form::NotMore => right_of(table, left_of(m)),
        _ => left_of(m),
    }
}

pub fn second_of(table: &Table, m: usize, form: Form) -> usize {
    match form {
        Form::NotLess | Form::Unequal => right_of(table, left_of(m)),
        Form::Or => right_of(table, right_of(table, m)),
        Form::More => left_of(m),
        Form::NotMore => left_of(left_of(m)),
        _ => right_of(table, m),
    }
}

// Whether the second operand m of an operation goes on the same `and` or `or`: these go from the right, so it needs no parentheses.
pub fn goes_on(table: &Table, form: Form, m: usize) -> bool {
    matches!(form, Form::And | Form::Or) && form_of(table, m) == form
}
