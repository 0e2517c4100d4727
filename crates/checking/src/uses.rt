// The variables that an activity uses, and those that it binds.
use drawing::{after, code_of, entry, value_of};
use forms::Form;
use plan::kind;
use plan::table::{COUNT, EXPRESSION, KIND, Table, VARIABLE, VARIABLES};

// Whether variable v stands in the tuple of row n, which has four variables at most.
fn is_in_tuple(table: &Table, n: usize, v: u32) -> bool {
    let count = entry(table, n, COUNT).min(4) as usize;
    (VARIABLES..VARIABLES + count).any(|field| entry(table, n, field) == v)
}

// What node m of an expression is by its own code.
pub(crate) fn form_of(table: &Table, m: usize) -> Form {
    Form::from(code_of(table, m))
}

// The last node of the expression whose first is m: the right operand of an operation stands last. (An expression is at most 8 deep.)
fn last_of(table: &Table, m: usize) -> usize {
    let mut at = m;
    for _ in 0..8 {
        if matches!(form_of(table, at), Form::Constant | Form::Variable) {
            return at;
        }
        at = value_of(table, at) as usize;
    }
    at
}

fn is_variable(table: &Table, m: usize, v: u32) -> bool {
    form_of(table, m) == Form::Variable && value_of(table, m) == v
}

// Whether variable v stands in the expression whose first node is m.
fn is_in_expression(table: &Table, m: usize, v: u32) -> bool {
    (m..after(last_of(table, m))).any(|i| is_variable(table, i, v))
}

// Equal and less, which give 0 or 1.
fn is_comparison(table: &Table, m: usize) -> bool {
    matches!(form_of(table, m), Form::Equal | Form::Less)
}

// Whether both operands of node m are comparisons: their sum is at most 2. (An `or` is such a sum.)
fn is_of_comparisons(table: &Table, m: usize) -> bool {
    is_comparison(table, after(m)) && is_comparison(table, value_of(table, m) as usize)
}

// A sum may be above the range, a difference below 0.
fn is_sum(table: &Table, m: usize) -> bool {
    match form_of(table, m) {
        Form::Plus => !is_of_comparisons(table, m),
        Form::Minus => true,
        _ => false,
    }
}

// Whether a sum or a difference that may fault stands in the expression whose first node is m.
fn has_sum(table: &Table, m: usize) -> bool {
    (m..after(last_of(table, m))).any(|i| is_sum(table, i))
}

// The first node of the expression of activity n.
fn expression_of(table: &Table, n: usize) -> usize {
    entry(table, n, EXPRESSION) as usize
}

// Whether activity n computes a sum or a difference that may fault.
pub(crate) fn computes(table: &Table, n: usize) -> bool {
    match entry(table, n, KIND) {
        kind::SET | kind::CHOOSE | kind::REPEAT => has_sum(table, expression_of(table, n)),
        _ => false,
    }
}

// Whether variable v stands in the tuple of row n, or is the one beside it: that of the partner, or of whom to reply to.
fn is_in_message(table: &Table, n: usize, v: u32) -> bool {
    entry(table, n, VARIABLE) == v || is_in_tuple(table, n, v)
}

// Whether activity n uses variable v: a send that sends it or goes to the partner in it, or an expression that it stands in.
pub(crate) fn uses(table: &Table, n: usize, v: u32) -> bool {
    match entry(table, n, KIND) {
        kind::SEND => is_in_tuple(table, n, v),
        kind::HELD_SEND => is_in_message(table, n, v),
        kind::SET | kind::CHOOSE | kind::REPEAT => {
            is_in_expression(table, expression_of(table, n), v)
        }
        _ => false,
    }
}

// Whether activity or arm n binds variable v: a receive or an arm that takes it, a receive that stores whom to reply to in it, or a set.
pub(crate) fn binds(table: &Table, n: usize, v: u32) -> bool {
    match entry(table, n, KIND) {
        kind::RECEIVE | kind::ARM => is_in_tuple(table, n, v),
        kind::ASKING_RECEIVE => is_in_message(table, n, v),
        kind::SET => entry(table, n, VARIABLE) == v,
        _ => false,
    }
}
