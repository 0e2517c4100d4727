// An expression in words, by its nodes: each operation in the form that the crate forms has for it.
use super::Plan;
use super::naming::put_variable;
use super::sink::Sink;
use forms::Form;

fn operator_of(form: Form) -> &'static [u8] {
    match form {
        Form::Plus => b" + ",
        Form::Minus => b" - ",
        Form::Equal => b" = ",
        Form::Less => b" < ",
        Form::And => b" and ",
        Form::Or => b" or ",
        Form::NotLess => b" >= ",
        Form::More => b" > ",
        Form::NotMore => b" <= ",
        _ => b" != ",
    }
}

// A constant or a variable. (No node of an accepted plan is anything else where no level is left.)
fn put_leaf<S: Sink>(out: &mut S, plan: Plan, m: usize) {
    let value = forms::value_of(plan.table, m);
    if forms::code_of(plan.table, m) == 0 {
        out.put_number(u64::from(value));
    } else {
        put_variable(out, plan.names, value);
    }
}

// The expression whose first node is m, where `depth` levels are left below it; an operation that is an operand stands in parentheses.
pub(crate) fn put_expression<S: Sink>(
    out: &mut S,
    plan: Plan,
    m: usize,
    depth: usize,
    operand: bool,
) {
    if forms::code_of(plan.table, m) < 2 || depth == 0 {
        return put_leaf(out, plan, m);
    }
    let form = forms::form_of(plan.table, m);
    let first = forms::first_of(plan.table, m, form);
    out.put_if(operand, b'(');
    if form == Form::Not {
        out.put(b"not ");
        put_expression(out, plan, first, depth - 1, true);
    } else {
        put_expression(out, plan, first, depth - 1, true);
        out.put(operator_of(form));
        let second = forms::second_of(plan.table, m, form);
        let apart = !forms::goes_on(plan.table, form, second);
        put_expression(out, plan, second, depth - 1, apart);
    }
    out.put_if(operand, b')');
}
