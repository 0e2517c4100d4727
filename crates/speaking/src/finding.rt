// An order by the value of one of its variables.
use drawing::Out;
use machine::State;
use order::Order;
use papers::Clerk;

// The variable that `v0`, `v1` and so on stand for, where a word is one of these.
fn variable_by_number(word: &[u8]) -> Option<usize> {
    match word {
        [b'v', digits @ ..] if !digits.is_empty() => text::decimal_of(digits)
            .ok()
            .map(|v| v as usize)
            .filter(|v| *v < 16),
        _ => None,
    }
}

// The variable of this name, or else of this number.
fn variable_of(names: &[u8; 16896], word: &[u8]) -> Option<usize> {
    match names::variable_named(names, word) {
        Some(v) => Some(v as usize),
        None => variable_by_number(word),
    }
}

// Whether a live order has this value in a variable.
fn has(order: &Order, variable: usize, value: u32) -> bool {
    order.root != 0
        && order.bound.get(variable) == Some(&1)
        && order.values.get(variable) == Some(&value)
}

// Each order that has it, as `order` shows it; and whether there is one.
fn put_orders(
    out: &mut Out,
    names: &[u8; 16896],
    state: State,
    variable: usize,
    value: u32,
) -> bool {
    let mut found = false;
    for (slot, order) in state.orders.iter().enumerate() {
        if has(order, variable, value) {
            wording::put_order(out, names, state, slot);
            found = true;
        }
    }
    found
}

// No live order has it.
fn none(clerk: &mut Clerk, word: &[u8], value: u32, number: u64) {
    clerk.out.put(b"error");
    clerk.out.put_next(number);
    clerk.out.put(b" no live order has ");
    clerk.out.put(word);
    clerk.out.put_next(value as u64);
    clerk.out.put_byte(b'\n');
    clerk.desk.fail();
}

// The orders whose variable has this value.
pub(crate) fn order_by(clerk: &mut Clerk, word: &[u8], value: u32, number: u64) {
    let found = match variable_of(&clerk.desk.names, word) {
        Some(variable) => put_orders(
            &mut clerk.out,
            &clerk.desk.names,
            clerk.desk.state,
            variable,
            value,
        ),
        None => false,
    };
    if !found {
        none(clerk, word, value, number);
    }
}
