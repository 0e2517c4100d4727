// What has no room left, where something is held: what is held waits for one of these.
use super::orders::live_of;
use drawing::Out;
use machine::State;
use order::Order;

fn put_line(out: &mut Out, line: &[u8]) {
    out.put(line);
    out.put_byte(b'\n');
}

// A live order that remembers as many closings as it can.
fn put_mindful(out: &mut Out, slot: usize, order: Order) {
    if order.root == 0 {
        return;
    }
    if 32 <= order.kept {
        out.put(b"no room: order");
        out.put_next(slot as u64);
        put_line(out, b" remembers 32 closings");
    }
}

fn put_mindfuls(out: &mut Out, orders: [Order; 16]) {
    for (slot, order) in orders.iter().enumerate() {
        put_mindful(out, slot, *order);
    }
}

// What is full: the messages, the slots, the closings of an order.
pub fn put_full(out: &mut Out, state: State) {
    let orders = state.orders;
    if 64 <= state.waiting {
        put_line(out, b"no room: 64 messages wait");
    }
    if live_of(orders) == 16 {
        put_line(out, b"no room: 16 orders are live");
    }
    put_mindfuls(out, orders);
}
