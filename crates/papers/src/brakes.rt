// Brakes: where orders are live or messages wait, a desk that speaks to a person does not drop them unless it is told to.
use super::{Clerk, Desk};
use drawing::Out;
use order::Order;

// How many orders are live.
pub fn live_in(orders: &[Order; 16]) -> usize {
    orders.iter().filter(|order| order.root != 0).count()
}

// Whether the desk has brakes now: it speaks to a person, was not told otherwise, and has something to lose: live orders, or messages that wait.
pub fn is_braked(desk: &Desk) -> bool {
    desk.spoken && !desk.bold && (0 < live_in(&desk.state.orders) || 0 < desk.state.waiting)
}

fn put_many(out: &mut Out, many: usize, one: &[u8], more: &[u8]) {
    out.put_number(many as u64);
    if many == 1 {
        out.put(one);
    } else {
        out.put(more);
    }
}

fn put_live(out: &mut Out, live: usize) {
    put_many(out, live, b" order is live", b" orders are live");
}

fn put_waiting(out: &mut Out, waiting: usize) {
    put_many(out, waiting, b" message waits", b" messages wait");
}

// What there is to lose, in words.
pub fn put_lost(out: &mut Out, live: usize, waiting: usize) {
    if live == 0 {
        put_waiting(out, waiting);
    } else {
        put_live(out, live);
        if waiting != 0 {
            out.put(b", ");
            put_waiting(out, waiting);
        }
    }
}

// The answer of a desk that has brakes: what would be lost, and how to say that it may be.
pub fn braked(clerk: &mut Clerk, number: u64, word: &[u8]) {
    clerk.out.put(b"error");
    clerk.out.put_next(number);
    clerk.out.put_byte(b' ');
    let live = live_in(&clerk.desk.state.orders);
    put_lost(&mut clerk.out, live, clerk.desk.state.waiting);
    clerk.out.put(b": say ");
    clerk.out.put(word);
    clerk.out.put(b"! to drop them\n");
    clerk.desk.fail();
}
