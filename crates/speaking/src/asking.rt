// Why orders stand as they do.
use drawing::Out;
use papers::{Clerk, live_in};

// Why orders stand as they do, all of them or one, behind how many are live.
fn put_asked(clerk: &mut Clerk, only: usize) {
    if clerk.desk.state.length == 0 {
        clerk.out.put_refusal(b"why", 17);
        clerk.out.go_on();
        sayings::put_refused(&mut clerk.out, 17);
        clerk.desk.answer(17);
        return;
    }
    let live = live_in(&clerk.desk.state.orders);
    clerk.out.put(b"why");
    clerk.out.put_next(live as u64);
    clerk.out.put_byte(b'\n');
    why::put_why(&mut clerk.out, &clerk.desk.names, clerk.desk.state, only);
}

// Of all orders, and of the messages that nobody takes.
pub(crate) fn why(clerk: &mut Clerk) {
    put_asked(clerk, 16);
}

// Of the order in one slot.
pub(crate) fn why_one(clerk: &mut Clerk, slot: u32, number: u64) {
    let k = slot as usize;
    match clerk.desk.state.orders.get(k) {
        None => clerk.error(number, b"the slots are 0 to 15"),
        Some(order) if order.root == 0 => put_free(&mut clerk.out, k),
        Some(_) => put_asked(clerk, k),
    }
}

fn put_free(out: &mut Out, slot: usize) {
    out.put(b"why 0 - order");
    out.put_next(slot as u64);
    out.put(b" is free\n");
}
