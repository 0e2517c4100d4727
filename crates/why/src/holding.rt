// What is held for want of room, as the offer has it: a send while 64 messages wait, a close while the order remembers 32 closings.
use order::Order;
use plan::table::Table;

// Whether the step of row n of an order is held, while so many messages wait. (What messages fit does not matter for that.)
pub(crate) fn is_held(
    table: &Table,
    picks: &[usize; 256],
    activities: usize,
    waiting: usize,
    order: Order,
    n: usize,
) -> bool {
    let marks = order.marks;
    let bound = order.bound;
    let values = order.values;
    let parts = sight::memory::parts_of(order);
    let known = [0u64; 16];
    let letters = [0u32; 512];
    let least = [0usize; 64];
    let cutting = sight::rows::cut_rows(table, &marks, activities);
    let s = sight::one::row_sight(
        table,
        picks,
        &marks,
        &known,
        &bound,
        &values,
        &parts,
        order.kept,
        0,
        n,
        cutting,
        &letters,
        waiting,
        &least,
        sight::counting::nothing_seen(0),
    );
    s.held
}
