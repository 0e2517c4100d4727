// What a take binds.
ghost use Rattle.std.specs.Prelude.{◌<◌};
ghost use Rattle.order.specs.Answering.{BindsRow, BindsAsking};

use activity::binding;
use order::Order;
use order::rows::{count_of, variable_of};
use plan::table::{Table, VARIABLE, WIDTH};

// The order with the values bound to the variables that row k names; the fifth number is whom to reply to, which is none of them.
pub(crate) fn bind_row(table: &Table, k: usize, values: [u32; 5], order: Order) -> Order
    requires { k < 256 }
    ensures { BindsRow table.now k values order result }
{
    let mut o = order;
    for i in 0..count_of(table, k) {
        o = binding(variable_of(table, k, i), values[i], o);
    }
    o
}

// The order with the values bound so, and then whom to reply to bound to the variable that row k has for it.
pub(crate) fn bind_asking(table: &Table, k: usize, values: [u32; 5], order: Order) -> Order
    requires { k < 256 }
    ensures { BindsAsking table.now k values order result }
{
    let o = bind_row(table, k, values, order);
    binding(table[k * WIDTH + VARIABLE], values[4], o)
}
