// A plan drawn: its activities and the names that it declares, a line for each, into whatever takes bytes (`Sink`): what the desk writes (`Out` of the crate
// drawing), or a lent buffer, for what is installed for C, which allocates nothing.
#![tactic(auto)]

mod activities;
mod expressions;
mod naming;
mod output;
mod sink;
mod table;

pub use activities::{put_activity, put_drawing, put_drawn, put_labelled, put_scope};
pub use naming::{
    is_correlation, put_fault_name, put_member, put_names, put_operation, put_partner, put_variable,
};
use output::Text;
use plan::table::Table;
pub use sink::Sink;
pub use table::{
    after, depth_of, end_of, entry, fault_of, general_of, has_undo, is_scope, number_at,
    numbers_of, parent_of, scope_of, undo_of,
};

// What is drawn: the table of an accepted plan, its names, and which of its variables are for correlation.
#[derive(Clone, Copy, Drop)]
pub struct Plan<'a> {
    pub names: &'a [u8; 16896],
    pub table: &'a Table,
    pub correlation: &'a [u8; 16],
}

impl Plan<'_> {
    // Number `field` of row n.
    pub fn entry(self, n: usize, field: usize) -> u32 {
        entry(self.table, n, field)
    }
}

// The names of a plan that has none: made anew by each call, they took some 17,000 instructions.
static NO_NAMES: [u8; 16896] = [0; 16896];

// The plan with this table and these flags, without names, from the front of `out` on: how long its text is.
pub fn put_plan(
    out: &mut [u8; 65536],
    table: &Table,
    correlation: &[u8; 16],
    variables: u32,
    activities: usize,
) -> usize {
    let plan = Plan {
        names: &NO_NAMES,
        table,
        correlation,
    };
    let mut text = Text {
        bytes: out,
        used: 0,
    };
    naming::put_variables(&mut text, &NO_NAMES, correlation, variables);
    activities::put_activities(&mut text, plan, activities);
    text.used
}
