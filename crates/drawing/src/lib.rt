// How what the desk writes is gathered (`Out`), and the words of a plan, which the crate lettering puts into whatever takes bytes. Each function that puts
// something puts it into an `Out`, behind what it has.
#![tactic(auto)]

mod output;

pub use forms::{code_of, value_of};
pub use lettering::{
    Plan, after, depth_of, end_of, entry, fault_of, general_of, has_undo, is_correlation, is_scope,
    number_at, numbers_of, parent_of, put_activity, put_drawing, put_drawn, put_fault_name,
    put_labelled, put_member, put_names, put_operation, put_partner, put_scope, put_variable,
    scope_of, undo_of,
};
pub use output::{Out, failure, write_all};
