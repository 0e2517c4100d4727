// What the desk says to a person beside its numbers: a sentence for each refusal, what each fault is called, and the help.
#![tactic(auto)]

mod faults;
mod help;
mod refusals;

pub use faults::{has_faulted, put_by_fault, put_fault, put_faults, put_scope_faulted};
pub use help::{has_help, put_help, put_help_on};
pub use refusals::{put_refusals, put_refused, put_sentence, put_undropped};
