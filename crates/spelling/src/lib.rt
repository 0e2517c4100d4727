// What the lines of a plan as text are made of: words and marks, names, expressions, and the rows that they become. Each function that reads answers the
// place after what it read, where it is there; a place is an index into the text.
#![tactic(auto)]

mod combining;
mod declaring;
mod expressions;
mod fronts;
mod marks;
mod naming;
mod operations;
mod reasons;
mod table;

pub use declaring::{Declaration, Text, What, after_correlation, is_declaration, is_long};
pub use expressions::expression;
pub use fronts::{Part, after_part, is_part, is_scope_named, numbered_part, past_number};
pub use marks::{
    Lines, Span, after_mark, after_word, after_words, decimal, is_name, is_over, more, past_blanks,
    tab_in, word_at, word_end,
};
pub use naming::names_of;
pub use reasons::{Mistake, Reason};
pub use table::Table;
