// Files with care, for a desk that speaks to a person: what has the name of the file is looked at first, and stays beside it as FILE.old.
#![tactic(auto)]

mod ordinary;
mod paging;
mod retaining;

use ordinary::Kind;
pub use paging::page;
use papers::Clerk;

// Whether the file is the one that this desk saved or opened last, and holds something else now: another desk saved it since.
fn is_anothers(clerk: &Clerk, file: &[u8]) -> bool {
    match clerk.desk.filed {
        Some(filed) if !clerk.desk.bold && filed.name == papers::sum_of(file) => {
            ordinary::sum_at(clerk.out.runtime(), file) != filed.held
        }
        _ => false,
    }
}

// A save over an ordinary file.
fn replacing(clerk: &mut Clerk, file: &[u8], number: u64) {
    if is_anothers(clerk, file) {
        clerk.error(
            number,
            b"cannot save: another desk has saved it since: say save! to replace it",
        );
    } else {
        replaced(clerk, file, number);
    }
}

// A save over an ordinary file, which stays as FILE.old.
fn replaced(clerk: &mut Clerk, file: &[u8], number: u64) {
    if let Err(reason) = retaining::retained(clerk.out.runtime(), file) {
        papers::put_failed(
            &mut clerk.out,
            number,
            b"keep what it holds as FILE.old",
            reason,
        );
        clerk.desk.fail();
    } else {
        papers::save(clerk, file, number);
    }
}

// A save over a file that holds a plan: a desk without one is likely to have forgotten to open it.
fn over_plan(clerk: &mut Clerk, file: &[u8], number: u64) {
    if clerk.desk.state.length == 0 && !clerk.desk.bold {
        clerk.error(
            number,
            b"cannot save: the file has a plan, and the desk has none: say save! to replace it",
        );
    } else {
        replacing(clerk, file, number);
    }
}

// Saves the state.
pub fn save(clerk: &mut Clerk, file: &[u8], number: u64) {
    if !clerk.desk.spoken {
        papers::save(clerk, file, number);
    } else {
        match ordinary::kind_of(clerk.out.runtime(), file) {
            Kind::Nothing => papers::save(clerk, file, number),
            Kind::Ordinary => replacing(clerk, file, number),
            Kind::Plan => over_plan(clerk, file, number),
            Kind::Folder => clerk.error(number, b"cannot save: it is a folder"),
            Kind::Link => clerk.error(number, b"cannot save: it is a link"),
            Kind::Other => clerk.error(number, b"cannot save: it is no ordinary file"),
        }
    }
}
