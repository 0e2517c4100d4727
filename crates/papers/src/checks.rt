// What may be wrong with the last plan, by the crate checking: the command check, and the warnings alone, for what follows a plan that is taken.
use super::{Clerk, first};
use checking::{put_check, put_warnings};
use drawing::{Out, Plan};
use plan::table::{LENGTH, Table};
use plan::{Accepted, Refusal};

// A refused plan has its refusal; where only warnings are wanted, it has none.
fn put_refused(asked: bool, number: u32, place: usize, out: &mut Out) {
    if asked {
        out.put_pair(b"check", number as u64, place as u64);
    }
}

fn put_accepted(
    names: &[u8; 16896],
    table: &Table,
    correlation: &[u8; 16],
    activities: usize,
    asked: bool,
    out: &mut Out,
) {
    let plan = Plan {
        names,
        table,
        correlation,
    };
    if asked {
        put_check(out, plan, activities);
    } else {
        put_warnings(out, plan, activities);
    }
}

fn put_checked(s: &[u8], names: &[u8; 16896], asked: bool, out: &mut Out) {
    let mut table = [0u32; LENGTH];
    let mut correlation = [0u8; 16];
    let a = plan::accept(s, &mut table, &mut correlation);
    match a {
        Err(Refusal { number, place }) => put_refused(asked, number, place, out),
        Ok(Accepted { activities, .. }) => put_accepted(
            names,
            &table,
            &correlation,
            activities,
            asked,
            out,
        ),
    }
}

// The answer to a check of the last plan.
pub fn check(clerk: &mut Clerk) {
    let plan = first(&clerk.desk.bytes, clerk.desk.plan);
    put_checked(plan, &clerk.desk.names, true, &mut clerk.out);
}

// The warnings of the last plan alone; nothing where it has none, or is refused.
pub fn warn(clerk: &mut Clerk) {
    let plan = first(&clerk.desk.bytes, clerk.desk.plan);
    put_checked(plan, &clerk.desk.names, false, &mut clerk.out);
}
