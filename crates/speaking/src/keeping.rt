// Plans and files, with brakes: what is live is not dropped by the way, and what is not saved is told.
use drawing::Out;
use machine::State;
use papers::{Clerk, Desk, Said, braked, is_braked, live_in, put_lost};
use plan::table::LENGTH;
use plan::{Accepted, Refusal};
use sayings::put_refused;

// How many activities and arms the plan of a state has.
pub(crate) fn activities_of(state: State) -> usize {
    let mut table = [0u32; LENGTH];
    let mut flags = [0u8; 16];
    match machine::limits::planned(state, &mut table, &mut flags) {
        Err(_) => 0,
        Ok(Accepted { activities, .. }) => activities,
    }
}

fn put_accepted(out: &mut Out, activities: usize) {
    out.put(b" - accepted:");
    out.put_next(activities as u64);
    out.put(b" activities and arms\n");
}

// What the last answer came to, in words behind it, and what the plan is warned of: an error says it all.
fn told(clerk: &mut Clerk) {
    match clerk.desk.said {
        Said::Well => {
            clerk.out.go_on();
            put_accepted(&mut clerk.out, activities_of(clerk.desk.state));
            papers::warn(clerk);
        }
        Said::Refused(refusal) => {
            clerk.out.go_on();
            put_refused(&mut clerk.out, refusal);
        }
        Said::Error | Said::Renamed => {}
    }
}

// A plan that is refused changes nothing: it is only said why.
fn turned_down(clerk: &mut Clerk, refusal: Refusal) {
    let Refusal { number, place } = refusal;
    clerk.out.put_pair(b"plan", u64::from(number), place as u64);
    clerk.out.go_on();
    put_refused(&mut clerk.out, number);
    clerk.desk.answer(number);
}

// Why a word of hexadecimal is no plan, where it is none; what is no hexadecimal is left to the console to answer.
fn refusal_of(word: &[u8]) -> Option<Refusal> {
    let mut given = [0u8; 8000];
    match text::decode(word, &mut given) {
        Ok(count) => {
            let plan = given.get(..count).unwrap_or(&given);
            plan::accept(plan, &mut [0u32; LENGTH], &mut [0u8; 16]).err()
        }
        Err(_) => None,
    }
}

// A plan in hexadecimal.
pub(crate) fn plan(clerk: &mut Clerk, word: &[u8], number: u64) {
    if is_braked(&clerk.desk) {
        braked(clerk, number, b"plan");
    } else if let Some(refusal) = refusal_of(word) {
        turned_down(clerk, refusal);
    } else {
        papers::load(clerk, word, number);
        told(clerk);
    }
}

// A padded plan.
pub(crate) fn mend(clerk: &mut Clerk, word: &[u8], number: u64) {
    if is_braked(&clerk.desk) {
        braked(clerk, number, b"mend");
    } else {
        papers::mend(clerk, word, number);
        told(clerk);
    }
}

// What there is to lose.
fn put_what(clerk: &mut Clerk) {
    let live = live_in(&clerk.desk.state.orders);
    let waiting = clerk.desk.state.waiting;
    if live == 0 && waiting == 0 {
        clerk.out.put(b"no order is live, no message waits");
    } else {
        put_lost(&mut clerk.out, live, waiting);
    }
}

// What a file holds, behind its numbers.
fn filed(clerk: &mut Clerk, front: &[u8], file: &[u8]) {
    if clerk.desk.said != Said::Well {
        return;
    }
    clerk.out.go_on();
    clerk.out.put(front);
    clerk.out.put(file);
    clerk.out.put(b": ");
    put_what(clerk);
    clerk.out.put_byte(b'\n');
}

// Saves the state.
pub(crate) fn save(clerk: &mut Clerk, file: &[u8], number: u64) {
    care::save(clerk, file, number);
    filed(clerk, b" - saved in ", file);
}

// Writes a page.
pub(crate) fn page(clerk: &mut Clerk, file: &[u8], number: u64) {
    care::page(clerk, file, number);
    if clerk.desk.spoken {
        filed(clerk, b" - a page in ", file);
    }
}

// Opens a file.
pub(crate) fn open(clerk: &mut Clerk, file: &[u8], number: u64) {
    if is_braked(&clerk.desk) {
        braked(clerk, number, b"open");
    } else {
        papers::open(clerk, file, number);
        filed(clerk, b" - opened ", file);
        if clerk.desk.said == Said::Well {
            papers::warn(clerk);
        }
    }
}

// A plan as text.
pub fn written(clerk: &mut Clerk, text: &[u8], number: u64) {
    papers::write(clerk, text, number);
    if !clerk.desk.spoken {
        return;
    }
    if clerk.desk.said == Said::Renamed {
        clerk.out.go_on();
        clerk.out.put(b" - the plan that runs: its names are taken, nothing else changes\n");
        papers::warn(clerk);
    } else {
        told(clerk);
    }
}

// Whether something would be lost if the desk ended now: it changed since the last save, and there are orders or messages, or a file that it is to go to.
pub fn is_at_risk(desk: &Desk) -> bool {
    desk.unsaved
        && (desk.filed.is_some() || 0 < live_in(&desk.state.orders) || 0 < desk.state.waiting)
}

// What would be lost.
pub fn put_risk(clerk: &mut Clerk) {
    clerk.out.put(b"not saved: ");
    put_what(clerk);
}

// Ends, where nothing would be lost.
pub(crate) fn quit(clerk: &mut Clerk, number: u64) {
    if clerk.desk.spoken && !clerk.desk.bold && is_at_risk(&clerk.desk) {
        clerk.out.put(b"error");
        clerk.out.put_next(number);
        clerk.out.put_byte(b' ');
        put_risk(clerk);
        clerk
            .out
            .put(b": save FILE, or say quit! to end all the same\n");
        clerk.desk.fail();
        return;
    }
    clerk.desk.over = true;
    clerk.desk.unsaved = false;
}
