// The console of the engine: the answer to each line, as docs/DESK.md tells it.
#![tactic(auto)]

mod answering;
mod lists;
mod taking;

pub use answering::wrong;
use commands::{Alone, Command, Listed, Numbered, Worded};
pub use lists::{Numbers, before, numbers_of, reply_in, rest_of};
use papers::Clerk;
pub use taking::{message_of, put_collected, put_step, put_tally, running};

// A command that stands alone. (The lines after a write are its caller's to gather: here it has none.)
fn answer_alone(clerk: &mut Clerk, what: Alone, number: u64) {
    match what {
        Alone::Draw => papers::draw(clerk),
        Alone::Names => papers::names(clerk),
        Alone::Check => papers::check(clerk),
        Alone::Write => papers::write(clerk, b"", number),
        Alone::Collect => taking::collect(clerk),
        Alone::Offer => wording::put_offer(&mut clerk.out, clerk.desk.state),
        Alone::Waiting => wording::put_waiting(&mut clerk.out, clerk.desk.state),
        Alone::Tally => taking::put_tally(&mut clerk.out, clerk.desk.tally),
        Alone::Orders => wording::put_orders(&mut clerk.out, &clerk.desk.names, clerk.desk.state),
        Alone::Offers => wording::put_offers(&mut clerk.out, &clerk.desk.names, clerk.desk.state),
    }
}

// A command with a word.
fn answer_worded(clerk: &mut Clerk, what: Worded, word: &[u8], number: u64) {
    match what {
        Worded::Plan => papers::load(clerk, word, number),
        Worded::Save => papers::save(clerk, word, number),
        Worded::Open => papers::open(clerk, word, number),
        Worded::Mend => papers::mend(clerk, word, number),
    }
}

// The order in a slot.
fn answer_order(clerk: &mut Clerk, slot: u32, number: u64) {
    if 15 < slot {
        clerk.error(number, b"the slots are 0 to 15");
    } else {
        wording::put_order(
            &mut clerk.out,
            &clerk.desk.names,
            clerk.desk.state,
            slot as usize,
        );
    }
}

// A command with a number.
fn answer_numbered(clerk: &mut Clerk, what: Numbered, k: u32, number: u64) {
    match what {
        Numbered::Show => papers::show(clerk, k),
        Numbered::Step => taking::step(clerk, k),
        Numbered::Order => answer_order(clerk, k, number),
    }
}

// A command with numbers.
fn answer_listed(clerk: &mut Clerk, what: Listed, line: &[u8], from: usize, number: u64) {
    match what {
        Listed::Post => taking::post(clerk, line, from, number),
        Listed::Run => taking::run(clerk, line, from, number),
    }
}

// The answer to a line, whose number is `number`.
pub fn answer(clerk: &mut Clerk, line: &[u8], number: u64) {
    match commands::command_of(line) {
        Ok(Command::Nothing) => {}
        Ok(Command::Alone { what }) => answer_alone(clerk, what, number),
        Ok(Command::Worded { what, from, to }) => {
            answer_worded(clerk, what, line.get(from..to).unwrap_or(b""), number);
        }
        Ok(Command::Numbered { what, k }) => answer_numbered(clerk, what, k, number),
        Ok(Command::Listed { what, from }) => answer_listed(clerk, what, line, from, number),
        Err(why) => wrong(clerk, number, why),
    }
}
