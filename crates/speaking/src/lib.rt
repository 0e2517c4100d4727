// The desk as it speaks to a person: each answer has its numbers, as the console gives them, and then words with the names of the plan; and what a
// person says beyond the console's commands (the crate phrases).
#![tactic(auto)]

mod asking;
mod finding;
mod helping;
mod keeping;
mod moving;
mod posting;
mod viewing;

use commands::{Alone, Command, Listed, Numbered, Trouble};
pub use keeping::{is_at_risk, put_risk, written};
use papers::{Clerk, Said};
use phrases::{Phrase, What};

// A command that stands alone.
fn answer_alone(clerk: &mut Clerk, what: Alone, line: &[u8], number: u64) {
    match what {
        Alone::Draw | Alone::Names => viewing::drawn(clerk, line, number),
        Alone::Check => papers::check(clerk),
        Alone::Collect => moving::collect(clerk),
        Alone::Waiting => viewing::waiting(clerk),
        Alone::Tally => viewing::tally(clerk),
        Alone::Offer => viewing::offer(clerk, line, number),
        Alone::Orders => viewing::planned(clerk, b"orders", line, number),
        Alone::Offers => viewing::planned(clerk, b"offers", line, number),
        Alone::Write => keeping::written(clerk, b"", number),
    }
}

// A command with a number.
fn answer_numbered(clerk: &mut Clerk, what: Numbered, k: u32, line: &[u8], number: u64) {
    match what {
        Numbered::Show => viewing::shown(clerk, k, line, number),
        Numbered::Step => moving::step(clerk, k),
        Numbered::Order => viewing::planned(clerk, b"order", line, number),
    }
}

// A command with numbers.
fn answer_listed(clerk: &mut Clerk, what: Listed, line: &[u8], from: usize, number: u64) {
    match what {
        Listed::Post => posting::post(clerk, line, from, number),
        Listed::Run => moving::run(clerk, line, from, number),
    }
}

// A command of the console, with words.
fn told(clerk: &mut Clerk, line: &[u8], number: u64) {
    match commands::command_of(line) {
        Ok(Command::Nothing) => {}
        Ok(Command::Alone { what }) => answer_alone(clerk, what, line, number),
        Ok(Command::Worded { .. }) => {}
        Ok(Command::Numbered { what, k }) => answer_numbered(clerk, what, k, line, number),
        Ok(Command::Listed { what, from }) => answer_listed(clerk, what, line, from, number),
        Err(why) => console::wrong(clerk, number, why),
    }
}

// A command of the console, by numbers alone or with words.
fn usual(clerk: &mut Clerk, line: &[u8], number: u64) {
    if clerk.desk.spoken {
        told(clerk, line, number);
    } else {
        console::answer(clerk, line, number);
    }
}

// A line that is more than a command of the console.
fn phrased(clerk: &mut Clerk, what: Result<Option<What>, Trouble>, number: u64) {
    match what {
        Ok(Some(What::Plan { word })) => keeping::plan(clerk, word, number),
        Ok(Some(What::Mend { word })) => keeping::mend(clerk, word, number),
        Ok(Some(What::Save { name })) => keeping::save(clerk, name, number),
        Ok(Some(What::Open { name })) => keeping::open(clerk, name, number),
        Ok(Some(What::Page { name })) => keeping::page(clerk, name, number),
        Ok(Some(What::Plain)) => helping::plain(clerk),
        Ok(Some(What::Spoken)) => helping::spoken(clerk),
        Ok(Some(What::Quit)) => keeping::quit(clerk, number),
        Ok(Some(What::Help)) => helping::help(clerk),
        Ok(Some(What::HelpOn { word })) => helping::help_on(clerk, word, number),
        Ok(Some(What::Why)) => asking::why(clerk),
        Ok(Some(What::WhyOne { k })) => asking::why_one(clerk, k, number),
        Ok(Some(What::Go { steps })) => moving::go(clerk, steps),
        Ok(Some(What::CollectAll)) => moving::collect_all(clerk),
        Ok(Some(What::Drop { place })) => moving::drop_at(clerk, place),
        Ok(Some(What::OrderBy { variable, value })) => {
            finding::order_by(clerk, variable, value, number)
        }
        Ok(Some(What::Write) | None) => {}
        Err(why) => console::wrong(clerk, number, why),
    }
}

// Whether the console answers a line: it is one of its commands, and nobody asks for more.
fn is_usual(spoken: bool, p: Phrase) -> bool {
    matches!(p.what, Ok(Some(What::Write) | None)) || !spoken && p.old
}

// The answer to a line, whose number is `number`.
pub fn answer(clerk: &mut Clerk, line: &[u8], number: u64) {
    let p = phrases::phrase_of(line);
    clerk.desk.said = Said::Well;
    clerk.desk.bold = p.bold;
    if is_usual(clerk.desk.spoken, p) {
        usual(clerk, line, number);
    } else {
        phrased(clerk, p.what, number);
    }
}
