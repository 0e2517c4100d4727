// What a person says to the desk beyond its commands: a line that is one of these, or none of them.
#![tactic(auto)]

mod files;
mod words;

use commands::Trouble;
use files::name_of;
use text::word_at;
use words::{Verb, verb_of};

// What a line asks for, with what it takes: a part of the line, or a number.
#[derive(Clone, Copy, Debug, Drop)]
pub enum What<'a> {
    Plain,
    Spoken,
    Quit,
    Help,
    HelpOn { word: &'a [u8] },
    Why,
    WhyOne { k: u32 },
    Go { steps: u32 },
    CollectAll,
    Drop { place: u32 },
    OrderBy { variable: &'a [u8], value: u32 },
    Plan { word: &'a [u8] },
    Mend { word: &'a [u8] },
    Save { name: &'a [u8] },
    Open { name: &'a [u8] },
    Page { name: &'a [u8] },
    Write,
}

// A line: whether it is one that the console answers too, by numbers alone; whether it says `!`, which takes the brakes off; and what it asks for, which
// is nothing where it is none of these, and the console answers it.
#[derive(Clone, Copy, Debug, Drop)]
pub struct Phrase<'a> {
    pub old: bool,
    pub bold: bool,
    pub what: Result<Option<What<'a>>, Trouble>,
}

// A part of a line; none of it where it has no such part.
pub fn part(line: &[u8], from: usize, to: usize) -> &[u8] {
    if from <= to && to <= line.len() {
        &line[from..to]
    } else {
        &line[..0]
    }
}

// Whether a word stands from a place on.
pub fn has_more(line: &[u8], at: usize) -> bool {
    !word_at(line, at).is_empty()
}

// The word from a place on, where there is one and no other after it.
fn word_or_none(line: &[u8], at: usize) -> Result<Option<&[u8]>, Trouble> {
    let w = word_at(line, at);
    if w.is_empty() {
        Ok(None)
    } else if has_more(line, w.to) {
        Err(Trouble::Extra)
    } else {
        Ok(Some(part(line, w.from, w.to)))
    }
}

pub(crate) fn one_word(line: &[u8], at: usize) -> Result<&[u8], Trouble> {
    word_or_none(line, at)?.ok_or(Trouble::Missing)
}

// The number from a place on, where there is one.
fn number_or_none(line: &[u8], at: usize) -> Result<Option<u32>, Trouble> {
    match word_or_none(line, at)? {
        Some(word) => Ok(Some(text::decimal_of(word)?)),
        None => Ok(None),
    }
}

// One that takes no word.
fn alone<'a>(line: &[u8], at: usize, what: What<'a>) -> Result<What<'a>, Trouble> {
    if has_more(line, at) {
        Err(Trouble::Extra)
    } else {
        Ok(what)
    }
}

// `collect all`; a `collect` alone is the console's.
fn collecting(line: &[u8], at: usize) -> Result<Option<What<'_>>, Trouble> {
    let w = word_at(line, at);
    match part(line, w.from, w.to) {
        b"all" => Ok(Some(alone(line, w.to, What::CollectAll)?)),
        _ => Ok(None),
    }
}

// `order VARIABLE VALUE`; an `order SLOT` is the console's.
fn ordering(line: &[u8], at: usize) -> Result<Option<What<'_>>, Trouble> {
    let v = word_at(line, at);
    let variable = part(line, v.from, v.to);
    match number_or_none(line, v.to)? {
        Some(value) => Ok(Some(What::OrderBy { variable, value })),
        None => Ok(None),
    }
}

// What a line asks for that begins with one of these words, of which `at` is the end.
fn asked(verb: Verb, line: &[u8], at: usize) -> Result<Option<What<'_>>, Trouble> {
    let what = match verb {
        Verb::Plain => alone(line, at, What::Plain)?,
        Verb::Spoken => alone(line, at, What::Spoken)?,
        Verb::Quit { .. } => alone(line, at, What::Quit)?,
        Verb::Write { .. } => alone(line, at, What::Write)?,
        Verb::Collect => return collecting(line, at),
        Verb::Order => return ordering(line, at),
        Verb::Help => match word_or_none(line, at)? {
            Some(word) => What::HelpOn { word },
            None => What::Help,
        },
        Verb::Why => match number_or_none(line, at)? {
            Some(k) => What::WhyOne { k },
            None => What::Why,
        },
        Verb::Go => What::Go {
            steps: number_or_none(line, at)?.unwrap_or(1000),
        },
        Verb::Drop => What::Drop {
            place: number_or_none(line, at)?.ok_or(Trouble::Missing)?,
        },
        Verb::Plan { .. } => What::Plan {
            word: one_word(line, at)?,
        },
        Verb::Mend { .. } => What::Mend {
            word: one_word(line, at)?,
        },
        Verb::Save { .. } => What::Save {
            name: name_of(line, at)?,
        },
        Verb::Open { .. } => What::Open {
            name: name_of(line, at)?,
        },
        Verb::Page { .. } => What::Page {
            name: name_of(line, at)?,
        },
    };
    Ok(Some(what))
}

// What a line says.
pub fn phrase_of(line: &[u8]) -> Phrase<'_> {
    let w = word_at(line, 0);
    match verb_of(part(line, w.from, w.to)) {
        Some(verb) => {
            let what = asked(verb, line, w.to);
            Phrase {
                old: verb.is_old(),
                bold: verb.is_bold() && what.is_ok(),
                what,
            }
        }
        None => Phrase {
            old: false,
            bold: false,
            what: Ok(None),
        },
    }
}
