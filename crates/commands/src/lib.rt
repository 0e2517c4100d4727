// The commands of the desk: what a line asks for, by its words.
#![tactic(auto)]

mod verbs;

ghost use Rattle.std.specs.Prelude.{◌≡◌, IfOk};
ghost use Rattle.commands.specs.Commands.{trouble_of, one_of, number_of, command_of, Inside};

use text::{DecimalError, Word, decimal_of, word_at};
use verbs::verb_of;

// The command words that stand alone.
#[derive(Clone, Copy, PartialEq, Eq, Debug, Drop)]
pub enum Alone {
    Draw,
    Offer,
    Collect,
    Waiting,
    Tally,
    Orders,
    Offers,
    Names,
    Check,
    Write,
}

// Those that take one word: bytes in hexadecimal, or the name of a file.
#[derive(Clone, Copy, PartialEq, Eq, Debug, Drop)]
pub enum Worded {
    Plan,
    Save,
    Open,
    Mend,
}

// Those that take one number.
#[derive(Clone, Copy, PartialEq, Eq, Debug, Drop)]
pub enum Numbered {
    Show,
    Step,
    Order,
}

// Those that take numbers, as many as there are.
#[derive(Clone, Copy, PartialEq, Eq, Debug, Drop)]
pub enum Listed {
    Post,
    Run,
}

// What the first word of a line asks for: nothing where there is none, or where it begins a comment.
#[derive(Clone, Copy, PartialEq, Eq, Debug, Drop)]
pub enum Verb {
    Nothing,
    Unknown,
    Alone { what: Alone },
    Worded { what: Worded },
    Numbered { what: Numbered },
    Listed { what: Listed },
}

// What is wrong with a line.
#[derive(Clone, Copy, PartialEq, Eq, Debug, Drop)]
pub enum Trouble {
    Unknown,
    // it lacks a word, or has one too many
    Missing,
    Extra,
    // a number is none, or is too large
    Unnumbered,
    Large,
}

impl From<DecimalError> for Trouble {
    ghost from_gives = { λ e t. t ≡ trouble_of e };

    fn from(e: DecimalError) -> Trouble {
        match e {
            DecimalError::Large => Trouble::Large,
            DecimalError::Bad => Trouble::Unnumbered,
        }
    }
}

// A command of the desk with what it takes. The numbers of a list are still to be read, from `from` on.
// Stays: (a) the places of a word and not its text, since `command_of` of specs/Commands.antt and its clause `inside` name them.
#[derive(Clone, Copy, PartialEq, Eq, Debug, Drop)]
pub enum Command {
    // a comment, or a blank line
    Nothing,
    Alone {
        what: Alone,
    },
    Worded {
        what: Worded,
        from: usize,
        to: usize,
    },
    Numbered {
        what: Numbered,
        k: u32,
    },
    Listed {
        what: Listed,
        from: usize,
    },
}

// The one word that a command takes beside its own: there is one, and no other after it.
#[tactic(auto, unfolding(crate::specs::Commands::one_of))]
fn one_of(second: Word, third: Word) -> Result<Word, Trouble>
    ensures is { result ≡ one_of second third }
    ensures second { IfOk result (λ w. w ≡ second) }
{
    if second.is_empty() {
        Err(Trouble::Missing)
    } else if third.is_empty() {
        Ok(second)
    } else {
        Err(Trouble::Extra)
    }
}

// A command with the word that is to be its number.
#[tactic(auto, unfolding(crate::specs::Commands::number_of))]
fn number_of(what: Numbered, w: &[u8]) -> Result<Command, Trouble>
    ensures { result ≡ number_of what w.now }
{
    let k = decimal_of(w)?;
    Ok(Command::Numbered { what, k })
}

// The command that a line holds, whose end is taken off.
#[tactic(auto, unfolding(crate::specs::Commands::command_of))]
pub fn command_of(s: &[u8]) -> Result<Command, Trouble>
    ensures is { result ≡ command_of s.now }
    ensures inside { Inside s.now result }
{
    let first = word_at(s, 0);
    let second = word_at(s, first.to);
    let third = word_at(s, second.to);
    match verb_of(&s[first.from..first.to]) {
        Verb::Nothing => Ok(Command::Nothing),
        Verb::Unknown => Err(Trouble::Unknown),
        Verb::Alone { what } if second.is_empty() => Ok(Command::Alone { what }),
        Verb::Alone { .. } => Err(Trouble::Extra),
        Verb::Worded { what } => {
            let Word { from, to } = one_of(second, third)?;
            Ok(Command::Worded { what, from, to })
        }
        Verb::Numbered { what } => {
            let Word { from, to } = one_of(second, third)?;
            number_of(what, &s[from..to])
        }
        Verb::Listed { what } => Ok(Command::Listed {
            what,
            from: first.to,
        }),
    }
}
