// The words that a phrase begins with.

// Of those that may end in `!`, whether this one does.
#[derive(Clone, Copy, PartialEq, Eq, Debug, Drop)]
pub(crate) enum Verb {
    Plain,
    Spoken,
    Quit { bold: bool },
    Help,
    Why,
    Go,
    Collect,
    Drop,
    Order,
    Write { bold: bool },
    Plan { bold: bool },
    Mend { bold: bool },
    Save { bold: bool },
    Open { bold: bool },
    Page { bold: bool },
}

impl Verb {
    // Whether the console has a command of this word.
    pub(crate) fn is_old(self) -> bool {
        match self {
            Verb::Collect | Verb::Order => true,
            Verb::Write { bold }
            | Verb::Plan { bold }
            | Verb::Mend { bold }
            | Verb::Save { bold }
            | Verb::Open { bold } => !bold,
            _ => false,
        }
    }

    pub(crate) fn is_bold(self) -> bool {
        match self {
            Verb::Quit { bold }
            | Verb::Write { bold }
            | Verb::Plan { bold }
            | Verb::Mend { bold }
            | Verb::Save { bold }
            | Verb::Open { bold }
            | Verb::Page { bold } => bold,
            _ => false,
        }
    }
}

pub(crate) fn verb_of(w: &[u8]) -> Option<Verb> {
    match w {
        b"plain" => Some(Verb::Plain),
        b"spoken" => Some(Verb::Spoken),
        b"quit" => Some(Verb::Quit { bold: false }),
        b"quit!" => Some(Verb::Quit { bold: true }),
        b"help" => Some(Verb::Help),
        b"why" => Some(Verb::Why),
        b"go" => Some(Verb::Go),
        b"collect" => Some(Verb::Collect),
        b"drop" => Some(Verb::Drop),
        b"order" => Some(Verb::Order),
        b"write" => Some(Verb::Write { bold: false }),
        b"write!" => Some(Verb::Write { bold: true }),
        b"plan" => Some(Verb::Plan { bold: false }),
        b"plan!" => Some(Verb::Plan { bold: true }),
        b"mend" => Some(Verb::Mend { bold: false }),
        b"mend!" => Some(Verb::Mend { bold: true }),
        b"save" => Some(Verb::Save { bold: false }),
        b"save!" => Some(Verb::Save { bold: true }),
        b"open" => Some(Verb::Open { bold: false }),
        b"open!" => Some(Verb::Open { bold: true }),
        b"page" => Some(Verb::Page { bold: false }),
        b"page!" => Some(Verb::Page { bold: true }),
        _ => None,
    }
}
