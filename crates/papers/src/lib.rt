// What the desk does with plans and files: a plan is read, drawn, shown, written from a text and mended, a state saved and opened.
#![tactic(auto)]

mod brakes;
mod checks;
mod disagreeing;
mod files;
mod mends;
mod places;
mod plans;
mod reasons;
mod rules;
mod sealed;
mod sums;
pub mod system;
mod writing;

pub use brakes::{braked, is_braked, live_in, put_lost};
pub use checks::{check, warn};
use drawing::Out;
pub use drawing::failure;
pub use files::{kept_front, name_with, open, put_failed, replaced_by, save};
use machine::{State, Tally};
pub use mends::mend;
pub use plans::{draw, load, names, show};
pub use sealed::READ;
pub use sums::sum_of;
pub use writing::write;

// What the last answer came to: all went well, the engine refused it, it was an error, or only names changed.
#[derive(Clone, Copy, PartialEq, Eq)]
pub enum Said {
    Well,
    Refused(u32),
    Error,
    Renamed,
}

// The file of a state: sums of its name and of what it held.
#[derive(Clone, Copy)]
pub struct Filed {
    pub name: u64,
    pub held: u64,
}

// The state that orders run on, and the tally; the last plan, the first `plan` of some bytes, and its names; and what the last answer came to. Whether it
// answers with words, and has brakes; and whether this command has none. Whether something changed since the last save or open, and the file of that, if there
// was one. Whether it was told to end.
#[derive(Clone, Copy)]
pub struct Desk {
    pub state: State,
    pub tally: Tally,
    pub bytes: [u8; 8000],
    pub plan: usize,
    pub names: [u8; 16896],
    pub said: Said,
    pub spoken: bool,
    pub bold: bool,
    pub unsaved: bool,
    pub filed: Option<Filed>,
    pub over: bool,
}

// Who answers at the desk: the desk, and what is answered.
#[derive(Drop)]
pub struct Clerk {
    pub desk: Desk,
    pub out: Out,
}

// The first bytes of some, so many of them; all where there are fewer.
pub(crate) fn first(bytes: &[u8], length: usize) -> &[u8] {
    bytes.get(..length).unwrap_or(bytes)
}

impl Desk {
    // The desk as it begins: there is no plan, and it answers by numbers alone.
    pub fn new() -> Desk {
        let loaded = machine::load(&[0u8; 1]);
        Desk {
            state: loaded.state,
            tally: machine::no_tally(),
            bytes: [0u8; 8000],
            plan: 0,
            names: [0u8; 16896],
            said: Said::Well,
            spoken: false,
            bold: false,
            unsaved: false,
            filed: None,
            over: false,
        }
    }

    // The answer is an error, which is told elsewhere.
    pub fn fail(&mut self) {
        self.said = Said::Error;
    }

    // The answer has the number of a refusal, 0 where nothing is refused.
    pub fn answer(&mut self, refusal: u32) {
        self.said = match refusal {
            0 => Said::Well,
            _ => Said::Refused(refusal),
        };
    }

    // The desk goes on with another state.
    pub fn change(&mut self, state: State, tally: Tally) {
        self.state = state;
        self.tally = tally;
        self.said = Said::Well;
        self.unsaved = true;
    }
}

impl Clerk {
    // The clerk at a desk as it begins, who answers on standard output.
    pub fn new(runtime: HostRuntime) -> Clerk {
        Clerk {
            desk: Desk::new(),
            out: Out::standard(runtime),
        }
    }

    // The answer is an error, for this reason.
    pub fn error(&mut self, line: u64, reason: &[u8]) {
        self.out.put_error(line, reason);
        self.desk.fail();
    }
}
