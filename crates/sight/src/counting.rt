// Counting a choice down.
ghost use Rattle.std.specs.Prelude.{◌≡◌};
ghost use Rattle.machine.specs.Calls.{refusing};
ghost use Rattle.machine.specs.Offer.{offering};
ghost use Rattle.sight.specs.Sights.{pointed, showing, withholding, Unseen, answered};

use super::{Pointer, Sight};
use machine::Step;
use order::End;

// One more is on offer.
#[tactic(auto, using(crate::proofs::Sets::pointed_at))]
fn pointed_at(c: Pointer, slot: usize, activity: usize, place: usize) -> Pointer
    ensures { result ≡ pointed (offering slot activity place) c }
{
    if c.found {
        c
    } else if c.left == 0 {
        Pointer {
            left: 0,
            found: true,
            slot,
            activity,
            place,
        }
    } else {
        Pointer {
            left: c.left - 1,
            ..c
        }
    }
}

// One more is on offer, and seen.
#[tactic(auto, using(crate::proofs::Sets::shown))]
pub fn shown(s: Sight, slot: usize, activity: usize, place: usize) -> Sight
    ensures { result ≡ showing slot activity place s }
{
    Sight {
        pointer: pointed_at(s.pointer, slot, activity, place),
        ..s
    }
}

// Something is held.
#[tactic(auto, using(crate::proofs::Sets::withheld))]
pub fn withheld(s: Sight) -> Sight
    ensures { result ≡ withholding s }
{
    Sight { held: true, ..s }
}

// Nothing was seen yet.
#[tactic(auto, using(crate::proofs::Sets::nothing_seen))]
pub fn nothing_seen(choice: usize) -> Sight
    ensures { Unseen choice result }
{
    Sight {
        pointer: Pointer {
            left: choice,
            found: false,
            slot: 0,
            activity: 0,
            place: 0,
        },
        held: false,
    }
}

// A refusal.
pub fn refused(number: u32) -> Step
    ensures { result ≡ refusing number }
{
    Step {
        refusal: number,
        slot: 0,
        activity: 0,
        place: 0,
        end: End::None,
        fault: 0,
    }
}

// What the choice comes to, when all was seen.
#[tactic(auto, using(crate::proofs::Sets::answer))]
pub fn answer(choice: usize, s: Sight) -> Step
    ensures { result ≡ answered choice s }
{
    let p = s.pointer;
    if p.found {
        Step {
            refusal: 0,
            slot: p.slot,
            activity: p.activity,
            place: p.place,
            end: End::None,
            fault: 0,
        }
    } else if p.left != choice {
        refused(12)
    } else if s.held {
        refused(11)
    } else {
        refused(10)
    }
}
