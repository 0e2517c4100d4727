// Receives and arms that may be open together for one thing: the step that leaves them so raises a fault in place of the higher-numbered.
use super::sending::is_receive;
use super::ways::{Part, around, is_within, part_in};
use drawing::{after, end_of, entry, parent_of, scope_of};
use plan::kind;
use plan::table::{KIND, PARTNER, Table, VARIABLE};

// Whether rows j and k name the same partner, operation and variables, the variables in the same order.
pub fn is_same_thing(table: &Table, j: usize, k: usize) -> bool {
    (PARTNER..VARIABLE).all(|field| entry(table, j, field) == entry(table, k, field))
}

// Whether row n stands in the undo part of a scope in flow a, which runs for a scope around the flow: by then what stands in the flow has stopped.
fn is_undone_late(table: &Table, a: usize, n: usize) -> bool {
    match scope_of(table, n) {
        Some(s) if is_within(table, a, s) && part_in(table, s, n) == Part::Undo => {
            !scope_of(table, s).is_some_and(|outer| is_within(table, a, outer))
        }
        _ => false,
    }
}

fn is_arm_of(table: &Table, a: usize, n: usize) -> bool {
    entry(table, n, KIND) == kind::ARM && parent_of(table, n) == Some(a)
}

// Whether j and k, around which a is the innermost, may be open at one time: in branches of a flow, where one may wait at j while another waits at k, or as
// arms of one pick. Of a sequence, a choose, the parts of a scope and the activities of two arms only one runs at a time.
fn are_beside(table: &Table, a: usize, j: usize, k: usize) -> bool {
    match entry(table, a, KIND) {
        kind::FLOW => !is_undone_late(table, a, j) && !is_undone_late(table, a, k),
        kind::PICK => is_arm_of(table, a, j) && is_arm_of(table, a, k),
        _ => false,
    }
}

// Whether what stands at n begins as soon as activity m around it does.
fn begins(table: &Table, m: usize, n: usize) -> bool {
    match entry(table, m, KIND) {
        kind::SEQUENCE | kind::SCOPE | kind::OPEN_SCOPE | kind::NUMBERED_SCOPE => {
            n < end_of(table, after(m))
        }
        kind::FLOW | kind::PICK => true,
        _ => false,
    }
}

// Whether nothing before n has to be over before it begins.
fn is_undelayed(table: &Table, n: usize) -> bool {
    !(0..n).any(|m| n < end_of(table, m) && !begins(table, m, n))
}

// Whether row n is a receive or an arm that is open as an order starts, and may start it.
fn is_starting(table: &Table, n: usize) -> bool {
    is_receive(entry(table, n, KIND)) && n < end_of(table, 0) && is_undelayed(table, n)
}

fn is_flow_around(table: &Table, i: usize, j: usize) -> bool {
    around(table, i, j).is_some_and(|a| entry(table, a, KIND) == kind::FLOW)
}

// Whether an order that is started at row i is left with both j and k.
fn leaves_both(table: &Table, i: usize, j: usize, k: usize) -> bool {
    is_starting(table, i) && is_flow_around(table, i, j) && is_flow_around(table, i, k)
}

fn are_ever_left(table: &Table, j: usize, k: usize) -> bool {
    (0..256).any(|i| leaves_both(table, i, j, k))
}

// Of two that are open as an order starts one takes the message that starts it, unless a third does: only what is open after a step is judged.
fn are_open_later(table: &Table, j: usize, k: usize) -> bool {
    !is_starting(table, j) || !is_starting(table, k) || are_ever_left(table, j, k)
}

fn may_meet(table: &Table, j: usize, k: usize) -> bool {
    around(table, j, k).is_some_and(|a| are_beside(table, a, j, k)) && are_open_later(table, j, k)
}

// Whether row j is a receive or an arm that may be open together with k, another one, for the same thing.
fn is_rival(table: &Table, j: usize, k: usize) -> bool {
    is_receive(entry(table, j, KIND)) && is_same_thing(table, j, k) && may_meet(table, j, k)
}

// The lowest-numbered receive or arm before k that may be open together with it for the same thing, where there is one.
pub fn rival_of(table: &Table, k: usize) -> Option<usize> {
    if !is_receive(entry(table, k, KIND)) {
        return None;
    }
    (0..k).find(|j| is_rival(table, *j, k))
}

// Whether there is one.
pub(crate) fn is_contested(table: &Table, k: usize) -> bool {
    rival_of(table, k).is_some()
}

// Whether what stands in a may still wait while scope u undoes scope t: always where a stands in that undo part, else where u stands in a.
fn waits_on(table: &Table, a: usize, t: usize, u: usize) -> bool {
    !is_within(table, a, t) || is_within(table, a, u)
}

// Whether a raise in the undo part of scope t, while something else in a waits, may fault scope s, or the root where that is none. The scope around t undoes
// it, and a raise there faults the one around that; or, where that has no undo part and closed before, the one to which it handed that on. (Where the root
// undoes it, the order fails.)
fn faults_undoing(table: &Table, s: Option<usize>, t: usize, a: usize) -> bool {
    let mut runner = scope_of(table, t);
    for _ in 0..16 {
        match runner {
            Some(u) if waits_on(table, a, t, u) => {
                let outer = scope_of(table, u);
                if outer == s {
                    return true;
                }
                if entry(table, u, KIND) != kind::OPEN_SCOPE {
                    return false;
                }
                runner = outer;
            }
            _ => return false,
        }
    }
    false
}

// A raise in the body of scope t faults it, one in its fault part the scope around it, and one in its undo part the scope around the one that undoes.
fn faults_from(table: &Table, s: Option<usize>, t: usize, n: usize, a: usize) -> bool {
    match part_in(table, t, n) {
        Part::Body => s == Some(t),
        Part::Fault => s == scope_of(table, t),
        Part::Undo => faults_undoing(table, s, t, a),
    }
}

// Whether a raise in place of row n may fault scope s, or the root where that is none, while something else in a waits.
fn may_fault(table: &Table, s: Option<usize>, n: usize, a: usize) -> bool {
    match scope_of(table, n) {
        Some(t) => faults_from(table, s, t, n, a),
        None => s.is_none() && n < end_of(table, 0),
    }
}

// Whether the rival of row k may make it fault scope s.
fn faults(table: &Table, s: Option<usize>, k: usize) -> bool {
    match rival_of(table, k) {
        Some(j) => around(table, j, k).is_some_and(|a| may_fault(table, s, k, a)),
        None => false,
    }
}

// The first receive or arm whose rival may make it fault scope s, or the root where that is none.
pub fn contested_in(table: &Table, s: Option<usize>) -> Option<usize> {
    (0..256).find(|k| faults(table, s, *k))
}
