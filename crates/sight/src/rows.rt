// What one row of an order has on offer.
ghost use Rattle.std.specs.Prelude.{◌+◌, ◌*◌, ◌≤◌, ◌<◌, eqb, get_or, false, ◌≡◌};
ghost use Rattle.plan.specs.Read.{is_scope_code};
ghost use Rattle.fit.specs.Lines.{Rows, Wholes};
ghost use Rattle.sight.specs.Sights.{Marked, Exchanging, Heeding, Serving, Opening, AwaitsRow, CutRow, cut_line, is_send_code, ClosesRow, TakesLetter, take_line, doing_line, offer_line};

use super::Sight;
use super::counting::{shown, withheld};
use fit::fitness::{asked_at, fits_at, unchecked_at};
use fit::search::arm_open;
use order::sending::may_send;
use plan::kind;
use plan::table::{Table, WIDTH};

// Whether a kind is that of a scope, with an undo part of its own, with none, or with fault parts by number.
#[tactic(auto, using(crate::proofs::Sets::is_scope))]
fn is_scope(kind: u32) -> bool
    ensures { result ≡ is_scope_code kind }
{
    matches!(kind, kind::SCOPE | kind::OPEN_SCOPE | kind::NUMBERED_SCOPE)
}

// Whether a kind is that of a send, to a partner or to the one that a variable holds.
#[tactic(auto, using(std::proofs::lemmas::Bool::Decides::nat_tests), unfolding(crate::specs::Sights::is_send_code))]
fn is_send(kind: u32) -> bool
    ensures { result ≡ is_send_code kind }
{
    matches!(kind, kind::SEND | kind::HELD_SEND)
}

// Whether row k awaits its step.
#[tactic(auto, using(crate::proofs::Sets::awaits_at))]
fn awaits_at(table: &Table, picks: &[usize; 256], marks: &[u8; 256], k: usize) -> bool
    requires { k < 256 }
    ensures { AwaitsRow table.now picks.now marks.now k result }
{
    let kind = table[k * WIDTH];
    if kind == kind::ARM {
        arm_open(table, picks, marks, k)
    } else if is_scope(kind) {
        marks[k] == 3
    } else {
        marks[k] == 1
    }
}

// Whether row k is a raise or a leave.
fn is_cut(table: &Table, k: usize) -> bool
    requires { k < 256 }
    ensures { CutRow table.now k result }
{
    let kind = table[k * WIDTH];
    kind == kind::RAISE || kind == kind::NUMBERED_RAISE || kind == kind::LEAVE
}

// Whether row k is an active raise or leave, or one was before.
#[tactic(auto, using(crate::proofs::Sets::cut_row))]
fn cut_row(table: &Table, marks: &[u8; 256], k: usize, before: bool) -> bool
    requires { k < 256 }
    ensures { Rows table.now k (Marked marks.now) cut_line before result }
{
    before || is_cut(table, k) && marks[k] == 1
}

// Whether an order has an active raise or leave.
#[tactic(auto, using(crate::proofs::Sets::cut_rows))]
pub fn cut_rows(table: &Table, marks: &[u8; 256], activities: usize) -> bool
    ensures { Wholes table.now activities (Marked marks.now) cut_line false result }
{
    if 256 < activities {
        return false;
    }
    let mut c = false;
    for k in 0..activities {
        c = cut_row(table, marks, k, c);
    }
    c
}

// What the message at place j adds at the receive or arm in row k.
#[tactic(auto, using(crate::proofs::Sets::take_letter))]
fn take_letter(
    table: &Table,
    slot: usize,
    k: usize,
    asked: &[u64; 4],
    unchecked: usize,
    letters: &[u32; 512],
    j: usize,
    least: usize,
    s: &mut Sight,
)
    requires { (k < 256) × (j < 64) }
    ensures { TakesLetter table.now slot k asked.now unchecked letters.now j least s.old s.new }
{
    if unchecked <= least && fits_at(table, k, asked, letters, j) {
        *s = shown(*s, slot, k, j);
    }
}

// What the messages add at the receive or arm in row k. Not put in line with what else a row may do: the loop over the messages, which an offer spends half its time in, would then lack registers.
#[tactic(auto, using(crate::proofs::Sets::take_row))]
#[inline(never)]
fn take_row(
    table: &Table,
    known: &[u64; 16],
    slot: usize,
    k: usize,
    letters: &[u32; 512],
    waiting: usize,
    least: &[usize; 64],
    s: Sight,
) -> Sight
    requires { (k < 256) × (waiting ≤ 64) }
    ensures { Rows table.now k (Exchanging table.now k (Heeding known.now letters.now waiting least.now)) (take_line slot (get_or table.now (k * 13 + 1) 0) (get_or table.now (k * 13 + 2) 0)) s result }
{
    let asked = asked_at(table, known, k);
    let unchecked = unchecked_at(table, k, &asked);
    let mut c = s;
    for j in 0..waiting {
        take_letter(
            table, slot, k, &asked, unchecked, letters, j, least[j], &mut c,
        );
    }
    c
}

// Whether a part is the body of the scope in row k.
fn is_body(part: u8, k: usize) -> bool
    requires { k < 256 }
    ensures { result ≡ eqb part (k + 1) }
{
    part as usize == k + 1
}

// Whether the close in row k, of a scope of this kind, is held: the scope has an undo part, all 32 places are taken, and the close forgets nothing.
#[tactic(auto, using(crate::proofs::Sets::close_held))]
fn close_held(kind: u32, parts: &[u8; 32], kept: usize, k: usize) -> bool
    requires { k < 256 }
    ensures { ClosesRow kind parts.now kept k result }
{
    if kind == kind::OPEN_SCOPE || kept < 32 {
        return false;
    }
    for part in parts {
        if is_body(*part, k) {
            return false;
        }
    }
    true
}

// What row k has on offer, whether or not it awaits its step.
#[tactic(auto, using(crate::proofs::Sets::doing_row))]
fn doing_row(
    table: &Table,
    known: &[u64; 16],
    bound: &[u8; 16],
    values: &[u32; 16],
    parts: &[u8; 32],
    kept: usize,
    slot: usize,
    k: usize,
    letters: &[u32; 512],
    waiting: usize,
    least: &[usize; 64],
    s: Sight,
) -> Sight
    requires { (k < 256) × (waiting ≤ 64) }
    ensures { Rows table.now k (Serving known.now bound.now values.now parts.now kept letters.now waiting least.now) (doing_line waiting slot) s result }
{
    let kind = table[k * WIDTH];
    if is_send(kind) {
        if 64 <= waiting && may_send(table, k, bound, values) {
            withheld(s)
        } else {
            shown(s, slot, k, 0)
        }
    } else if kind == kind::RECEIVE || kind == kind::ASKING_RECEIVE || kind == kind::ARM {
        take_row(table, known, slot, k, letters, waiting, least, s)
    } else if is_scope(kind) {
        if close_held(kind, parts, kept, k) {
            withheld(s)
        } else {
            shown(s, slot, k, 0)
        }
    } else if kind == kind::NUMBERED_RAISE || kind::SET <= kind && kind <= kind::REPEAT {
        shown(s, slot, k, 0)
    } else {
        s
    }
}

// What row k has on offer.
#[tactic(auto, using(crate::proofs::Sets::offer_row))]
pub(crate) fn offer_row(
    table: &Table,
    picks: &[usize; 256],
    marks: &[u8; 256],
    known: &[u64; 16],
    bound: &[u8; 16],
    values: &[u32; 16],
    parts: &[u8; 32],
    kept: usize,
    slot: usize,
    k: usize,
    cutting: bool,
    letters: &[u32; 512],
    waiting: usize,
    least: &[usize; 64],
    s: Sight,
) -> Sight
    requires { (k < 256) × (waiting ≤ 64) }
    ensures { Rows table.now k (Opening table.now picks.now marks.now known.now bound.now values.now parts.now kept letters.now waiting least.now) (offer_line cutting waiting slot) s result }
{
    if awaits_at(table, picks, marks, k) && (!cutting || is_cut(table, k)) {
        doing_row(
            table, known, bound, values, parts, kept, slot, k, letters, waiting, least, s,
        )
    } else {
        s
    }
}

// What all rows of an order have on offer.
#[tactic(auto, using(crate::proofs::Sets::offer_rows))]
pub fn offer_rows(
    table: &Table,
    picks: &[usize; 256],
    marks: &[u8; 256],
    known: &[u64; 16],
    bound: &[u8; 16],
    values: &[u32; 16],
    parts: &[u8; 32],
    kept: usize,
    slot: usize,
    activities: usize,
    cutting: bool,
    letters: &[u32; 512],
    waiting: usize,
    least: &[usize; 64],
    s: Sight,
) -> Sight
    ensures { Wholes table.now activities (Opening table.now picks.now marks.now known.now bound.now values.now parts.now kept letters.now waiting least.now) (offer_line cutting waiting slot) s result }
{
    if 256 < activities || 64 < waiting {
        return s;
    }
    let mut c = s;
    for k in 0..activities {
        c = offer_row(
            table, picks, marks, known, bound, values, parts, kept, slot, k, cutting, letters,
            waiting, least, c,
        );
    }
    c
}
