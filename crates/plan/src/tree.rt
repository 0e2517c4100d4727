// Reads an activity, a list of activities, and a scope with fault parts by number, which call each other.
ghost use Rattle.std.specs.Prelude.{◌+◌, ◌≤◌, ◌<◌, false, true, ◌&&◌, ◌||◌, ◌≡◌};
ghost use Rattle.plan.specs.Answers.{ActRead, ActsRead, NumberedRead};
ghost use Rattle.plan.specs.Nodes.{Base, ScopeRoom, NumbersRoom, node_in};
ghost use Rattle.plan.specs.Numbering.{backwards};
ghost use Rattle.plan.specs.Read.{is_scope_code, starts, many_in, numbered_in, numbered_scope_in};
ghost use Rattle.plan.specs.Store.{chosen};
ghost use Rattle.plan.specs.Within.{levels_below};

use super::fields::field_at;
use super::kinds::is_scope;
use super::named::{fault_number_at, with_number};
use super::owns::own_at;
use super::table::{Table, close_row, write_numbers};
use super::{Out, Own, Refusal, kind};

// The levels left for what stands within: an arm adds no depth.
fn levels_below(arm: bool, depth: usize) -> usize
    ensures { result ≡ levels_below arm depth }
{
    if arm { depth } else { depth.saturating_sub(1) }
}

// Whether those after the first within stand in a fault part or an undo part.
fn later_of(kind: u32, handler: bool) -> bool
    ensures { result ≡ (is_scope_code kind || handler) }
{
    is_scope(kind) || handler
}

// Whether an activity of this kind is a start form.
#[tactic(auto, unfolding(crate::specs::Read::starts))]
fn starts_of(kind: u32, first: bool, every: bool) -> bool
    ensures { result ≡ starts kind first every }
{
    match kind {
        kind::RECEIVE | kind::ASKING_RECEIVE | kind::PICK => true,
        kind::SEQUENCE | kind::SCOPE | kind::OPEN_SCOPE | kind::NUMBERED_SCOPE => first,
        kind::FLOW => every,
        _ => false,
    }
}

// The activity, or the arm, with the number n at `at`; m is the number of the next expression node.
#[cycle(activities_at_activity_at_numbered_at_numbered_scope_at)]
fn activity_at(
    s: &[u8],
    at: usize,
    arm: bool,
    handler: bool,
    depth: usize,
    vars: u32,
    correlation: &[u8; 16],
    n: usize,
    m: usize,
    table: &mut Table,
) -> Result<Out, Refusal>
    requires { Base s.now vars m at }
    ensures { ActRead (node_in arm depth vars (chosen 0 correlation.now) s.now handler n at) at n m result table.old table.new }
{
    let below = levels_below(arm, depth);
    match own_at(s, at, arm, handler, depth, vars, correlation, n, m, table)? {
        Own::Numbered { body } => {
            numbered_scope_at(s, body, at, handler, below, vars, correlation, n, m, table)
        }
        Own::Read {
            kind,
            within,
            next,
            nodes,
        } => {
            let all = activities_at(
                s,
                next,
                kind == kind::PICK,
                handler,
                later_of(kind, handler),
                within,
                below,
                vars,
                correlation,
                n + 1,
                nodes,
                table,
            )?;
            close_row(table, n, all.count, all.next);
            let start = starts_of(kind, all.first, all.every);
            Ok(Out {
                first: start,
                every: start,
                ..all
            })
        }
    }
}

// `left` activities, or arms, from `at` on. `handler` is that of the first of them and `later` that of the others.
#[cycle(activities_at_activity_at_numbered_at_numbered_scope_at)]
pub(crate) fn activities_at(
    s: &[u8],
    at: usize,
    arms: bool,
    handler: bool,
    later: bool,
    left: u32,
    depth: usize,
    vars: u32,
    correlation: &[u8; 16],
    n: usize,
    m: usize,
    table: &mut Table,
) -> Result<Out, Refusal>
    requires { Base s.now vars m at × ((n ≤ 256) × (left ≤ 32)) }
    ensures { ActsRead (many_in (node_in arms depth vars (chosen 0 correlation.now) s.now) handler later left n at) at n m result table.old table.new }
{
    if left == 0 {
        return Ok(Out {
            next: at,
            count: n,
            nodes: m,
            first: false,
            every: true,
        });
    }
    let one = activity_at(s, at, arms, handler, depth, vars, correlation, n, m, table)?;
    let rest = activities_at(
        s,
        one.next,
        arms,
        later,
        later,
        left - 1,
        depth,
        vars,
        correlation,
        one.count,
        one.nodes,
        table,
    )?;
    Ok(Out {
        first: one.first,
        every: one.first && rest.every,
        ..rest
    })
}

// A scope with fault parts by number, from its body on; its code stands at `place`.
#[cycle(activities_at_activity_at_numbered_at_numbered_scope_at)]
fn numbered_scope_at(
    s: &[u8],
    at: usize,
    place: usize,
    handler: bool,
    depth: usize,
    vars: u32,
    correlation: &[u8; 16],
    n: usize,
    m: usize,
    table: &mut Table,
) -> Result<Out, Refusal>
    requires { ScopeRoom s.now vars m place at × (n < 256) }
    ensures { ActRead (numbered_scope_in (node_in false depth vars (chosen 0 correlation.now) s.now) s.now handler n at) place n m result table.old table.new }
{
    let body = activity_at(
        s,
        at,
        false,
        handler,
        depth,
        vars,
        correlation,
        n + 1,
        m,
        table,
    )?;
    let many = field_at(s, body.next, 1, 9)?;
    let rest = numbered_at(
        s,
        many.next,
        many.value,
        [0u32; 8],
        0,
        depth,
        vars,
        correlation,
        body.count,
        body.nodes,
        n,
        place,
        table,
    )?;
    close_row(table, n, rest.count, rest.next);
    Ok(Out {
        first: body.first,
        every: body.first,
        ..rest
    })
}

// `left` fault parts by number, each behind its number, and the two parts that follow them: those of the scope with the number `row`, whose code stands at
// `place` and of whose numbers the first k are read. Its row is written once all are.
#[cycle(activities_at_activity_at_numbered_at_numbered_scope_at)]
fn numbered_at(
    s: &[u8],
    at: usize,
    left: u32,
    numbers: [u32; 8],
    k: usize,
    depth: usize,
    vars: u32,
    correlation: &[u8; 16],
    n: usize,
    m: usize,
    row: usize,
    place: usize,
    table: &mut Table,
) -> Result<Out, Refusal>
    requires { NumbersRoom s.now vars n m row place at × (k + left ≤ 8) }
    ensures { NumberedRead (numbered_in (node_in false depth vars (chosen 0 correlation.now) s.now) s.now left (backwards k numbers) n at) numbers k row place at n m result table.old table.new }
{
    if left == 0 {
        write_numbers(table, row, numbers, k, place);
        return activities_at(
            s,
            at,
            false,
            true,
            true,
            2,
            depth,
            vars,
            correlation,
            n,
            m,
            table,
        );
    }
    let number = fault_number_at(s, at, numbers, k)?;
    let part = activity_at(
        s,
        number.next,
        false,
        true,
        depth,
        vars,
        correlation,
        n,
        m,
        table,
    )?;
    numbered_at(
        s,
        part.next,
        left - 1,
        with_number(numbers, k, number.value),
        k + 1,
        depth,
        vars,
        correlation,
        part.count,
        part.nodes,
        row,
        place,
        table,
    )
}
