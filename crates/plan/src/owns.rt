// Reads what an activity or an arm says of itself, and writes its row.
ghost use Rattle.std.specs.Prelude.{◌≤◌, ◌<◌, eqb, leb, not, ◌&&◌, ◌||◌, [], ◌≡◌};
ghost use Rattle.plan.specs.Answers.{field_of, message_own, expression_own, list_own, OwnRead};
ghost use Rattle.plan.specs.Fits.{NumberFits};
ghost use Rattle.plan.specs.Nodes.{Base, Room, IsMessage, IsExpression, IsList, node_head_in};
ghost use Rattle.plan.specs.Read.{exchange_in, partner_in, arm_in, with_expression_in, set_in, list_in, raise_in, is_code, is_scope_code, code_in, parts_in, head_in};
ghost use Rattle.plan.specs.Store.{chosen};
ghost use Rattle.plan.specs.Table.{row, put_row};

use super::expressions::expression_at;
use super::fields::{field_at, number_at, tuple_at};
use super::kinds::is_scope;
use super::replies::{asking_receive_own, held_send_own};
use super::table::{Table, write_row};
use super::{Own, Refusal, kind};
use numbers::Number;

// An activity whose own numbers are all read.
fn plain_own(
    at: usize,
    kind: u32,
    within: u32,
    n: usize,
    m: usize,
    place: usize,
    table: &mut Table,
) -> Result<Own, Refusal>
    requires { (n < 256) × (place ≤ 4096) }
    ensures is { result ≡ Ok (Own.Read kind within at m) }
    ensures put { table.new ≡ put_row n (row kind 0 0 [] 0 0 place) table.old }
{
    write_row(table, n, kind, 0, 0, 0, [0u32; 4], 0, 0, place);
    Ok(Own::Read {
        kind,
        within,
        next: at,
        nodes: m,
    })
}

// Operation, count and variables; of a send or a receive with a reply partner its row is written as if that were 0.
pub(crate) fn exchange_own(
    s: &[u8],
    at: usize,
    kind: u32,
    partner: u32,
    once: bool,
    within: u32,
    vars: u32,
    n: usize,
    m: usize,
    place: usize,
    table: &mut Table,
) -> Result<Own, Refusal>
    requires { Room s.now vars n m place at × (IsMessage kind × (partner < 64)) }
    ensures { OwnRead (exchange_in vars once s.now (message_own kind partner) within at) place n m result table.old table.new }
{
    let operation = field_at(s, at, 0, 64)?;
    let t = tuple_at(s, operation.next, vars, once)?;
    write_row(
        table,
        n,
        kind,
        partner,
        operation.value,
        t.count,
        t.variables,
        0,
        0,
        place,
    );
    Ok(Own::Read {
        kind,
        within,
        next: t.next,
        nodes: m,
    })
}

// A send or a receive.
fn partner_own(
    s: &[u8],
    at: usize,
    kind: u32,
    once: bool,
    vars: u32,
    n: usize,
    m: usize,
    place: usize,
    table: &mut Table,
) -> Result<Own, Refusal>
    requires { Room s.now vars n m place at × IsMessage kind }
    ensures { OwnRead (partner_in vars once s.now (message_own kind) at) place n m result table.old table.new }
{
    let partner = field_at(s, at, 0, 64)?;
    exchange_own(
        s,
        partner.next,
        kind,
        partner.value,
        once,
        0,
        vars,
        n,
        m,
        place,
        table,
    )
}

// An arm, from its partner number on.
fn arm_own(
    s: &[u8],
    at: usize,
    vars: u32,
    n: usize,
    m: usize,
    table: &mut Table,
) -> Result<Own, Refusal>
    requires { Base s.now vars m at }
    ensures { OwnRead (arm_in vars s.now n at) at n m result table.old table.new }
{
    let partner = field_at(s, at, 0, 64)?;
    if 256 <= n {
        return Err(Refusal {
            number: 6,
            place: at,
        });
    }
    exchange_own(
        s,
        partner.next,
        kind::ARM,
        partner.value,
        true,
        1,
        vars,
        n,
        m,
        at,
        table,
    )
}

// An activity with an expression.
fn expression_own(
    s: &[u8],
    at: usize,
    kind: u32,
    variable: u32,
    within: u32,
    vars: u32,
    n: usize,
    m: usize,
    place: usize,
    table: &mut Table,
) -> Result<Own, Refusal>
    requires { Room s.now vars n m place at × IsExpression kind variable }
    ensures { OwnRead (with_expression_in vars s.now (expression_own kind variable) within at) place n m result table.old table.new }
{
    let e = expression_at(s, at, 8, vars, m, table)?;
    write_row(table, n, kind, 0, 0, 0, [0u32; 4], variable, m, place);
    Ok(Own::Read {
        kind,
        within,
        next: e.next,
        nodes: e.nodes,
    })
}

// A set: a variable that is not for correlation, and an expression.
fn set_own(
    s: &[u8],
    at: usize,
    vars: u32,
    correlation: &[u8; 16],
    n: usize,
    m: usize,
    place: usize,
    table: &mut Table,
) -> Result<Own, Refusal>
    requires { Room s.now vars n m place at }
    ensures { OwnRead (set_in vars (chosen 0 correlation.now) s.now at) place n m result table.old table.new }
{
    let variable = field_at(s, at, 0, vars)?;
    if correlation[variable.value as usize] == 1 {
        return Err(Refusal {
            number: 5,
            place: at,
        });
    }
    expression_own(
        s,
        variable.next,
        kind::SET,
        variable.value,
        0,
        vars,
        n,
        m,
        place,
        table,
    )
}

// A list of activities or arms: a count below `limit`.
fn list_own(
    s: &[u8],
    at: usize,
    kind: u32,
    limit: u32,
    n: usize,
    m: usize,
    place: usize,
    table: &mut Table,
) -> Result<Own, Refusal>
    requires { IsList kind × ((n < 256) × (place ≤ 4096)) }
    ensures { OwnRead (list_in s.now (list_own kind) limit at) place n m result table.old table.new }
{
    let count = field_at(s, at, 1, limit)?;
    plain_own(count.next, kind, count.value, n, m, place, table)
}

// A raise with a number.
fn raise_own(
    s: &[u8],
    at: usize,
    n: usize,
    m: usize,
    place: usize,
    table: &mut Table,
) -> Result<Own, Refusal>
    requires { (n < 256) × (place ≤ 4096) }
    ensures { OwnRead (raise_in s.now at) place n m result table.old table.new }
{
    let fault = field_at(s, at, 16, 256)?;
    write_row(
        table,
        n,
        kind::NUMBERED_RAISE,
        fault.value,
        0,
        0,
        [0u32; 4],
        0,
        0,
        place,
    );
    Ok(Own::Read {
        kind: kind::NUMBERED_RAISE,
        within: 0,
        next: fault.next,
        nodes: m,
    })
}

// Whether no activity has this code.
fn unknown(code: u32) -> bool
    ensures { result ≡ not (is_code code) }
{
    kind::LAST < code && !matches!(code, kind::HELD_SEND | kind::ASKING_RECEIVE)
}

// Whether a scope stands where none may.
fn misplaced(code: u32, handler: bool) -> bool
    ensures { result ≡ (handler && is_scope_code code) }
{
    handler && is_scope(code)
}

// Whether there is no level left, or no number.
fn overrun(depth: usize, n: usize) -> bool
    ensures { result ≡ (eqb depth 0 || leb 256 n) }
{
    depth == 0 || 256 <= n
}

// The code of an activity.
fn code_at(s: &[u8], at: usize, handler: bool, depth: usize, n: usize) -> Result<Number, Refusal>
    ensures is { result ≡ field_of (code_in s.now handler depth n at) }
    ensures fits { NumberFits s.now at result }
{
    let read = number_at(s, at)?;
    if unknown(read.value) {
        return Err(Refusal {
            number: 4,
            place: at,
        });
    }
    if misplaced(read.value, handler) {
        return Err(Refusal {
            number: 8,
            place: at,
        });
    }
    if overrun(depth, n) {
        return Err(Refusal {
            number: 6,
            place: at,
        });
    }
    Ok(read)
}

// The parts of an activity by its code.
fn parts_own(
    s: &[u8],
    at: usize,
    code: u32,
    vars: u32,
    correlation: &[u8; 16],
    n: usize,
    m: usize,
    place: usize,
    table: &mut Table,
) -> Result<Own, Refusal>
    requires { Room s.now vars n m place at }
    ensures { OwnRead (parts_in vars (chosen 0 correlation.now) s.now code at) place n m result table.old table.new }
{
    match code {
        kind::EMPTY => plain_own(at, kind::EMPTY, 0, n, m, place, table),
        kind::SEND | kind::RECEIVE => partner_own(
            s,
            at,
            code,
            code == kind::RECEIVE,
            vars,
            n,
            m,
            place,
            table,
        ),
        kind::SET => set_own(s, at, vars, correlation, n, m, place, table),
        kind::RAISE => plain_own(at, kind::RAISE, 0, n, m, place, table),
        kind::LEAVE => plain_own(at, kind::LEAVE, 0, n, m, place, table),
        kind::CHOOSE => expression_own(s, at, kind::CHOOSE, 0, 2, vars, n, m, place, table),
        kind::REPEAT => expression_own(s, at, kind::REPEAT, 0, 1, vars, n, m, place, table),
        kind::SEQUENCE => list_own(s, at, kind::SEQUENCE, 33, n, m, place, table),
        kind::FLOW => list_own(s, at, kind::FLOW, 33, n, m, place, table),
        kind::PICK => list_own(s, at, kind::PICK, 9, n, m, place, table),
        kind::SCOPE => plain_own(at, kind::SCOPE, 3, n, m, place, table),
        kind::OPEN_SCOPE => plain_own(at, kind::OPEN_SCOPE, 2, n, m, place, table),
        kind::NUMBERED_RAISE => raise_own(s, at, n, m, place, table),
        kind::NUMBERED_SCOPE => Ok(Own::Numbered { body: at }),
        kind::HELD_SEND => held_send_own(s, at, vars, n, m, place, table),
        _ => asking_receive_own(s, at, vars, correlation, n, m, place, table),
    }
}

// What the activity at `at` says of itself.
fn activity_own(
    s: &[u8],
    at: usize,
    handler: bool,
    depth: usize,
    vars: u32,
    correlation: &[u8; 16],
    n: usize,
    m: usize,
    table: &mut Table,
) -> Result<Own, Refusal>
    requires { Base s.now vars m at }
    ensures { OwnRead (head_in vars (chosen 0 correlation.now) s.now handler depth n at) at n m result table.old table.new }
{
    let code = code_at(s, at, handler, depth, n)?;
    parts_own(s, code.next, code.value, vars, correlation, n, m, at, table)
}

// What the arm, or the activity, at `at` says of itself.
pub(crate) fn own_at(
    s: &[u8],
    at: usize,
    arm: bool,
    handler: bool,
    depth: usize,
    vars: u32,
    correlation: &[u8; 16],
    n: usize,
    m: usize,
    table: &mut Table,
) -> Result<Own, Refusal>
    requires { Base s.now vars m at }
    ensures { OwnRead (node_head_in arm vars (chosen 0 correlation.now) s.now handler depth n at) at n m result table.old table.new }
{
    if arm {
        arm_own(s, at, vars, n, m, table)
    } else {
        activity_own(s, at, handler, depth, vars, correlation, n, m, table)
    }
}
