// Reads a send or a receive with a reply partner: its row is written as that of any exchange, and then what stands behind the tuple into it.
ghost use Rattle.std.specs.Prelude.{◌+◌, ◌*◌, ◌≤◌, ◌<◌, length, get_or, ◌||◌, ◌≡◌};
ghost use Rattle.plan.specs.Answers.{field_of, storing_in, OwnRead};
ghost use Rattle.plan.specs.Fits.{NumberFits};
ghost use Rattle.plan.specs.Found.{among};
ghost use Rattle.plan.specs.Nodes.{Room};
ghost use Rattle.plan.specs.Numbering.{named};
ghost use Rattle.plan.specs.Read.{held_send_in, asking_receive_in};
ghost use Rattle.plan.specs.Store.{chosen};

use super::fields::field_at;
use super::owns::exchange_own;
use super::table::{COUNT, REPLY, Table, VARIABLE, VARIABLES, WIDTH, write_column};
use super::{Own, Refusal, kind};
use numbers::Number;

// A send to the partner that a variable holds: that variable, what it exchanges, and the reply partner.
pub(crate) fn held_send_own(
    s: &[u8],
    at: usize,
    vars: u32,
    n: usize,
    m: usize,
    place: usize,
    table: &mut Table,
) -> Result<Own, Refusal>
    requires { Room s.now vars n m place at }
    ensures { OwnRead (held_send_in vars s.now at) place n m result table.old table.new }
{
    let variable = field_at(s, at, 0, vars)?;
    let sent = exchange_own(
        s,
        variable.next,
        kind::HELD_SEND,
        0,
        false,
        0,
        vars,
        n,
        m,
        place,
        table,
    )?;
    match sent {
        Own::Numbered { .. } => Ok(sent),
        Own::Read {
            kind,
            within,
            next,
            nodes,
        } => {
            let reply = field_at(s, next, 0, 64)?;
            write_column(table, n, REPLY, reply.value);
            write_column(table, n, VARIABLE, variable.value);
            Ok(Own::Read {
                kind,
                within,
                next: reply.next,
                nodes,
            })
        }
    }
}

// Whether a variable may not store a reply partner: one for correlation, or one that the receive of row n names.
fn spoken_for(table: &[u32], n: usize, variable: u32, correlation: &[u8; 16]) -> bool
    requires { ((n < 256) × (variable < 16)) × ((length table.now ≡ 11584) × (get_or table.now (n * 13 + 3) 0 ≤ 4)) }
    ensures { result ≡ (among variable (chosen 0 correlation.now) || among variable (named table.now n)) }
{
    if correlation[variable as usize] == 1 {
        return true;
    }
    let b = n * WIDTH;
    let others = [
        table[b + VARIABLES],
        table[b + 5],
        table[b + 6],
        table[b + 7],
        0,
        0,
        0,
        0,
    ];
    others[..table[b + COUNT] as usize].contains(&variable)
}

// The variable that stores the reply partner of the receive of row n.
fn storing_at(
    s: &[u8],
    at: usize,
    vars: u32,
    correlation: &[u8; 16],
    table: &[u32],
    n: usize,
) -> Result<Number, Refusal>
    requires { ((n < 256) × (vars ≤ 16)) × ((length table.now ≡ 11584) × (get_or table.now (n * 13 + 3) 0 ≤ 4)) }
    ensures { result ≡ field_of (storing_in vars (chosen 0 correlation.now) (named table.now n) s.now at) }
{
    let variable = field_at(s, at, 0, vars)?;
    if spoken_for(table, n, variable.value, correlation) {
        return Err(Refusal {
            number: 5,
            place: at,
        });
    }
    Ok(variable)
}

// A receive that stores the reply partner: its partner, what it exchanges, and the variable that stores.
pub(crate) fn asking_receive_own(
    s: &[u8],
    at: usize,
    vars: u32,
    correlation: &[u8; 16],
    n: usize,
    m: usize,
    place: usize,
    table: &mut Table,
) -> Result<Own, Refusal>
    requires { Room s.now vars n m place at }
    ensures { OwnRead (asking_receive_in vars (chosen 0 correlation.now) s.now at) place n m result table.old table.new }
{
    let partner = field_at(s, at, 0, 64)?;
    let received = exchange_own(
        s,
        partner.next,
        kind::ASKING_RECEIVE,
        partner.value,
        true,
        0,
        vars,
        n,
        m,
        place,
        table,
    )?;
    match received {
        Own::Numbered { .. } => Ok(received),
        Own::Read {
            kind,
            within,
            next,
            nodes,
        } => {
            let variable = storing_at(s, next, vars, correlation, table, n)?;
            write_column(table, n, VARIABLE, variable.value);
            Ok(Own::Read {
                kind,
                within,
                next: variable.next,
                nodes,
            })
        }
    }
}
