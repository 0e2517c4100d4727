// Reads a whole plan: its head, the root's body and the root's fault part.
ghost use Rattle.std.specs.Prelude.{◌≤◌, [], ◌≡◌};
ghost use Rattle.plan.specs.Answers.{field_of, CorrelationRead, RootRead, FlaggedRead, PlanRead, flagged_in};
ghost use Rattle.plan.specs.Fits.{NumberFits};
ghost use Rattle.plan.specs.Nodes.{Base};
ghost use Rattle.plan.specs.Read.{version_in, correlation_in, root_in, read_any, read_plan};
ghost use Rattle.plan.specs.Store.{chosen};
ghost use Rattle.plan.specs.Table.{blank_flags};

use super::agree::first_differing;
use super::fields::{field_at, number_at};
use super::table::Table;
use super::tree::activities_at;
use super::{Accepted, Answer, Refusal};
use numbers::Number;

// The version, which is 1.
fn version_at(s: &[u8]) -> Result<Number, Refusal>
    ensures is { result ≡ field_of (version_in s.now) }
    ensures fits { NumberFits s.now 0 result }
{
    let read = number_at(s, 0)?;
    if read.value == 1 {
        return Ok(read);
    }
    Err(Refusal {
        number: 4,
        place: 0,
    })
}

// `count` correlation variables from `at` on, flagged; the next place.
fn correlation_at(
    s: &[u8],
    at: usize,
    count: u32,
    vars: u32,
    flags: &mut [u8; 16],
) -> Result<usize, Refusal>
    requires { (vars ≤ 16) × (flags.old ≡ blank_flags) }
    ensures { CorrelationRead (correlation_in vars s.now count 0 [] at) result flags.new }
{
    let mut least: u32 = 0;
    let mut next = at;
    for _ in 0..count {
        let f = field_at(s, next, least, vars)?;
        flags[f.value as usize] = 1;
        least = f.value + 1;
        next = f.next;
    }
    Ok(next)
}

// The root's body and the root's fault part.
fn root_at(s: &[u8], at: usize, vars: u32, flags: &[u8; 16], table: &mut Table) -> Answer
    requires { Base s.now vars 0 at }
    ensures { RootRead (root_in vars (chosen 0 flags.now) s.now at) at result table.old table.new }
{
    let parts = activities_at(s, at, false, false, true, 2, 16, vars, flags, 0, 0, table)?;
    if parts.next < s.len() {
        return Err(Refusal {
            number: 9,
            place: parts.next,
        });
    }
    if parts.first {
        return Ok(Accepted {
            variables: vars,
            activities: parts.count,
            nodes: parts.nodes,
        });
    }
    Err(Refusal {
        number: 7,
        place: at,
    })
}

// The correlation variables and what follows them.
fn flagged_at(s: &[u8], at: usize, vars: u32, table: &mut Table, flags: &mut [u8; 16]) -> Answer
    requires { Base s.now vars 0 at × (flags.old ≡ blank_flags) }
    ensures { FlaggedRead (flagged_in vars s.now at) at result table.old table.new flags.new }
{
    let count = field_at(s, at, 0, vars + 1)?;
    let body = correlation_at(s, count.next, count.value, vars, flags)?;
    root_at(s, body, vars, flags, table)
}

// The whole plan, whether or not its receives agree, over what the table held and into flags that are blank.
fn plan_at(s: &[u8], table: &mut Table, flags: &mut [u8; 16]) -> Answer
    requires { flags.old ≡ blank_flags }
    ensures { PlanRead (read_any s.now) result table.old table.new flags.new }
{
    if 4096 < s.len() {
        return Err(Refusal {
            number: 1,
            place: 0,
        });
    }
    let version = version_at(s)?;
    let vars = field_at(s, version.next, 1, 17)?;
    flagged_at(s, vars.next, vars.value, table, flags)
}

// The whole plan, whose receives agree.
pub(crate) fn agreed_at(s: &[u8], table: &mut Table, flags: &mut [u8; 16]) -> Answer
    requires { flags.old ≡ blank_flags }
    ensures { PlanRead (read_plan s.now) result table.old table.new flags.new }
{
    let a = plan_at(s, table, flags)?;
    let place = first_differing(table, a.activities);
    if place == 0 {
        return Ok(a);
    }
    Err(Refusal { number: 21, place })
}
