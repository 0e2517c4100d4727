// Reads expressions into the table's nodes.
ghost use Rattle.std.specs.Prelude.{◌≤◌, ◌<◌, eqb, length, cond, ◌≡◌};
ghost use Rattle.plan.specs.Answers.{field_of, NodesRead};
ghost use Rattle.plan.specs.Fits.{NumberFits};
ghost use Rattle.plan.specs.Found.{number_in, field_in};
ghost use Rattle.plan.specs.Read.{expression_code_in, expression_in};

use super::fields::{field_at, number_at};
use super::table::{Table, write_node};
use super::{Nodes, Refusal};
use numbers::Number;

// The code of an expression.
fn expression_code_at(s: &[u8], at: usize) -> Result<Number, Refusal>
    ensures is { result ≡ field_of (expression_code_in s.now at) }
    ensures fits { NumberFits s.now at result }
{
    let read = number_at(s, at)?;
    if 5 < read.value {
        return Err(Refusal {
            number: 4,
            place: at,
        });
    }
    Ok(read)
}

// The value of a constant, whose code is 0, or the number of a variable.
fn leaf_at(s: &[u8], at: usize, code: u32, vars: u32) -> Result<Number, Refusal>
    ensures is { result ≡ field_of (cond (eqb code 0) (number_in s.now at) (field_in s.now 0 vars at)) }
    ensures fits { NumberFits s.now at result }
{
    if code == 0 {
        number_at(s, at)
    } else {
        field_at(s, at, 0, vars)
    }
}

// The expression at `at`, whose first node has the number m, where `depth` levels are left.
pub(crate) fn expression_at(
    s: &[u8],
    at: usize,
    depth: usize,
    vars: u32,
    m: usize,
    table: &mut Table,
) -> Result<Nodes, Refusal>
    requires { (length s.now ≤ 4096) × (m ≤ at) }
    ensures { NodesRead (expression_in depth vars s.now at) m result table.old table.new }
{
    let code = expression_code_at(s, at)?;
    if depth == 0 {
        return Err(Refusal {
            number: 6,
            place: at,
        });
    }
    if code.value < 2 {
        let leaf = leaf_at(s, code.next, code.value, vars)?;
        write_node(table, m, code.value, leaf.value);
        return Ok(Nodes {
            next: leaf.next,
            nodes: m + 1,
        });
    }
    let left = expression_at(s, code.next, depth - 1, vars, m + 1, table)?;
    write_node(table, m, code.value, left.nodes as u32);
    expression_at(s, left.next, depth - 1, vars, left.nodes, table)
}
