// The numbers of a plan, each with its rule, and tuples of variables.
ghost use Rattle.std.specs.Prelude.{◌≤◌, ◌<◌, eqb, ◌&&◌, [], ◌≡◌};
ghost use Rattle.plan.specs.Answers.{field_of, tuple_of};
ghost use Rattle.plan.specs.Fits.{NumberFits, FieldFits};
ghost use Rattle.plan.specs.Found.{refused, number_in, field_in};
ghost use Rattle.plan.specs.Read.{variables_in, tuple_in};

use super::{Refusal, Tuple, reading};
use numbers::{Number, Trouble};

// The number at `at`.
pub(crate) fn number_at(s: &[u8], at: usize) -> Result<Number, Refusal>
    ensures is { result ≡ field_of (number_in s.now at) }
    ensures fits { NumberFits s.now at result }
{
    match reading::read(s, at) {
        Ok(number) => Ok(number),
        Err(Trouble::Short) => Err(Refusal {
            number: 2,
            place: s.len(),
        }),
        Err(Trouble::Bad) => Err(Refusal {
            number: 3,
            place: at,
        }),
    }
}

// The number at `at`, at least `least` and below `limit`.
pub(crate) fn field_at(s: &[u8], at: usize, least: u32, limit: u32) -> Result<Number, Refusal>
    ensures is { result ≡ field_of (field_in s.now least limit at) }
    ensures fits { FieldFits s.now at least limit result }
{
    let read = number_at(s, at)?;
    if read.value < least || limit <= read.value {
        return Err(Refusal {
            number: 5,
            place: at,
        });
    }
    Ok(read)
}

// `count` variables from `at` on; where `once` holds, none twice.
fn variables_at(s: &[u8], at: usize, count: u32, vars: u32, once: bool) -> Result<Tuple, Refusal>
    requires { (count ≤ 4) × (vars ≤ 16) }
    ensures { result ≡ tuple_of (variables_in vars once s.now count [] at) }
{
    let mut variables = [0u32; 4];
    let mut seen = [0u8; 16];
    let mut next = at;
    for i in 0..count as usize {
        let f = field_at(s, next, 0, vars)?;
        let v = f.value as usize;
        if once && seen[v] == 1 {
            return Err(Refusal {
                number: 5,
                place: next,
            });
        }
        seen[v] = 1;
        variables[i] = f.value;
        next = f.next;
    }
    Ok(Tuple {
        count,
        variables,
        next,
    })
}

// A tuple: its count, 1 to 4, and its variables.
pub(crate) fn tuple_at(s: &[u8], at: usize, vars: u32, once: bool) -> Result<Tuple, Refusal>
    requires { vars ≤ 16 }
    ensures { result ≡ tuple_of (tuple_in vars once s.now at) }
{
    let count = field_at(s, at, 1, 5)?;
    variables_at(s, count.next, count.value, vars, once)
}
