// The rows of a plan: from its bytes to the table that the crate writer writes it from. The public call is `rows`.
#![tactic(auto)]

mod cut;

ghost use Rattle.std.specs.Prelude.{length, ◌≡◌};
ghost use Rattle.plan.specs.Read.{read_plan};
ghost use Rattle.writer.specs.Written.{rows_answer, rows_for};

use plan::Refusal;
use plan::table::LENGTH;
use writer::Answer;

// The table of the plan s, into the buffer from its start on. Where it is refused the buffer stays as it was.
pub fn rows(s: &[u8], out: &mut [u32]) -> Answer
    ensures is { result ≡ rows_answer (read_plan s.now) (length out.old) }
    ensures table { out.new ≡ rows_for (read_plan s.now) out.old }
{
    let mut table = [0u32; LENGTH];
    let mut correlation = [0u8; 16];
    let plan = plan::accept_over(s, &mut table, &mut correlation)?;
    let left = plan.activities + plan.nodes + cut::between(&table, plan.activities);
    if out.len() / 20 <= left {
        return Err(Refusal {
            number: 18,
            place: 0,
        });
    }
    cut::put_rows(s, &table, left, out);
    Ok((left + 1) * 20)
}
