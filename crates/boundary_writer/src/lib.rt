// The plan writer for callers in other languages: tables and bytes go in and out of lent buffers, and one number comes out. The crate boundary_writer_c has its
// exports for C.
#![tactic(auto)]

ghost use Rattle.std.specs.Prelude.{length, ◌≡◌};
ghost use Rattle.boundary_writer.specs.Packed.{answer_number};
ghost use Rattle.plan.specs.Read.{read_plan};
ghost use Rattle.writer.specs.Reading.{read_rows};
ghost use Rattle.writer.specs.Written.{answer_for, bytes_for, rows_answer, rows_for};

use writer::Answer;

// An answer as one number.
#[tactic(auto, unfolding(crate::specs::Packed::answer_number))]
fn number_of(a: Answer) -> u64
    ensures { result ≡ answer_number a }
{
    match a {
        Err(why) => u64::from(why.number) * 4294967296 + (why.place as u64) % 4294967296,
        Ok(length) => (length as u64) % 4294967296,
    }
}

// Writes a table's plan into `out`: the refusal's number times 2^32 and its place, or how many bytes were written.
pub fn moonhalyard_write(table: &[u32], out: &mut [u8]) -> u64
    ensures is { result ≡ answer_number (answer_for (read_rows table.now) (length out.old)) }
    ensures bytes { out.new ≡ bytes_for (read_rows table.now) out.old }
{
    number_of(writer::write(table, out))
}

// Gives the table of the plan s into `out`: the refusal's number times 2^32 and its place, or how many numbers were given.
pub fn moonhalyard_rows(s: &[u8], out: &mut [u32]) -> u64
    ensures is { result ≡ answer_number (rows_answer (read_plan s.now) (length out.old)) }
    ensures table { out.new ≡ rows_for (read_plan s.now) out.old }
{
    number_of(rows::rows(s, out))
}
