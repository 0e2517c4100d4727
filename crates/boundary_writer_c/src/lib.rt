// The exports of the crate boundary_writer for C: the plan writer for callers in other languages, as a static library.
#![tactic(auto)]

ghost use Rattle.std.specs.Prelude.{length, ◌≡◌};
ghost use Rattle.boundary_writer.specs.Packed.{answer_number};
ghost use Rattle.plan.specs.Read.{read_plan};
ghost use Rattle.writer.specs.Reading.{read_rows};
ghost use Rattle.writer.specs.Written.{answer_for, bytes_for, rows_answer, rows_for};

// Writes a table's plan into `out`: the refusal's number times 2^32 and its place, or how many bytes were written.
#[unsafe(no_mangle)]
pub extern "C" fn moonhalyard_write(table: &[u32], out: &mut [u8]) -> u64
    ensures is { result ≡ answer_number (answer_for (read_rows table.now) (length out.old)) }
    ensures bytes { out.new ≡ bytes_for (read_rows table.now) out.old }
{
    boundary_writer::moonhalyard_write(table, out)
}

// Gives the table of the plan s into `out`: the refusal's number times 2^32 and its place, or how many numbers were given.
#[unsafe(no_mangle)]
pub extern "C" fn moonhalyard_rows(s: &[u8], out: &mut [u32]) -> u64
    ensures is { result ≡ answer_number (rows_answer (read_plan s.now) (length out.old)) }
    ensures table { out.new ≡ rows_for (read_plan s.now) out.old }
{
    boundary_writer::moonhalyard_rows(s, out)
}
