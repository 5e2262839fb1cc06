// What the listing program prints for its input (docs/DEFINITION.md, "The listing program"): the list, or the refusal.
// specs/Program.antt says what that is; the crate lines puts the bytes.
#![tactic(auto)]

ghost use Rattle.std.specs.Prelude.{[], ◌≤◌, length};
ghost use Rattle.table.specs.Checks.{told};
ghost use Rattle.lines.specs.Printed.{Filled, printed, room};
ghost use Rattle.printing.specs.Program.{program_prints};

use table::Refusal;

// 4,096 lines of ten digits, and a last line.
pub const ROOM: usize = 45096;

const CELLS: usize = 4096;

// Puts what the program prints for these bytes of its input at the start of `out`, and answers how many bytes that is. The bytes
// beyond are unchanged.
pub fn answer(input: &[u8], out: &mut [u8; ROOM]) -> usize
    ensures { Filled (program_prints input.now) out.old out.new result }
{
    put_answer(input, out)
}

fn put_answer(input: &[u8], out: &mut [u8]) -> usize
    requires { room ≤ length out.old }
    ensures { Filled (program_prints input.now) out.old out.new result }
{
    let mut sets = [0u32; CELLS];
    match input::list_input(input, &mut sets) {
        Ok(count) => lines::put_list(out, &sets[..count]),
        Err(why) => put_refusal(out, why),
    }
}

fn put_refusal(out: &mut [u8], why: Refusal) -> usize
    requires { room ≤ length out.old }
    ensures { Filled (printed (told why) []) out.old out.new result }
{
    lines::put_place(out, u32::from(why.reason) as usize, why.position)
}
