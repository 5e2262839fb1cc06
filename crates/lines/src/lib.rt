// What is printed of a list and of a refusal (docs/DEFINITION.md, "The listing program"), put at the start of a buffer: one decimal
// set a line, then `sets` and the count; or one line `refused`, the number, the position. specs/Printed.antt says which bytes
// these are. The crate printing says which of the two is printed for an input.
#![tactic(auto)]

ghost use Rattle.std.specs.Prelude.{[], ◌∷◌, ◌+◌, ◌*◌, ◌<◌, ◌≤◌, length};
ghost use Rattle.lines.specs.Printed.{cells, decimal, glyph, line, lines, room};
ghost use Rattle.lines.specs.Printed.{Filled, printed_list, printed_refusal};
ghost use Rattle.lines.specs.Put.{Put, line_room};

use sets::CredentialSet;

// Puts what is printed of a list, and answers how many bytes that is.
pub fn put_list(out: &mut [u8], sets: &[CredentialSet]) -> usize
    requires sets_len_bound { length sets.now ≤ cells }
    requires room_in_bounds { room ≤ length out.old }
    ensures { Filled (printed_list sets.now (length sets.now))
        out.old out.new result }
{
    let next = put_lines(out, sets);
    let next = put(out, next, b"sets ");
    put_line(out, next, sets.len())
}

// Puts what is printed of a refusal of this number at this position, and answers how many bytes that is.
pub fn put_place(out: &mut [u8], number: usize, position: usize) -> usize
    requires { room ≤ length out.old }
    ensures { Filled (printed_refusal number position) out.old out.new result }
{
    let next = put(out, 0, b"refused ");
    let next = put_number(out, next, number);
    let next = put(out, next, b" ");
    put_line(out, next, position)
}

// One set a line.
fn put_lines(out: &mut [u8], sets: &[CredentialSet]) -> usize
    requires { 11 * length sets.now + line_room ≤ length out.old }
    ensures put { Put out.old 0 (lines sets.now) out.new result }
    ensures upper_bound { result ≤ 11 * length sets.now }
{
    let mut next = 0;
    for set in sets {
        next = put_line(out, next, *set as usize);
    }
    next
}

fn put_line(out: &mut [u8], at: usize, number: usize) -> usize
    requires { at + line_room ≤ length out.old }
    ensures { Put out.old at (line number) out.new result }
{
    let next = put_number(out, at, number);
    put(out, next, b"\n")
}

// The number's decimal digits.
fn put_number(out: &mut [u8], at: usize, number: usize) -> usize
    requires { at + length (decimal number) ≤ length out.old }
    ensures { Put out.old at (decimal number) out.new result }
{
    if number < 10 {
        return put_digit(out, at, number);
    }
    let last = put_number(out, at, number / 10);
    put_digit(out, last, number % 10)
}

fn put_digit(out: &mut [u8], at: usize, digit: usize) -> usize
    requires digit_bound { digit < 10 }
    requires at_in_bounds { at < length out.old }
    ensures { Put out.old at (glyph digit ∷ []) out.new result }
{
    out[at] = b'0' + digit as u8;
    at + 1
}

// Puts the text from a place on, and answers the place after it.
fn put(out: &mut [u8], at: usize, text: &[u8]) -> usize
    requires { at + length text.now ≤ length out.old }
    ensures { Put out.old at text.now out.new result }
{
    let next = at + text.len();
    out[at..next].copy_from_slice(text);
    next
}
