// The listing program: reads at most 4,096 bytes of standard input, the query's four numbers and then the table, and prints what
// `printing::answer` makes of them (docs/DEFINITION.md, "The listing program"). It reports a failed read or write on standard error.
#![tactic(auto)]

ghost use Rattle.std.specs.Prelude.{◌+◌, ◌≡◌, ◌≤◌, ◌<◌, drop, length, take, IfOk, IfSome, OnOk};
ghost use Rattle.std.specs.Io.{ReadsAtMost};
ghost use Rattle.std.specs.Io.KnownBytes.{Appends, Consumes, IsAtEnd};
ghost use Rattle.printing.specs.Program.{program_prints};

use std::io::{Read, Write};
use std::{fmt, io};

const MOST_BYTES: usize = 4096;

// What could not be done.
#[derive(Clone, Copy, Debug)]
enum Failure {
    Read,
    Write,
}

impl fmt::Display for Failure {
    fn fmt<W: fmt::Write>(&self, f: &mut fmt::Formatter<W>) -> fmt::Result {
        match self {
            Failure::Read => f.write_str("cannot read standard input"),
            Failure::Write => f.write_str("cannot write standard output"),
        }
    }
}

// Reports a failure on standard error. The status is 0 in every case (docs/DEFINITION.md), also where standard error cannot be
// written.
fn main(rt: HostRuntime) {
    if let Err(failure) = run(&mut rt.stdin(), &mut rt.stdout()) {
        let _ = eprintln!(rt; "minimal_sets: {failure}");
    }
}

// Prints what the definition says of the reader's bytes, and nothing else. A contract can name the bytes of readers and writers in
// memory, but not those of the system, so `main` only passes the system's streams on.
fn run<R: Read, W: Write>(reader: &mut R, writer: &mut W) -> Result<(), Failure>
    ensures { OnOk result (IfSome (R.remaining reader.old) (λ input.
        Appends (W.contents writer.old) (W.contents writer.new) (program_prints input))) }
{
    let mut input = [0u8; MOST_BYTES];
    let Ok(count) = read_input(reader, &mut input) else {
        return Err(Failure::Read);
    };
    let Ok(()) = print_answer(writer, &input[..count]) else {
        return Err(Failure::Write);
    };
    Ok(())
}

// Reads until the input ends, the buffer is full or a read fails, and answers how many bytes are at the start of the buffer. A
// read that a signal interrupts counts as one that failed.
fn read_input<R: Read>(reader: &mut R, input: &mut [u8]) -> io::Result<usize>
    ensures bound { ReadsAtMost result input.new }
    ensures bytes { IfOk result (λ n.
        Consumes (R.remaining reader.old) (R.remaining reader.new) (take n input.new)) }
    ensures end { IfOk result (λ n. n < length input.new → IsAtEnd (R.remaining reader.new)) }
{
    let mut filled = 0;
    while filled < input.len() {
        let more = read_more(reader, input, filled)?;
        if more == 0 {
            return Ok(filled);
        }
        filled += more;
    }
    Ok(filled)
}

// Reads once, into the buffer from a place on.
fn read_more<R: Read>(reader: &mut R, input: &mut [u8], filled: usize) -> io::Result<usize>
    requires { filled ≤ length input.old }
    ensures front { take filled input.new ≡ take filled input.old }
    ensures fits { IfOk result (λ n. filled + n ≤ length input.new) }
    ensures bytes { IfOk result (λ n.
        Consumes (R.remaining reader.old) (R.remaining reader.new) (take n (drop filled input.new))) }
    ensures end { IfOk result (λ n.
        n ≡ 0 → filled < length input.new → IsAtEnd (R.remaining reader.new)) }
{
    reader.read(&mut input[filled..])
}

fn print_answer<W: Write>(writer: &mut W, input: &[u8]) -> io::Result<()>
    ensures { OnOk result
        (Appends (W.contents writer.old) (W.contents writer.new) (program_prints input.now)) }
{
    let mut out = [0u8; printing::ROOM];
    let count = printing::answer(input, &mut out);
    writer.write_all(&out[..count])
}
