// A test: runs stored cases and prints a line for each call, which the gate compares with stored answers. A case is a block of
// 512 numbers of 16 bits, low byte first: kind (1 list, 2 verify), the query's four, cells of the buffer, length of the table,
// length of the record; then the table, the record, and zeros. Each cell holds a pattern beforehand, so that an untouched one
// shows. What was listed is written as records, too.
#![tactic(auto)]

ghost use Rattle.std.specs.Prelude.{◌≤◌, ◌≡◌, length};

use std::io;
use std::io::{ErrorKind, Read};
use table::{Number, Query, Refusal, layout};

const BLOCK_BYTES: usize = 1024;

const BLOCK: usize = 512;

const HEAD: usize = 8;

const MOST_CELLS: usize = 64;

const ROOMS: usize = 3;

const UNTOUCHED: u32 = 2863311530;

const MOST_NUMBERS: usize = 12;

const UNTOUCHED_NUMBER: Number = 43690;

const LIST: Number = 1;

const VERIFY: Number = 2;

// A proved loop has to end, and nothing says that the input does: no run uses up so many turns.
fn main(rt: HostRuntime) -> io::Result<()> {
    for _ in 0..u64::MAX {
        if !run_block(&mut rt.stdin(), &rt)? {
            break;
        }
    }
    Ok(())
}

// Runs one case; false at the end of the input.
fn run_block(reader: &mut impl Read, out: &impl Print) -> io::Result<bool> {
    let mut block = [0u8; BLOCK_BYTES];
    if !read_block(reader, &mut block)? {
        return Ok(false);
    }
    let mut case = [0; BLOCK];
    decoding::decode(&block, &mut case);
    run(out, &case)?;
    Ok(true)
}

// Reads a whole block; false where the input ends before it does, so that an incomplete one at the end is no case.
fn read_block(reader: &mut impl Read, block: &mut [u8]) -> io::Result<bool> {
    match reader.read_exact(block) {
        Ok(()) => Ok(true),
        Err(e) if e.kind() == ErrorKind::UnexpectedEof => Ok(false),
        Err(e) => Err(e),
    }
}

fn run(out: &impl Print, case: &[Number]) -> io::Result<()>
    requires { length case.now ≡ 512 }
{
    let cells = layout::wide(case[5]);
    let record_at = HEAD + layout::wide(case[6]);
    let end = record_at + layout::wide(case[7]);
    if MOST_CELLS < cells {
        return print_bad(out);
    }
    if BLOCK < end {
        return print_bad(out);
    }
    let query = answers::query_of(case[1], case[2], case[3], case[4]);
    match case[0] {
        LIST => run_list(out, &case[HEAD..record_at], query, cells),
        VERIFY => run_verify(out, &case[HEAD..record_at], query, &case[record_at..end]),
        _ => print_bad(out),
    }
}

fn run_list(out: &impl Print, table: &[Number], query: Query, cells: usize) -> io::Result<()>
    requires { cells ≤ 64 }
{
    let mut sets = [UNTOUCHED; MOST_CELLS];
    run_lists(out, table, query, &mut sets[..cells])
}

// As users list, and then with room for 0, 1 and 2 cuts, which is soon full: the same line each time.
fn run_lists(out: &impl Print, table: &[Number], query: Query, sets: &mut [u32]) -> io::Result<()>
    requires { length sets.old ≤ 64 }
{
    let cells = sets.len();
    run_list_into(out, table, query, sets)?;
    for room in 0..ROOMS {
        run_list_with(out, table, query, room, cells)?;
    }
    run_writes(out, table, query, sets)
}

fn run_list_into(
    out: &impl Print,
    table: &[Number],
    query: Query,
    sets: &mut [u32],
) -> io::Result<()> {
    match listing::list(table, query, sets) {
        Ok(count) => print_row(out, 0, count, sets),
        Err(why) => print_refused(out, why, sets),
    }
}

fn run_list_with(
    out: &impl Print,
    table: &[Number],
    query: Query,
    room: usize,
    cells: usize,
) -> io::Result<()>
    requires { cells ≤ 64 }
{
    let mut sets = [UNTOUCHED; MOST_CELLS];
    run_list_with_into(out, table, query, room, &mut sets[..cells])
}

fn run_list_with_into(
    out: &impl Print,
    table: &[Number],
    query: Query,
    room: usize,
    sets: &mut [u32],
) -> io::Result<()> {
    match listing::list_with(table, query, room, sets) {
        Ok(count) => print_row(out, 0, count, sets),
        Err(why) => print_refused(out, why, sets),
    }
}

// Records of the first two cells of the list, with room for 12 numbers and for 5, and of two sets that may not be on it.
fn run_writes(out: &impl Print, table: &[Number], query: Query, sets: &[u32]) -> io::Result<()> {
    if 1 <= sets.len() {
        run_write(out, table, query, sets[0], MOST_NUMBERS)?;
        run_write(out, table, query, sets[0], 5)?;
    }
    if 2 <= sets.len() {
        run_write(out, table, query, sets[1], MOST_NUMBERS)?;
    }
    run_write(out, table, query, 0, 1)?;
    run_write(out, table, query, 15, 1)
}

fn run_write(
    out: &impl Print,
    table: &[Number],
    query: Query,
    set: u32,
    cells: usize,
) -> io::Result<()>
    requires { cells ≤ 12 }
{
    let mut rec = [UNTOUCHED_NUMBER; MOST_NUMBERS];
    run_write_into(out, table, query, set, &mut rec[..cells])
}

fn run_write_into(
    out: &impl Print,
    table: &[Number],
    query: Query,
    set: u32,
    rec: &mut [Number],
) -> io::Result<()> {
    match writing::write(table, query, set, rec) {
        Ok(len) => print_record(out, 0, len, rec),
        Err(why) => print_unwritten(out, why, rec),
    }
}

fn print_unwritten(out: &impl Print, why: Refusal, rec: &[Number]) -> io::Result<()> {
    print_record(out, why.reason.into(), why.position, rec)
}

// As `print_row`, with the cells of a record.
fn print_record(out: &impl Print, number: u32, value: usize, rec: &[Number]) -> io::Result<()> {
    print!(out; "{number}")?;
    print_next(out, value as u64)?;
    for cell in rec {
        print_next(out, u64::from(*cell))?;
    }
    println!(out;)
}

fn run_verify(out: &impl Print, table: &[Number], query: Query, rec: &[Number]) -> io::Result<()> {
    match verifier::verify(table, query, rec) {
        Ok(used) => print_row(out, 0, used as usize, &[]),
        Err(why) => print_refused(out, why, &[]),
    }
}

fn print_refused(out: &impl Print, why: Refusal, cells: &[u32]) -> io::Result<()> {
    print_row(out, why.reason.into(), why.position, cells)
}

// 0 and a value, or a refusal's number and position; then every cell of the buffer afterwards.
fn print_row(out: &impl Print, number: u32, value: usize, cells: &[u32]) -> io::Result<()> {
    print!(out; "{number}")?;
    print_next(out, value as u64)?;
    print_cells(out, cells)?;
    println!(out;)
}

fn print_cells(out: &impl Print, cells: &[u32]) -> io::Result<()> {
    for cell in cells {
        print_next(out, u64::from(*cell))?;
    }
    Ok(())
}

fn print_next(out: &impl Print, number: u64) -> io::Result<()> {
    print!(out; " {number}")
}

fn print_bad(out: &impl Print) -> io::Result<()> {
    println!(out; "bad")
}
