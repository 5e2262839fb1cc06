// The C interface. A slice is a pointer and a length. Each call returns 0 or the refusal's number in docs/DEFINITION.md, and
// writes the position, or on 0 the value that the call returns: 0 where there is none. bindings/c/bwlchareg.h has the promises
// in words.
#![tactic(auto)]

ghost use Rattle.std.specs.Prelude.{◌≡◌, length};
ghost use Rattle.table.specs.Checks.{as_query, request_outcome, table_outcome};
ghost use Rattle.verifier.specs.Verdict.{verdict};
ghost use Rattle.listing.specs.Minimal.{buffer_after, listing};
ghost use Rattle.writing.specs.Writing.{record_after, writing};
ghost use Rattle.answers.specs.Answer.{answered};
ghost use Rattle.bwlchareg.specs.Version.{version};

// The table's rows: whether the table is accepted.
#[unsafe(no_mangle)]
pub extern "C" fn bwlchareg_check(table: &[u16], position: &mut u64) -> u32
    ensures { answered result position.new ≡ table_outcome table.now }
{
    answers::answer(checks::check_table(table).map(|_| 0), position)
}

// The request's rows: whether the table is accepted and the query valid.
#[unsafe(no_mangle)]
pub extern "C" fn bwlchareg_check_query(
    table: &[u16],
    principal: u16,
    owner: u16,
    name: u16,
    depth: u16,
    position: &mut u64,
) -> u32
    ensures { answered result position.new
        ≡ request_outcome table.now (as_query principal owner name depth) }
{
    let query = answers::query_of(principal, owner, name, depth);
    answers::answer(checks::check_request(table, query).map(|_| 0), position)
}

// The holder's end: the minimal sets, ascending, in the buffer's first cells. The value is their count.
#[unsafe(no_mangle)]
pub extern "C" fn bwlchareg_list(
    table: &[u16],
    principal: u16,
    owner: u16,
    name: u16,
    depth: u16,
    sets: &mut [u32],
    value: &mut u64,
) -> u32
    ensures { (answered result value.new
        ≡ listing table.now (as_query principal owner name depth) (length sets.old))
        × (sets.new ≡ buffer_after table.now (as_query principal owner name depth) sets.old) }
{
    let query = answers::query_of(principal, owner, name, depth);
    answers::answer(
        listing::list(table, query, sets).map(|count| count as u64),
        value,
    )
}

// The verifier's end: whether the record derives the queried membership and complies. The value is its used set.
#[unsafe(no_mangle)]
pub extern "C" fn bwlchareg_verify(
    table: &[u16],
    principal: u16,
    owner: u16,
    name: u16,
    depth: u16,
    rec: &[u16],
    value: &mut u64,
) -> u32
    ensures { answered result value.new
        ≡ verdict table.now (as_query principal owner name depth) rec.now }
{
    let query = answers::query_of(principal, owner, name, depth);
    answers::answer(
        verifier::verify(table, query, rec).map(|used| used as u64),
        value,
    )
}

// The holder's end, after the list: the first record of a listed set, in the buffer's first cells. The value is its length.
#[unsafe(no_mangle)]
pub extern "C" fn bwlchareg_write(
    table: &[u16],
    principal: u16,
    owner: u16,
    name: u16,
    depth: u16,
    set: u32,
    rec: &mut [u16],
    value: &mut u64,
) -> u32
    ensures { (answered result value.new
        ≡ writing table.now (as_query principal owner name depth) set (length rec.old))
        × (rec.new ≡ record_after table.now (as_query principal owner name depth) set rec.old) }
{
    let query = answers::query_of(principal, owner, name, depth);
    answers::answer(
        writing::write(table, query, set, rec).map(|len| len as u64),
        value,
    )
}

// The version of the interface; CHANGELOG.md says what stays as it is within one.
#[unsafe(no_mangle)]
pub extern "C" fn bwlchareg_version() -> u32
    ensures { result ≡ version }
{
    700
}
