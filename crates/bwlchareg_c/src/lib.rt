// The static library that C programs link: the calls of the crate bwlchareg under the same names, with the same parameters and
// the same contracts, and no code of its own. A crate of the kit is a library for other crates or a static library, and not both;
// a static library exports only functions of its own. bindings/c/bwlchareg.h has the promises in words, and tools/build.sh puts
// the archive into target/staticlib.
#![tactic(auto)]

ghost use Rattle.std.specs.Prelude.{◌≡◌, length};
ghost use Rattle.table.specs.Checks.{as_query, request_outcome, table_outcome};
ghost use Rattle.verifier.specs.Verdict.{verdict};
ghost use Rattle.listing.specs.Minimal.{buffer_after, listing};
ghost use Rattle.writing.specs.Writing.{record_after, writing};
ghost use Rattle.answers.specs.Answer.{answered};
ghost use Rattle.bwlchareg.specs.Version.{version};

// The table's rows: whether the table is accepted.
#[unsafe(no_mangle)]
pub extern "C" fn bwlchareg_check(table: &[u16], position: &mut u64) -> u32
    ensures { answered result position.new ≡ table_outcome table.now }
{
    bwlchareg::bwlchareg_check(table, position)
}

// The request's rows: whether the table is accepted and the query valid.
#[unsafe(no_mangle)]
pub extern "C" fn bwlchareg_check_query(
    table: &[u16],
    principal: u16,
    owner: u16,
    name: u16,
    depth: u16,
    position: &mut u64,
) -> u32
    ensures { answered result position.new
        ≡ request_outcome table.now (as_query principal owner name depth) }
{
    bwlchareg::bwlchareg_check_query(table, principal, owner, name, depth, position)
}

// The holder's end: the minimal sets, ascending, in the buffer's first cells. The value is their count.
#[unsafe(no_mangle)]
pub extern "C" fn bwlchareg_list(
    table: &[u16],
    principal: u16,
    owner: u16,
    name: u16,
    depth: u16,
    sets: &mut [u32],
    value: &mut u64,
) -> u32
    ensures { (answered result value.new
        ≡ listing table.now (as_query principal owner name depth) (length sets.old))
        × (sets.new ≡ buffer_after table.now (as_query principal owner name depth) sets.old) }
{
    bwlchareg::bwlchareg_list(table, principal, owner, name, depth, sets, value)
}

// The verifier's end: whether the record derives the queried membership and complies. The value is its used set.
#[unsafe(no_mangle)]
pub extern "C" fn bwlchareg_verify(
    table: &[u16],
    principal: u16,
    owner: u16,
    name: u16,
    depth: u16,
    rec: &[u16],
    value: &mut u64,
) -> u32
    ensures { answered result value.new
        ≡ verdict table.now (as_query principal owner name depth) rec.now }
{
    bwlchareg::bwlchareg_verify(table, principal, owner, name, depth, rec, value)
}

// The holder's end, after the list: the first record of a listed set, in the buffer's first cells. The value is its length.
#[unsafe(no_mangle)]
pub extern "C" fn bwlchareg_write(
    table: &[u16],
    principal: u16,
    owner: u16,
    name: u16,
    depth: u16,
    set: u32,
    rec: &mut [u16],
    value: &mut u64,
) -> u32
    ensures { (answered result value.new
        ≡ writing table.now (as_query principal owner name depth) set (length rec.old))
        × (rec.new ≡ record_after table.now (as_query principal owner name depth) set rec.old) }
{
    bwlchareg::bwlchareg_write(table, principal, owner, name, depth, set, rec, value)
}

// The version of the interface; CHANGELOG.md says what stays as it is within one.
#[unsafe(no_mangle)]
pub extern "C" fn bwlchareg_version() -> u32
    ensures { result ≡ version }
{
    bwlchareg::bwlchareg_version()
}
