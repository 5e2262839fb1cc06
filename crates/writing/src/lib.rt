// The holder's end, after the list: the first record of a listed set (docs/DEFINITION.md, "The first record"). It is walked
// (crate walking) twice, once to count and once to write, so that a record that does not fit leaves every cell unchanged.
// specs/Writing.antt says what the answer and the cells are; specs/Writes.antt states that this is the record that the
// definition means.
#![tactic(auto)]

ghost use Rattle.std.specs.Prelude.{◌≡◌, true, length};
ghost use Rattle.table.specs.Holding.{WellFormed};
ghost use Rattle.table.specs.Checks.{Valid};
ghost use Rattle.members.specs.Members.{Members};
ghost use Rattle.search.specs.Failing.{Remembered};
ghost use Rattle.listing.specs.Minimal.{is_minimal};
ghost use Rattle.writing.specs.Writing.{Settled, TellsRecord, record_after, writing, written_told};

use goals::Terms;
use search::Request;
use sets::CredentialSet;
use table::{Number, Query, Reason, Refusal, layout};

// Writes the accepted record that uses exactly the set and comes first, number by number, and tells its length in numbers; it
// stands in the first cells. The request's rows, then 15, 16 or the record, for any table, query, set and cells. Cells beyond the
// record are unchanged, and on a refusal all are.
pub fn write(
    table: &[Number],
    query: Query,
    set: CredentialSet,
    rec: &mut [Number],
) -> Result<usize, Refusal>
    ensures { (written_told result ≡ writing table.now query set (length rec.old))
        × (rec.new ≡ record_after table.now query set rec.old) }
{
    checks::check_request(table, query)?;
    write_checked(table, query, set, rec)
}

// Rows 15 and 16, or the record: first the index of the table and the query is made.
fn write_checked(
    table: &[Number],
    query: Query,
    set: CredentialSet,
    rec: &mut [Number],
) -> Result<usize, Refusal>
    requires well_formed { WellFormed table.now }
    requires valid { Valid query }
    ensures { TellsRecord table.now query set rec.old rec.new (written_told result) }
{
    let index = indexing::index(table, query);
    if attached::automata_of(table, set) == 0 {
        let without_arcs = Request {
            table,
            query,
            index: &index,
            arcs: &[],
        };
        return write_over(&without_arcs, set, rec);
    }
    let mut arcs = [0; moves::INDEX_CELLS];
    relevance::make_arcs(table, &index, set, &mut arcs);
    let with_arcs = Request {
        table,
        query,
        index: &index,
        arcs: &arcs,
    };
    write_over(&with_arcs, set, rec)
}

// Row 15, or what follows it.
fn write_over(request: &Request, set: CredentialSet, rec: &mut [Number]) -> Result<usize, Refusal>
    ensures { TellsRecord request.now.table.now request.now.query set rec.old rec.new (written_told result) }
{
    if !is_listed(request, set) {
        return Err(Reason::NotListed.into());
    }
    write_listed(request, set, rec)
}

// Whether the set is on the list: it is admitted, and not without any one of its credentials. No list is made.
fn is_listed(request: &Request, set: CredentialSet) -> bool
    ensures { result ≡ is_minimal request.now.table.now request.now.query set }
{
    if set >> layout::credentials(request.table) != 0 {
        return false;
    }
    if !admission::admits(request, set) {
        return false;
    }
    minimal::is_minimal(request, set)
}

// Row 16, or the record: first the terms of the set are settled. A small set gets a small memory, since clearing a large one
// takes longer than writing a short record.
fn write_listed(request: &Request, set: CredentialSet, rec: &mut [Number]) -> Result<usize, Refusal>
    requires { is_minimal request.now.table.now request.now.query set ≡ true }
    ensures { TellsRecord request.now.table.now request.now.query set rec.old rec.new (written_told result) }
{
    let table = request.table;
    let levels = layout::wide(request.query.depth);
    let mut rows = [0; levels::TABLE_CELLS];
    let last = levels::fill(table, request.index, set, levels, &mut rows);
    let borne = attached::automata_of(table, set);
    let owed = attached::marked(table, borne);
    let terms = Terms {
        allowed: set,
        constraints: borne ^ owed,
        owed,
        last,
    };
    if failures::is_small(set) {
        let mut memory = [0; failures::FEW_CELLS];
        return write_settled(request, &rows, terms, &mut memory, rec);
    }
    let mut memory = [0; failures::CELLS];
    write_settled(request, &rows, terms, &mut memory, rec)
}

// Row 16, or the record, on the terms of the set. The length is known before the first cell is written: the record is walked
// without cells first, up to as many numbers as there are cells. Both walks search on the same terms, so that one memory serves
// them.
fn write_settled(
    request: &Request,
    rows: &[CredentialSet],
    terms: Terms,
    memory: &mut [u32],
    rec: &mut [Number],
) -> Result<usize, Refusal>
    requires allowed_value { is_minimal request.now.table.now request.now.query terms.allowed ≡ true }
    requires members { Members request.now.table.now terms.allowed request.now.query.depth terms.last rows.now }
    requires settled { Settled request.now.table.now terms.allowed terms.constraints terms.owed }
    requires remembered { Remembered request.now.table.now terms.allowed terms.constraints terms.owed memory.old }
    ensures { TellsRecord request.now.table.now request.now.query terms.allowed rec.old rec.new (written_told result) }
{
    let cells = rec.len();
    let len = walking::from_goal(request, rows, terms, memory, cells, &mut rec[..0]);
    if cells < len {
        return Err(Reason::LongerRecord.into());
    }
    walking::from_goal(request, rows, terms, memory, cells, rec);
    Ok(len)
}
