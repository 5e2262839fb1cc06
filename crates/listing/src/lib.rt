// The holder's end: every minimal set of credentials that proves the queried membership, ascending (docs/DEFINITION.md,
// "The list"). It knows of derivations only which sets of credentials admit an accepted record (crate admission), and leaves the
// search over sets to crate regions. specs/Minimal.antt says what the answer and the buffer are; specs/Demands.antt states that
// this is the list that the definition means.
#![tactic(auto)]

ghost use Rattle.std.specs.Prelude.{◌≡◌, length, true};
ghost use Rattle.table.specs.Holding.{WellFormed};
ghost use Rattle.table.specs.Checks.{Valid};
ghost use Rattle.relevance.specs.Relevance.{Relevant};
ghost use Rattle.admission.specs.Admits.{admits};
ghost use Rattle.listing.specs.Minimal.{TellsList, buffer_after, listing, listing_told};

use search::Request;
use sets::CredentialSet;
use table::{Number, Query, Reason, Refusal};

// The most cuts that are kept. Where a search finds more, it goes on without them.
const MOST_CUTS: usize = 4096;

// Lists the minimal sets, and tells how many there are: they stand in the buffer's first cells. The request's rows, then 9, 10 or
// the list, for any table, query and buffer. Cells beyond the list are unchanged, and so is the buffer on a refusal, except that 10
// fills it with the first sets.
pub fn list(table: &[Number], query: Query, sets: &mut [CredentialSet]) -> Result<usize, Refusal>
    ensures { (listing_told result ≡ listing table.now query (length sets.old))
        × (sets.new ≡ buffer_after table.now query sets.old) }
{
    list_with(table, query, MOST_CUTS, sets)
}

// The same with room for so many cuts, if that is fewer.
pub fn list_with(
    table: &[Number],
    query: Query,
    room: usize,
    sets: &mut [CredentialSet],
) -> Result<usize, Refusal>
    ensures { (listing_told result ≡ listing table.now query (length sets.old))
        × (sets.new ≡ buffer_after table.now query sets.old) }
{
    checks::check_request(table, query)?;
    list_checked(table, query, room, sets)
}

// Rows 9 and 10, or the list: first the index of the table and the query is made, and what bears on it is found.
fn list_checked(
    table: &[Number],
    query: Query,
    room: usize,
    sets: &mut [CredentialSet],
) -> Result<usize, Refusal>
    requires well_formed { WellFormed table.now }
    requires valid { Valid query }
    ensures { TellsList table.now query sets.old sets.new (listing_told result) }
{
    let index = indexing::index(table, query);
    let usable = relevance::relevant(table, query, &index);
    let without_arcs = Request {
        table,
        query,
        index: &index,
        arcs: &[],
    };
    if !admission::admits(&without_arcs, usable) {
        return Err(Reason::NoMinimalSet.into());
    }
    if attached::automata_of(table, usable) == 0 {
        return list_over(&without_arcs, usable, room, sets);
    }
    let mut arcs = [0; moves::INDEX_CELLS];
    relevance::make_arcs(table, &index, usable, &mut arcs);
    let with_arcs = Request {
        table,
        query,
        index: &index,
        arcs: &arcs,
    };
    list_over(&with_arcs, usable, room, sets)
}

// Row 10, or the list, where there is a minimal set, with room for so many cuts.
fn list_over(
    request: &Request,
    usable: CredentialSet,
    room: usize,
    sets: &mut [CredentialSet],
) -> Result<usize, Refusal>
    requires relevant { Relevant request.now.table.now request.now.query usable }
    requires usable_value { admits request.now.table.now request.now.query usable ≡ true }
    ensures { TellsList request.now.table.now request.now.query sets.old sets.new (listing_told result) }
{
    let mut cuts = [0; MOST_CUTS];
    list_admitted(request, usable, &mut cuts[..room.min(MOST_CUTS)], sets)
}

// The same with cells for the cuts.
fn list_admitted(
    request: &Request,
    usable: CredentialSet,
    cuts: &mut [CredentialSet],
    sets: &mut [CredentialSet],
) -> Result<usize, Refusal>
    requires relevant { Relevant request.now.table.now request.now.query usable }
    requires usable_value { admits request.now.table.now request.now.query usable ≡ true }
    ensures { TellsList request.now.table.now request.now.query sets.old sets.new (listing_told result) }
{
    let cells = sets.len();
    let mut count = 0;
    let mut found = 0;
    // nothing is chosen, and all that bears on the query is free
    regions::below(
        request, usable, 0, usable, cuts, &mut count, sets, &mut found,
    );
    if cells < found {
        return Err(Reason::LongerThanBuffer.into());
    }
    Ok(found)
}
