// The checks that stop a bad table or a bad query: the request's rows of docs/DEFINITION.md, "Where each input is stopped".
// Every slice of every length gets "accepted" or exactly its refusal, and nothing is written. What the checks mean is in table's
// specs/Checks.antt.
#![tactic(auto)]

mod rows; // rows.rt: rows 1 to 3, and the refusal of a row that was searched

ghost use Rattle.std.specs.Prelude.{◌≡◌};
ghost use Rattle.table.specs.Outcome.{Outcome};
ghost use Rattle.table.specs.Checks.{query_outcome, request_outcome, table_outcome, told};
ghost use Rattle.checks.specs.Told.{query_told, table_told};

use scans::Row;
use table::layout::MOST_DEPTH;
use table::{Number, Query, Reason, Refusal, layout};

// Whether the table is accepted: the table's rows, for any slice.
pub fn check_table(table: &[Number]) -> Result<(), Refusal>
    ensures { table_told result ≡ table_outcome table.now }
{
    rows::check_head(table)?;
    rows::none_bad(
        scans::first_bad(table, Row::Credentials),
        Reason::Credential,
    )?;
    rows::none_bad(scans::first_bad(table, Row::Cells), Reason::Cell)?;
    rows::none_bad(scans::first_bad_chain(table), Reason::Chain)?;
    // Many tables have no automata: rows 7 and 17, the last, then ask nothing, and their searches are not called.
    if layout::edges(table) + layout::automata(table) == 0 {
        return Ok(());
    }
    rows::none_bad(scans::first_bad(table, Row::Edges), Reason::Edge)?;
    rows::none_bad(scans::first_bad(table, Row::Marks), Reason::Mark)
}

// Whether the table is accepted and the query valid: the request's rows, which every call with a query makes first.
pub fn check_request(table: &[Number], query: Query) -> Result<(), Refusal>
    ensures { query_told result ≡ request_outcome table.now query }
{
    check_table(table)?;
    check_query(query)
}

// Whether the query is valid: row 8. Of several bad fields the first is told.
pub fn check_query(query: Query) -> Result<(), Refusal>
    ensures { query_told result ≡ query_outcome query }
{
    if !ranges::is_principal(query.principal) {
        return Err(bad_field(1));
    }
    if !ranges::is_principal(query.owner) {
        return Err(bad_field(2));
    }
    if !ranges::is_name(query.name) {
        return Err(bad_field(3));
    }
    if !ranges::within(1, MOST_DEPTH as usize, query.depth) {
        return Err(bad_field(4));
    }
    Ok(())
}

fn bad_field(position: usize) -> Refusal
    ensures { told result ≡ Outcome.refused 8 position }
{
    Refusal {
        reason: Reason::Query,
        position,
    }
}
