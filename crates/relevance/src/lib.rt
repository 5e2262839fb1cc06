// Which credentials bear on a query, by roles alone, whoever the members are: those whose role can be reached from the query's.
// Without this a wallet of mostly unrelated credentials would cost two to their number. A set of roles is the set of their places
// (crate members): the role at place r counts 2^r.
#![tactic(auto)]

ghost use Rattle.std.specs.Prelude.{◌≡◌, not, true, ◌<◌, ◌≤◌, get_or, replicate};
ghost use Rattle.sets.specs.Logic.{◌and◌};
ghost use Rattle.sets.specs.Sets.{in_set};
ghost use Rattle.table.specs.Layout.{credentials};
ghost use Rattle.table.specs.Holding.{WellFormed};
ghost use Rattle.moves.specs.Arcs.{Arcs, index_cells};
ghost use Rattle.members.specs.Members.{Aimed, Indexed, Placed, goal_role};
ghost use Rattle.relevance.specs.Relevance.{Relevant, Round, RowsMade, WithAsked, WithLinks, WithRoles, defined_at};

use sets::{CredentialSet, StateSet};
use table::{Kind, Number, Query, layout};

// The credentials whose role can be reached from the query's role: every derivation of the queried membership uses only these. The
// index is that of the table and the query (`indexing::index`).
pub fn relevant(table: &[Number], query: Query, index: &[u8]) -> CredentialSet
    requires well_formed { WellFormed table.now }
    requires indexed { Indexed table.now index.now }
    requires aimed { Aimed table.now query index.now }
    ensures { Relevant table.now query result }
{
    at_places(index, layout::credentials(table), reached(table, index))
}

// The index of arcs for a set of credentials: the rows of all roles that they define.
pub fn make_arcs(table: &[Number], index: &[u8], set: CredentialSet, arcs: &mut [StateSet])
    requires well_formed { WellFormed table.now }
    requires indexed { Indexed table.now index.now }
    requires arcs_value { arcs.old ≡ replicate index_cells 0 }
    ensures { Arcs table.now arcs.new
        × RowsMade index.now set (credentials table.now) arcs.new }
{
    arcs::begin(table, arcs);
    for i in 0..layout::credentials(table) {
        if sets::has(set, i) {
            arcs::make(table, arcs, members::role_cell(index, i));
        }
    }
}

// The places of the roles that can be reached from the query's role, round by round until nothing is new.
fn reached(table: &[Number], index: &[u8]) -> CredentialSet
    requires well_formed { WellFormed table.now }
    requires indexed { Indexed table.now index.now }
    ensures { (in_set result (get_or index.now goal_role 0) ≡ true)
        × Round table.now index.now (credentials table.now) result result }
{
    let mut before = 0;
    let mut places = sets::with(0, members::goal_role(index));
    while places != before {
        let more = more_places(table, index, before, places);
        before = places;
        places = more;
    }
    places
}

// One round: the places with those of the roles that they ask. What is asked from those of the round before is there already.
fn more_places(
    table: &[Number],
    index: &[u8],
    before: CredentialSet,
    places: CredentialSet,
) -> CredentialSet
    requires well_formed { WellFormed table.now }
    requires indexed { Indexed table.now index.now }
    requires round { Round table.now index.now (credentials table.now) before places }
    ensures { Round table.now index.now (credentials table.now) places result }
{
    let mut more = places;
    for i in 0..layout::credentials(table) {
        if is_new(before, more, members::role_cell(index, i)) {
            more = with_roles(table, index, i, more);
        }
    }
    more
}

// The place is one of `places`, and not one of those before.
fn is_new(before: CredentialSet, places: CredentialSet, place: usize) -> bool
    requires { place ≤ 20 }
    ensures { result ≡ (in_set places place and not (in_set before place)) }
{
    sets::has(places, place) && !sets::has(before, place)
}

// The places with those of all roles that credential i + 1 asks.
fn with_roles(table: &[Number], index: &[u8], i: usize, places: CredentialSet) -> CredentialSet
    requires well_formed { WellFormed table.now }
    requires indexed { Indexed table.now index.now }
    requires i_bound { i < credentials table.now }
    ensures { WithRoles table.now index.now i places result }
{
    let credential = layout::credential(table, i + 1);
    if credential.is(Kind::SimpleMembership) {
        return places;
    }
    let more = with_asked(index, i, places);
    if !credential.is(Kind::LinkingContainment) {
        return more;
    }
    with_links(table, index, i, more)
}

// With those of the four in the cells of credential i + 1.
fn with_asked(index: &[u8], i: usize, places: CredentialSet) -> CredentialSet
    requires placed { Placed index.now }
    requires i_bound { i < 20 }
    ensures { WithAsked index.now i 4 places result }
{
    let mut more = places;
    for k in 0..layout::MOST_PARTS {
        more = sets::with(more, members::asked_cell(index, i, k));
    }
    more
}

// With those of the roles that credential i + 1, of kind 3, asks with some middle.
fn with_links(table: &[Number], index: &[u8], i: usize, places: CredentialSet) -> CredentialSet
    requires well_formed { WellFormed table.now }
    requires indexed { Indexed table.now index.now }
    requires i_bound { i < credentials table.now }
    ensures { WithLinks table.now index.now i (credentials table.now) places result }
{
    let mut more = places;
    for j in 0..layout::credentials(table) {
        if members::is_person(table, index, j) {
            more = sets::with(more, members::link_cell(index, i, j));
        }
    }
    more
}

// Those of the first n credentials whose role stands at one of the places.
fn at_places(index: &[u8], n: usize, places: CredentialSet) -> CredentialSet
    requires placed { Placed index.now }
    requires n_bound { n ≤ 20 }
    ensures { result ≡ defined_at index.now places n }
{
    sets::those(n, |i| sets::has(places, members::role_cell(index, i)))
}
