// The index of a table and a query: roles and principals by their places, so that a search compares and looks up small numbers.
// It is made once; a set of allowed credentials changes nothing in it. specs/Members.antt of the crate members says what it holds,
// specs/Indexing.antt how it is made.
#![tactic(auto)]

ghost use Rattle.std.specs.Prelude.{◌≡◌, true};
ghost use Rattle.table.specs.Limits.{most_parts};
ghost use Rattle.table.specs.Layout.{Numbered, cells, credentials};
ghost use Rattle.table.specs.Checks.{chain_ok};
ghost use Rattle.table.specs.Holding.{WellFormed};
ghost use Rattle.members.specs.Places.{person_at, role_at};
ghost use Rattle.members.specs.Members.{Aimed, Indexed, Whole};
ghost use Rattle.indexing.specs.Indexing.{Asked, FirstPlace, Linked, OneAsked, PartsAt, Place, Put, EntryRoom, Small, names};

use members::{CREDENTIAL_CELLS, GOAL_PERSON, GOAL_ROLE, INDEX_CELLS, LINK_CELLS, LINKS};
use std::array;
use table::{Credential, Kind, Name, Number, Principal, Query, Role, layout};

// The index of a table and a query: for each credential its five cells, and its links where it is of kind 3.
pub fn index(table: &[Number], query: Query) -> [u8; INDEX_CELLS]
    requires { WellFormed table.now }
    ensures { Indexed table.now result × Aimed table.now query result }
{
    let mut index = [0; INDEX_CELLS];
    for i in 0..layout::credentials(table) {
        let credential = layout::credential(table, i + 1);
        put(
            &mut index,
            i,
            role_at(table, credential.role),
            asked(table, credential),
        );
        if credential.is(Kind::LinkingContainment) {
            links(table, credential.second, i, &mut index);
        }
    }
    let goal = derivation::goal_of(query);
    index[GOAL_ROLE] = role_at(table, goal.role);
    index[GOAL_PERSON] = person_at(table, goal.principal.0);
    index
}

// The five cells of credential i + 1.
fn put(index: &mut [u8], i: usize, role: u8, asked: [u8; layout::MOST_PARTS])
    requires entry_room { EntryRoom index.old i }
    requires small { Small role asked }
    ensures { Put i role asked index.old index.new }
{
    let at = CREDENTIAL_CELLS * i;
    index[at] = role;
    index[at + 1..at + CREDENTIAL_CELLS].copy_from_slice(&asked);
}

// Where a role stands: at the first credential that defines it, behind the last one where none does.
fn role_at(table: &[Number], role: Role) -> u8
    requires { WellFormed table.now }
    ensures { Place (role_at table.now role) result }
{
    first_place(table, |credential| credential.role == role)
}

// The places of what a credential asks: of the parts of a chain, or of the one role or principal, four times.
fn asked(table: &[Number], c: Credential) -> [u8; layout::MOST_PARTS]
    requires well_formed { WellFormed table.now }
    requires whole { Whole table.now c }
    ensures { Asked table.now c result }
{
    if c.is(Kind::IntersectionContainment) {
        return parts(table, c.first);
    }
    [one_asked(table, c); layout::MOST_PARTS]
}

// Of the one role that kinds 2 and 3 ask of one principal, or of the principal that kind 1 names.
fn one_asked(table: &[Number], c: Credential) -> u8
    requires well_formed { WellFormed table.now }
    requires whole { Whole table.now c × (c.kind ≡ 4 → ⊥) }
    ensures { OneAsked table.now c result }
{
    if c.is(Kind::SimpleMembership) {
        return person_at(table, c.first);
    }
    let role = if c.is(Kind::LinkingContainment) {
        Role {
            owner: c.role.owner,
            name: Name(c.first),
        }
    } else {
        Role {
            owner: Principal(c.first),
            name: Name(c.second),
        }
    };
    role_at(table, role)
}

// Where a principal stands: at the first simple membership that names it, behind the last credential where none does.
fn person_at(table: &[Number], principal: Number) -> u8
    requires { WellFormed table.now }
    ensures { Place (person_at table.now principal) result }
{
    first_place(table, |credential| is_naming(credential, principal))
}

fn is_naming(c: Credential, principal: Number) -> bool
    ensures { result ≡ names c principal }
{
    c.is(Kind::SimpleMembership) && c.first == principal
}

// The place of the first credential that passes the test, behind the last one where none does.
fn first_place<F: Fn(Credential) -> bool>(table: &[Number], test: F) -> u8
    requires well_formed { WellFormed table.now }
    requires callable { F.IsAlwaysCallable test }
    ensures { FirstPlace (F.post test) table.now result }
{
    let n = layout::credentials(table);
    (0..n)
        .find(|&i| test(layout::credential(table, i + 1)))
        .unwrap_or(n) as u8
}

// Of the parts of a chain; the last is repeated in the places behind it.
fn parts(table: &[Number], first: Number) -> [u8; layout::MOST_PARTS]
    requires well_formed { WellFormed table.now }
    requires numbered { Numbered (cells table.now) first }
    requires first_value { chain_ok table.now first ≡ true }
    ensures { PartsAt table.now first most_parts result }
{
    let chain = layout::chain(table, first);
    let roles = chain.as_slice();
    let last = roles.len() - 1;
    array::from_fn(|k| role_at(table, roles[k.min(last)]))
}

// The role of that name of each principal that a simple membership names, for credential i + 1.
fn links(table: &[Number], name: Number, i: usize, index: &mut [u8])
    requires well_formed { WellFormed table.now }
    requires entry_room { EntryRoom index.old i }
    ensures { Linked table.now name i (credentials table.now)
        index.old index.new }
{
    for j in 0..layout::credentials(table) {
        let credential = layout::credential(table, j + 1);
        if credential.is(Kind::SimpleMembership) {
            index[LINKS + LINK_CELLS * i + j] = role_at(
                table,
                Role {
                    owner: Principal(credential.first),
                    name: Name(name),
                },
            );
        }
    }
}
