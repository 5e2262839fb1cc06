// The cells of an index by what they are.
ghost use Rattle.std.specs.Prelude.{◌≡◌, ◌<◌, ◌≤◌, get_or};
ghost use Rattle.table.specs.Limits.{most_credentials, most_parts};
ghost use Rattle.table.specs.Layout.{credentials};
ghost use Rattle.table.specs.Holding.{WellFormed};
ghost use Rattle.members.specs.Places.{is_person};
ghost use Rattle.members.specs.Members.{Indexed, Placed, asked_cell, goal_person, goal_role, link_cell, role_cell};

use table::{Kind, Number, layout};

// Five cells for each credential: the place of its role, and four of the roles that it asks.
pub const CREDENTIAL_CELLS: usize = 1 + layout::MOST_PARTS;

// Behind these, twenty for each, used where it is of kind 3: the place of the role asked where the middle stands at j.
pub const LINK_CELLS: usize = layout::MOST_CREDENTIALS as usize;

pub const LINKS: usize = CREDENTIAL_CELLS * LINK_CELLS;

// Behind these, the query's role and principal.
pub const GOAL_ROLE: usize = LINKS + LINK_CELLS * LINK_CELLS;

pub const GOAL_PERSON: usize = GOAL_ROLE + 1;

pub const INDEX_CELLS: usize = GOAL_PERSON + 1;

// Where the role of credential i + 1 stands.
pub fn role_cell(index: &[u8], i: usize) -> usize
    requires placed { Placed index.now }
    requires i_lt_most_credentials { i < most_credentials }
    ensures { (result ≡ get_or index.now (role_cell i) 0) × (result ≤ most_credentials) }
{
    index[CREDENTIAL_CELLS * i] as usize
}

// Where role k of those that it asks stands; the principal that it names where it is a simple membership.
pub fn asked_cell(index: &[u8], i: usize, k: usize) -> usize
    requires placed { Placed index.now }
    requires i_lt_most_credentials { (i < most_credentials) × (k < most_parts) }
    ensures { (result ≡ get_or index.now (asked_cell i k) 0) × (result ≤ most_credentials) }
{
    index[CREDENTIAL_CELLS * i + 1 + k] as usize
}

// Where the role stands that it asks with the middle at j.
pub fn link_cell(index: &[u8], i: usize, j: usize) -> usize
    requires placed { Placed index.now }
    requires i_lt_most_credentials { (i < most_credentials) × (j < most_credentials) }
    ensures { (result ≡ get_or index.now (link_cell i j) 0) × (result ≤ most_credentials) }
{
    index[LINKS + LINK_CELLS * i + j] as usize
}

// A principal stands at j.
pub fn is_person(table: &[Number], index: &[u8], j: usize) -> bool
    requires well_formed { WellFormed table.now }
    requires indexed { Indexed table.now index.now }
    requires j_bound { j < credentials table.now }
    ensures { result ≡ is_person table.now j }
{
    layout::credential(table, j + 1).is(Kind::SimpleMembership) && asked_cell(index, j, 0) == j
}

// Where the query's role and its principal stand.
pub fn goal_role(index: &[u8]) -> usize
    requires { Placed index.now }
    ensures { (result ≡ get_or index.now goal_role 0) × (result ≤ most_credentials) }
{
    index[GOAL_ROLE] as usize
}

pub fn goal_person(index: &[u8]) -> usize
    requires { Placed index.now }
    ensures { (result ≡ get_or index.now goal_person 0) × (result ≤ most_credentials) }
{
    index[GOAL_PERSON] as usize
}
