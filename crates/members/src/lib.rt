// Members by levels: who is in which role within so many levels where nothing may be refused. A derivation proves nothing else,
// so a search need not ask for anything else. Roles and principals are places, in an index of the table and the query and on the
// way to a node. specs/Members.antt says what the index and the table of members hold; the crates indexing and levels make them.
#![tactic(auto)]

mod above; // above.rt: the pairs of principal and role above a node
mod cells; // cells.rt: the cells of an index

pub use above::Above;
pub use cells::{
    CREDENTIAL_CELLS, GOAL_PERSON, GOAL_ROLE, INDEX_CELLS, LINK_CELLS, LINKS, asked_cell,
    goal_person, goal_role, is_person, link_cell, role_cell,
};
