// Where the records of a table stand, and each record by its number, from 1. Sizes, bases and limits of docs/DEFINITION.md,
// "The table", stand here and nowhere else. A caller shows that the table has the length that its head says.
ghost use Rattle.std.specs.Prelude.{◌≡◌, ◌+◌, ◌≤◌, true, length};
ghost use Rattle.table.specs.Limits.{most_automata, most_cells, most_credentials, most_edges};
ghost use Rattle.table.specs.Layout;
ghost use Rattle.table.specs.Layout.{Numbered, automaton_size, cell_size, credential_size, edge_size};
ghost use Rattle.table.specs.Checks.{chain_ok};
ghost use Rattle.table.specs.Holding.{Counted, Counts, Sized, WellFormed};
ghost use Rattle.few.specs.Listed.{listed};

use crate::{Automaton, Cell, Chain, Credential, Edge, Name, Number, Principal, Role};
use few::Few;
use sets::StateSet;

pub const MOST_CREDENTIALS: Number = 20;

pub const MOST_CELLS: Number = 63;

pub const MOST_AUTOMATA: Number = 8;

pub const MOST_EDGES: Number = 128;

pub const MOST_PRINCIPALS: Number = 64;

pub const MOST_NAMES: Number = 64;

pub const LAST_STATE: Number = 15;

pub const LEAST_PARTS: usize = 2;

pub const MOST_PARTS: usize = 4;

pub const MOST_DEPTH: Number = 16;

// How many numbers a record has.
pub const HEAD_SIZE: usize = 4;

const CREDENTIAL_SIZE: usize = 6;

const CELL_SIZE: usize = 3;

const AUTOMATON_SIZE: usize = 3;

const EDGE_SIZE: usize = 6;

// A number of the table as a count or an index.
pub fn wide(x: Number) -> usize
    ensures { (result ≡ x) × (result ≤ 65535) }
{
    x as usize
}

// A number of the table as a set of states.
pub fn states(x: Number) -> StateSet
    ensures { result ≡ x }
{
    x as StateSet
}

// The head: how many records there are of each kind.
pub fn credentials(table: &[Number]) -> usize
    requires { Counted table.now }
    ensures { Counts most_credentials (Layout.credentials table.now) result }
{
    wide(table[0])
}

pub fn cells(table: &[Number]) -> usize
    requires { Counted table.now }
    ensures { Counts most_cells (Layout.cells table.now) result }
{
    wide(table[1])
}

pub fn automata(table: &[Number]) -> usize
    requires { Counted table.now }
    ensures { Counts most_automata (Layout.automata table.now) result }
{
    wide(table[2])
}

pub fn edges(table: &[Number]) -> usize
    requires { Counted table.now }
    ensures { Counts most_edges (Layout.edges table.now) result }
{
    wide(table[3])
}

// The part cells follow the credentials, the automata the cells, and the edges the automata.
fn cells_base(table: &[Number]) -> usize
    requires { Counted table.now }
    ensures { result ≡ Layout.cells_base table.now }
{
    HEAD_SIZE + CREDENTIAL_SIZE * credentials(table)
}

fn automata_base(table: &[Number]) -> usize
    requires { Counted table.now }
    ensures { result ≡ Layout.automata_base table.now }
{
    cells_base(table) + CELL_SIZE * cells(table)
}

fn edges_base(table: &[Number]) -> usize
    requires { Counted table.now }
    ensures { result ≡ Layout.edges_base table.now }
{
    automata_base(table) + AUTOMATON_SIZE * automata(table)
}

// The length that the head says.
pub fn table_length(table: &[Number]) -> usize
    requires { Counted table.now }
    ensures { result ≡ Layout.table_length table.now }
{
    edges_base(table) + EDGE_SIZE * edges(table)
}

pub fn credential(table: &[Number], i: usize) -> Credential
    requires sized { Sized table.now }
    requires numbered { Numbered (Layout.credentials table.now) i }
    ensures { result ≡ Layout.credential table.now i }
{
    credential_at(table, HEAD_SIZE + CREDENTIAL_SIZE * (i - 1))
}

pub fn cell(table: &[Number], j: usize) -> Cell
    requires sized { Sized table.now }
    requires numbered { Numbered (Layout.cells table.now) j }
    ensures { result ≡ Layout.cell table.now j }
{
    cell_at(table, cells_base(table) + CELL_SIZE * (j - 1))
}

// The chain that begins with cell `first`.
pub fn chain(table: &[Number], first: Number) -> Chain
    requires well_formed { WellFormed table.now }
    requires numbered { Numbered (Layout.cells table.now) first }
    requires first_value { chain_ok table.now first ≡ true }
    ensures { listed result ≡ Layout.parts table.now first }
{
    let mut roles = Few::none(Role {
        owner: Principal(0),
        name: Name(0),
    });
    let mut j = first;
    while j != 0 {
        let c = cell(table, wide(j));
        roles.push(c.role);
        j = c.next;
    }
    roles
}

pub fn automaton(table: &[Number], k: usize) -> Automaton
    requires sized { Sized table.now }
    requires numbered { Numbered (Layout.automata table.now) k }
    ensures { result ≡ Layout.automaton table.now k }
{
    automaton_at(table, automata_base(table) + AUTOMATON_SIZE * (k - 1))
}

pub fn edge(table: &[Number], k: usize) -> Edge
    requires sized { Sized table.now }
    requires numbered { Numbered (Layout.edges table.now) k }
    ensures { result ≡ Layout.edge table.now k }
{
    edge_at(table, edges_base(table) + EDGE_SIZE * (k - 1))
}

// A record's fields, from where it begins.
fn credential_at(table: &[Number], at: usize) -> Credential
    requires { at + credential_size ≤ length table.now }
    ensures { result ≡ Layout.credential_at table.now at }
{
    Credential {
        role: Role {
            owner: Principal(table[at]),
            name: Name(table[at + 1]),
        },
        kind: table[at + 2],
        first: table[at + 3],
        second: table[at + 4],
        automaton: table[at + 5],
    }
}

fn cell_at(table: &[Number], at: usize) -> Cell
    requires { at + cell_size ≤ length table.now }
    ensures { result ≡ Layout.cell_at table.now at }
{
    Cell {
        role: Role {
            owner: Principal(table[at]),
            name: Name(table[at + 1]),
        },
        next: table[at + 2],
    }
}

fn automaton_at(table: &[Number], at: usize) -> Automaton
    requires { at + automaton_size ≤ length table.now }
    ensures { result ≡ Layout.automaton_at table.now at }
{
    Automaton {
        starting: table[at],
        accepting: table[at + 1],
        mark: table[at + 2],
    }
}

fn edge_at(table: &[Number], at: usize) -> Edge
    requires { at + edge_size ≤ length table.now }
    ensures { result ≡ Layout.edge_at table.now at }
{
    Edge {
        automaton: table[at],
        from: table[at + 1],
        label: table[at + 2],
        role: Role {
            owner: Principal(table[at + 3]),
            name: Name(table[at + 4]),
        },
        to: table[at + 5],
    }
}
