// The rows of checks that look for a bad record in a whole table, by ascending number, and the counts of its head. The rows after
// the head are asked only of a table with the length that its head says. specs/Rows.antt says what each row asks.
#![tactic(auto)]

ghost use Rattle.std.specs.Prelude.{◌≡◌, ◌≤◌, length};
ghost use Rattle.table.specs.Outcome.{Outcome};
ghost use Rattle.table.specs.Layout;
ghost use Rattle.table.specs.Layout.{Numbered, head_size};
ghost use Rattle.table.specs.Holding.{Counted, Sized};
ghost use Rattle.table.specs.Checks.{counts_ok, good_chain};
ghost use Rattle.scans.specs.Rows;
ghost use Rattle.scans.specs.Rows.{FoundBad, good, row_outcome};
ghost use Rattle.scans.specs.declared.Row.TheVariants as row;

use table::layout::{
    LEAST_PARTS, MOST_AUTOMATA, MOST_CELLS, MOST_CREDENTIALS, MOST_EDGES, MOST_PARTS,
};
use table::{Kind, Number, layout};

// The rows that ask every record of one kind by itself: 4, 5, 7 and 17.
#[derive(Clone, Copy)]
pub enum Row {
    Credentials,
    Cells,
    Edges,
    Marks,
}

impl Row {
    fn records(self, table: &[Number]) -> usize
        requires { Counted table.now }
        ensures { result ≡ Rows.records table.now self }
    {
        match self {
            Row::Credentials => layout::credentials(table),
            Row::Cells => layout::cells(table),
            Row::Edges => layout::edges(table),
            Row::Marks => layout::automata(table),
        }
    }

    fn is_good(self, table: &[Number], i: usize) -> bool
        requires sized { Sized table.now }
        requires numbered { Numbered (Rows.records table.now self) i }
        ensures { result ≡ good table.now self i }
    {
        match self {
            Row::Credentials => ranges::credential_ok(
                layout::credential(table, i),
                layout::cells(table),
                layout::automata(table),
            ),
            Row::Cells => ranges::cell_ok(layout::cell(table, i), i, layout::cells(table)),
            Row::Edges => ranges::edge_ok(layout::edge(table, i), layout::automata(table)),
            Row::Marks => ranges::mark_ok(layout::automaton(table, i).mark),
        }
    }
}

// Each count of the head is inside its limit. They are read by place: the accessors ask for counts inside their limits.
pub fn counts_ok(table: &[Number]) -> bool
    requires { head_size ≤ length table.now }
    ensures { result ≡ counts_ok table.now }
{
    table[0] <= MOST_CREDENTIALS
        && table[1] <= MOST_CELLS
        && table[2] <= MOST_AUTOMATA
        && table[3] <= MOST_EDGES
}

// Rows 4, 5, 7 and 17: the first record of the row that is not good, by ascending number. Each caller names its row, and has a loop
// for that row alone.
#[inline(always)]
pub fn first_bad(table: &[Number], row: Row) -> Option<usize>
    requires { Sized table.now }
    ensures { FoundBad (good table.now row) (Rows.records table.now row) result }
{
    let n = row.records(table);
    for i in 0..n {
        if !row.is_good(table, i + 1) {
            return Some(i + 1);
        }
    }
    None
}

// Row 6: the first credential whose chain has not 2 to 4 cells; without part cells there is no chain. A chain is left as soon as a
// fifth cell is met.
pub fn first_bad_chain(table: &[Number]) -> Option<usize>
    requires sized { Sized table.now }
    requires credentials_value { row_outcome table.now row.Credentials 4 ≡ Outcome.accepted 0 }
    requires cells_value { row_outcome table.now row.Cells 5 ≡ Outcome.accepted 0 }
    ensures { FoundBad (good_chain table.now) (Layout.credentials table.now) result }
{
    if layout::cells(table) == 0 {
        return None;
    }
    'credentials: {
        for i in 0..layout::credentials(table) {
            let c = layout::credential(table, i + 1);
            if !c.is(Kind::IntersectionContainment) {
                continue;
            }
            let mut met = 0;
            let mut j = c.first;
            while j != 0 {
                met += 1;
                if MOST_PARTS < met {
                    break 'credentials Some(i + 1);
                }
                j = layout::cell(table, layout::wide(j)).next;
            }
            if met < LEAST_PARTS {
                break 'credentials Some(i + 1);
            }
        }
        None
    }
}
