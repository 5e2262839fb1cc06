// The table of members: for each level a row of masks, one for each role by its place; a mask is a set of principals by theirs.
// specs/Members.antt of the crate members says what it holds, specs/Levels.antt how it is filled.
#![tactic(auto)]

ghost use Rattle.std.specs.Prelude.{◌≡◌, ◌<◌, ◌≤◌, length};
ghost use Rattle.table.specs.Limits.{most_depth};
ghost use Rattle.table.specs.Holding.{WellFormed};
ghost use Rattle.table.specs.Layout.{credentials};
ghost use Rattle.members.specs.Members.{Blank, Indexed, Members, row_cells, table_cells};
ghost use Rattle.levels.specs.Levels.{Copied, FirstLevel, RowGrown};

use masks::ROW;
use sets::CredentialSet;
use table::{Kind, Number, layout};

// Rows from 0 to the greatest depth.
pub const TABLE_CELLS: usize = ROW * (layout::MOST_DEPTH as usize + 1);

// Fills the table from row 1 on, up to the depth, or up to the row behind which nobody is new; that row's level. The rows then
// have just who is a member within so many levels. The caller lends them blank: row 1 is added to what is there, so whoever
// stood there already would count as a member too.
pub fn fill(
    table: &[Number],
    index: &[u8],
    allowed: CredentialSet,
    depth: usize,
    rows: &mut [CredentialSet],
) -> usize
    requires well_formed { WellFormed table.now }
    requires indexed { Indexed table.now index.now }
    requires le_depth { (1 ≤ depth) × (depth ≤ most_depth) }
    requires rows_len { length rows.old ≡ table_cells }
    requires blank { Blank rows.old }
    ensures { Members table.now allowed depth result rows.new }
{
    let others = first_level(table, index, allowed, rows);
    for level in 1..depth {
        copy_row(rows, level);
        if !next_level(table, index, others, level, rows) {
            return level;
        }
    }
    depth
}

// Row 1: whom the allowed simple memberships name. What it answers is the other allowed credentials.
fn first_level(
    table: &[Number],
    index: &[u8],
    allowed: CredentialSet,
    rows: &mut [CredentialSet],
) -> CredentialSet
    requires well_formed { WellFormed table.now }
    requires indexed { Indexed table.now index.now }
    requires rows_len { length rows.old ≡ table_cells }
    requires blank { Blank rows.old }
    ensures { FirstLevel table.now index.now allowed (credentials table.now)
        rows.new result }
{
    let n = layout::credentials(table);
    let mut others = 0;
    for i in 0..n {
        if sets::has(allowed, i) {
            if layout::credential(table, i + 1).is(Kind::SimpleMembership) {
                let cell = ROW + members::role_cell(index, i);
                rows[cell] = sets::with(rows[cell], members::asked_cell(index, i, 0));
            } else {
                others = sets::with(others, i);
            }
        }
    }
    others
}

// Who is a member within a level less stays one.
fn copy_row(rows: &mut [CredentialSet], level: usize)
    requires rows_len { length rows.old ≡ table_cells }
    requires level_lt_most_depth { level < most_depth }
    ensures { Copied level row_cells rows.old rows.new }
{
    let behind = ROW * (level + 1);
    rows.copy_within(ROW * level..behind, behind);
}

// Adds to the row behind `level` whom the credentials prove by what row `level` has; whether anything is new.
fn next_level(
    table: &[Number],
    index: &[u8],
    others: CredentialSet,
    level: usize,
    rows: &mut [CredentialSet],
) -> bool
    requires well_formed { WellFormed table.now }
    requires indexed { Indexed table.now index.now }
    requires rows_len { length rows.old ≡ table_cells }
    requires level_lt_most_depth { level < most_depth }
    ensures { RowGrown table.now index.now others level (credentials table.now)
        rows.old rows.new result }
{
    let n = layout::credentials(table);
    let mut is_new = false;
    for i in 0..n {
        if sets::has(others, i) {
            let cell = ROW * (level + 1) + members::role_cell(index, i);
            let more = rows[cell] | masks::proved_by(table, index, rows, level, i);
            if more != rows[cell] {
                rows[cell] = more;
                is_new = true;
            }
        }
    }
    is_new
}
