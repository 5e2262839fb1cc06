// One row of the table of members: who is in the roles that a credential asks, and whom the credential proves by them to be in its
// own (specs/Masks.antt). Nothing is written here; crate levels fills the table.
#![tactic(auto)]

ghost use Rattle.std.specs.Prelude.{◌≡◌, ◌<◌};
ghost use Rattle.table.specs.Limits.{most_parts};
ghost use Rattle.table.specs.Holding.{WellFormed};
ghost use Rattle.table.specs.Layout.{credentials};
ghost use Rattle.masks.specs.Masks.{Readable, asked_mask, asked_members, linked_members, proved_members};

use sets::CredentialSet;
use table::{Kind, Number, layout};

// A cell for each place of a role, and one for the roles that nobody defines, which stays empty.
pub const ROW: usize = layout::MOST_CREDENTIALS as usize + 1;

// Whom credential i + 1, which is no simple membership, proves to be in its role by what the row of the level has.
pub fn proved_by(
    table: &[Number],
    index: &[u8],
    rows: &[CredentialSet],
    level: usize,
    i: usize,
) -> CredentialSet
    requires well_formed { WellFormed table.now }
    requires readable { Readable index.now rows.now level i }
    requires i_bound { i < credentials table.now }
    ensures { result ≡ proved_members table.now index.now rows.now level i }
{
    let asked = asked_members(index, rows, level, i);
    if !layout::credential(table, i + 1).is(Kind::LinkingContainment) {
        return asked;
    }
    linked_members(table, index, rows, level, i, asked)
}

// Who is in each of the four roles that credential i + 1 asks.
pub fn asked_members(index: &[u8], rows: &[CredentialSet], level: usize, i: usize) -> CredentialSet
    requires { Readable index.now rows.now level i }
    ensures { result ≡ asked_members index.now rows.now level i }
{
    let first = asked_mask(index, rows, level, i, 0) & asked_mask(index, rows, level, i, 1);
    first & (asked_mask(index, rows, level, i, 2) & asked_mask(index, rows, level, i, 3))
}

// Who is in role k of these.
fn asked_mask(
    index: &[u8],
    rows: &[CredentialSet],
    level: usize,
    i: usize,
    k: usize,
) -> CredentialSet
    requires readable { Readable index.now rows.now level i }
    requires k_lt_most_parts { k < most_parts }
    ensures { result ≡ asked_mask index.now rows.now level i k }
{
    rows[ROW * level + members::asked_cell(index, i, k)]
}

// Who is in the linked role of some of the middles, for credential i + 1.
fn linked_members(
    table: &[Number],
    index: &[u8],
    rows: &[CredentialSet],
    level: usize,
    i: usize,
    middles: CredentialSet,
) -> CredentialSet
    requires well_formed { WellFormed table.now }
    requires readable { Readable index.now rows.now level i }
    ensures { result
        ≡ linked_members index.now rows.now level i middles (credentials table.now) }
{
    let n = layout::credentials(table);
    let mut found = 0;
    for j in 0..n {
        if sets::has(middles, j) {
            found |= rows[ROW * level + members::link_cell(index, i, j)];
        }
    }
    found
}
