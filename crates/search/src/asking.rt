// The goals that a credential asks, as a list by places: those of a credential without a middle by the index, and those of one of
// kind 3 with a middle. specs/Asking.antt says which they are.
ghost use Rattle.std.specs.Prelude.{◌≡◌, [], ◌∷◌, suc, ◌<◌, length, MatchOption};
ghost use Rattle.few.specs.Listed.{listed};
ghost use Rattle.table.specs.Layout.{credential, credentials};
ghost use Rattle.table.specs.Holding.{WellFormed};
ghost use Rattle.members.specs.Members.{Indexed, roles_asked};
ghost use Rattle.members.specs.Members.{Whole};
ghost use Rattle.search.specs.Asking.{SameLater, pair, role_pairs};

use few::Few;
use table::layout::MOST_PARTS;
use table::{Credential, Kind, Number, layout};

// A goal by the places of its principal and its role.
#[derive(Clone, Copy, PartialEq, Eq)]
pub struct Pair {
    pub person: usize,
    pub place: usize,
}

// What credential i + 1 asks, which is not of kind 3: the same principal in each of its roles.
pub fn roles_asked(table: &[Number], index: &[u8], person: usize, i: usize) -> Few<Pair, MOST_PARTS>
    requires well_formed { WellFormed table.now }
    requires indexed { Indexed table.now index.now }
    requires i_bound { (i < credentials table.now) × ((credential table.now (suc i)).kind ≡ 3 → ⊥) }
    ensures { listed result ≡ role_pairs index.now person i
        (length (roles_asked table.now (credential table.now (suc i)))) 0 }
{
    let mut asked = Few::none(Pair { person, place: 0 });
    for k in 0..parts_asked(table, layout::credential(table, i + 1)) {
        let place = members::asked_cell(index, i, k);
        asked.push(Pair { person, place });
    }
    asked
}

// What a credential of kind 3 asks with a middle: the middle in the first role, then the principal in the second.
pub fn link_asked(
    middle: usize,
    first: usize,
    person: usize,
    second: usize,
) -> Few<Pair, MOST_PARTS>
    ensures { listed result ≡ pair middle first ∷ pair person second ∷ [] }
{
    let mut asked = Few::of(Pair {
        person: middle,
        place: first,
    });
    asked.push(Pair {
        person,
        place: second,
    });
    asked
}

// A goal after goal k that is the same one.
pub fn same_later(asked: &[Pair], k: usize) -> Option<usize>
    requires { k < length asked.now }
    ensures { MatchOption result Unit (λ j. SameLater asked.now k j) }
{
    (k + 1..asked.len()).find(|j| asked[*j] == asked[k])
}

// How many goals a credential asks that is not of kind 3.
fn parts_asked(table: &[Number], c: Credential) -> usize
    requires well_formed { WellFormed table.now }
    requires whole { Whole table.now c × (c.kind ≡ 3 → ⊥) }
    ensures { result ≡ length (roles_asked table.now c) }
{
    if c.is(Kind::IntersectionContainment) {
        layout::chain(table, c.first).len()
    } else if c.is(Kind::SimpleContainment) {
        1
    } else {
        0
    }
}
