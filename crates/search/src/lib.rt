// The search: which sets of automata can be met, each by some word, where the credentials of a set prove a membership and every
// word must be accepted by each of some other automata (docs/DEFINITION.md, "The list"). It knows of derivations what
// `derivation` promises: which goals a credential asks, and what may not repeat on a branch. specs/Search.antt says what the
// answers mean, specs/Failing.antt what is remembered on the way.
#![tactic(auto)]

mod asking; // asking.rt: the goals that a credential asks
mod prepared; // prepared.rt: a table and a query, prepared for a search
mod seeking; // seeking.rt: goal search and credential search, which call each other

ghost use Rattle.std.specs.Prelude.{◌≡◌, ◌<◌};
ghost use Rattle.families.specs.Families.{all_sets};
ghost use Rattle.automata.specs.Together.{starting_sets};
ghost use Rattle.members.specs.Above.{nothing_above};
ghost use Rattle.table.specs.Checks.{Valid};
ghost use Rattle.table.specs.Holding.{WellFormed};
ghost use Rattle.members.specs.Members.{Aimed, Indexed, Members};
ghost use Rattle.search.specs.Search.{Stands, TellsMet, provable};
ghost use Rattle.search.specs.Failing.{FoundBelow, goal_test};
ghost use Rattle.search.specs.Grounds.{RememberedOn, SearchableOn};

pub use asking::{Pair, link_asked, roles_asked, same_later};
use automata::StateSets;
use families::Family;
use goals::{Ground, Spot, Terms};
use members::Above;
pub use prepared::Request;
pub use seeking::{Answer, credential_search, goal_search};
use sets::CredentialSet;
use table::{Number, Query, layout};

// Whether some derivation of the queried membership uses only allowed credentials, where no automaton is imposed and none owed: the
// table of members tells it by itself.
pub fn is_member(
    table: &[Number],
    query: Query,
    index: &[u8],
    rows: &[CredentialSet],
    terms: Terms,
) -> bool
    requires well_formed { WellFormed table.now × Valid query }
    requires indexed { Indexed table.now index.now × Aimed table.now query index.now }
    requires members { Members table.now terms.allowed query.depth terms.last rows.now }
    ensures { result ≡ provable table.now query terms.allowed 0 0 }
{
    let person = members::goal_person(index);
    if layout::credentials(table) <= person {
        return false;
    }
    let place = members::goal_role(index);
    let levels = layout::wide(query.depth);
    let ground = Ground {
        table,
        index,
        arcs: &[],
        rows,
        terms,
    };
    goals::may_be_proved(&ground, person, place, levels)
}

// Which sets of the owed automata can be met by derivations of the queried membership that use only allowed credentials and each
// word of which is accepted by each of the automata `constraints`. The rows up to the last are the table of members of the allowed
// credentials (`levels::fill`). Where few credentials are allowed a small memory will do, which is cleared sooner.
pub fn query_search(request: &Request, rows: &[CredentialSet], terms: Terms) -> Family
    requires members { Members request.now.table.now terms.allowed request.now.query.depth terms.last rows.now }
    requires owed_lt_all_sets { terms.owed < all_sets }
    ensures { TellsMet request.now.table.now request.now.query terms.allowed terms.constraints terms.owed result }
{
    let person = members::goal_person(request.index);
    if layout::credentials(request.table) <= person {
        return Family::none();
    }
    let place = members::goal_role(request.index);
    let levels = layout::wide(request.query.depth);
    let ground = Ground {
        table: request.table,
        index: request.index,
        arcs: request.arcs,
        rows,
        terms,
    };
    if !goals::may_be_proved(&ground, person, place, levels) {
        return Family::none();
    }
    if failures::is_small(terms.allowed) {
        let mut memory = [0; failures::FEW_CELLS];
        return from_start(&ground, person, place, levels, &mut memory);
    }
    let mut memory = [0; failures::CELLS];
    from_start(&ground, person, place, levels, &mut memory)
}

// What can be met where the principal at `person` is proved to be in the role at `place`, from the start of all words on.
fn from_start(
    ground: &Ground,
    person: usize,
    place: usize,
    levels: usize,
    memory: &mut [u32],
) -> Family
    requires searchable { SearchableOn ground.now levels }
    requires stands { Stands ground.now.table.now person place }
    requires remembered { RememberedOn ground.now memory.old }
    ensures { let g = ground.now in FoundBelow g.terms.owed (goal_test g.table.now g.terms.allowed g.terms.constraints g.terms.owed
        levels (starting_sets g.table.now) person place) nothing_above result }
{
    let start = Spot {
        levels,
        states: StateSets::start(ground.table),
        above: Above::nothing(),
    };
    let answer = seeking::goal_search(ground, person, place, start, memory);
    answer.found
}
