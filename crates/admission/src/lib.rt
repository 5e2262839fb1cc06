// Whether some accepted record uses only credentials of a set (docs/DEFINITION.md, "The list"): some derivation that uses only
// these complies with the automata of the credentials that it uses. An automaton matters only where one of its credentials is
// used, so each automaton that the set bears is either done without, by leaving its credentials out, or imposed on every word or
// owed some word, by its mark. One search tells of all automata that may be owed which of them can be met together; those that
// cannot be met at all are done without at once. specs/Admits.antt says what the answer means.
#![tactic(auto)]

ghost use Rattle.std.specs.Prelude.{◌≡◌, false, suc, ◌-◌, ◌<◌, ◌≤◌, eqb};
ghost use Rattle.std.specs.Int.Bits.{bit_or};
ghost use Rattle.families.specs.Families.{all_sets};
ghost use Rattle.table.specs.Layout.{automata, automaton};
ghost use Rattle.attached.specs.Attached.{marked_of, owed_of};
ghost use Rattle.settling.specs.Settling.{all_automata};
ghost use Rattle.admission.specs.Admits;
ghost use Rattle.admission.specs.Admits.{admits_by, admits_to};
ghost use Rattle.admission.specs.Deciding.{Borne, Known, MetFound, Undecided};

use families::Family;
use goals::Terms;
use search::Request;
use sets::{AutomatonSet, CredentialSet};
use table::layout;

const ALL_AUTOMATA: AutomatonSet = 255;

// Whether some accepted record uses only credentials of the set.
pub fn admits(request: &Request, set: CredentialSet) -> bool
    ensures { result ≡ Admits.admits request.now.table.now request.now.query set }
{
    admits_under(
        request,
        set,
        0,
        0,
        attached::marked(request.table, ALL_AUTOMATA),
        layout::automata(request.table),
    )
}

// Whether the set proves the membership under the constraints and with what is owed, and each automaton from k down to 1 that it
// bears can be done without or met beside them. `marks` are the automata of the table that demand some word.
#[cycle(admit)]
fn admits_under(
    request: &Request,
    set: CredentialSet,
    constraints: AutomatonSet,
    owed: AutomatonSet,
    marks: AutomatonSet,
    k: usize,
) -> bool
    requires marks_value { marks ≡ marked_of request.now.table.now all_automata }
    requires k_bound { (k ≤ automata request.now.table.now) × (owed < all_sets) }
    ensures { result ≡ admits_to request.now.table.now request.now.query set constraints owed k }
{
    let mut rows = [0; levels::TABLE_CELLS];
    let last = levels::fill(
        request.table,
        request.index,
        set,
        layout::wide(request.query.depth),
        &mut rows,
    );
    let terms = Terms {
        allowed: set,
        constraints,
        owed,
        last,
    };
    admits_over(request, &rows, terms, marks, k)
}

// The same on the terms of a search, with the table of members of the set.
#[cycle(admit)]
fn admits_over(
    request: &Request,
    rows: &[CredentialSet],
    terms: Terms,
    marks: AutomatonSet,
    k: usize,
) -> bool
    requires { Undecided request.now rows.now terms marks k }
    ensures { result ≡ admits_to request.now.table.now request.now.query terms.allowed terms.constraints terms.owed k }
{
    let all = settling::owing_all(request.table, terms, marks);
    if all.constraints | all.owed == 0 {
        return admits_free(request, rows, terms, marks, k);
    }
    let found = search::query_search(request, rows, all);
    admits_found(request, rows, terms, marks, all.owed, found, k)
}

// The same where it is found what can be met of `asked`, which is all that is owed and all that the set may owe. What cannot be met
// beside what is owed is done without.
#[cycle(admit)]
fn admits_found(
    request: &Request,
    rows: &[CredentialSet],
    terms: Terms,
    marks: AutomatonSet,
    asked: AutomatonSet,
    found: Family,
    k: usize,
) -> bool
    requires undecided { Undecided request.now rows.now terms marks k }
    requires met_found { MetFound request.now.table.now request.now.query terms asked found }
    ensures { result ≡ admits_to request.now.table.now request.now.query terms.allowed terms.constraints terms.owed k }
{
    if !found.covers(terms.owed) {
        return false;
    }
    if k == 0 {
        return true;
    }
    let lost = settling::lacking(found, terms.owed, asked, k);
    if lost != 0 {
        let fewer = settling::without(request.table, terms.allowed, lost);
        return admits_under(request, fewer, terms.constraints, terms.owed, marks, k);
    }
    let borne = attached::automata_of(request.table, terms.allowed);
    admits_by(request, rows, terms, marks, borne, found, k)
}

// The same where no automaton is imposed and none can be owed: whether the set proves is known without a search.
#[cycle(admit)]
fn admits_free(
    request: &Request,
    rows: &[CredentialSet],
    terms: Terms,
    marks: AutomatonSet,
    k: usize,
) -> bool
    requires undecided { Undecided request.now rows.now terms marks k }
    requires allowed_value { bit_or terms.constraints (bit_or terms.owed (owed_of request.now.table.now terms.allowed)) ≡ 0 }
    ensures { result ≡ admits_to request.now.table.now request.now.query terms.allowed terms.constraints terms.owed k }
{
    if !search::is_member(request.table, request.query, request.index, rows, terms) {
        return false;
    }
    if k == 0 {
        return true;
    }
    let borne = attached::automata_of(request.table, terms.allowed);
    let found = Family::only(0);
    admits_by(request, rows, terms, marks, borne, found, k)
}

// Whether each automaton from k down to 1 that the set bears can be done without or met, where `found` tells what can be met of
// all that the set may owe.
#[cycle(admit)]
fn admits_by(
    request: &Request,
    rows: &[CredentialSet],
    terms: Terms,
    marks: AutomatonSet,
    borne: AutomatonSet,
    found: Family,
    k: usize,
) -> bool
    requires undecided { Undecided request.now rows.now terms marks k }
    requires known { Known request.now.table.now request.now.query terms borne found }
    ensures { result ≡ admits_by request.now.table.now request.now.query terms.allowed terms.constraints terms.owed k }
{
    if k == 0 {
        return true;
    }
    if !sets::has(borne, k - 1) {
        return admits_by(request, rows, terms, marks, borne, found, k - 1);
    }
    if sets::has(marks, k - 1) {
        return owes_one(request, rows, terms, marks, borne, found, k);
    }
    imposes_one(request, rows, terms, marks, k)
}

// The same where automaton k is borne and demands some word: whether it can be met is known, so that is asked first.
#[cycle(admit)]
fn owes_one(
    request: &Request,
    rows: &[CredentialSet],
    terms: Terms,
    marks: AutomatonSet,
    borne: AutomatonSet,
    found: Family,
    k: usize,
) -> bool
    requires undecided { Undecided request.now rows.now terms marks k }
    requires known { Known request.now.table.now request.now.query terms borne found }
    requires borne { Borne request.now.table.now terms.allowed k × ((automaton request.now.table.now (suc (k - 1))).mark ≡ 1) }
    ensures { result ≡ admits_by request.now.table.now request.now.query terms.allowed terms.constraints terms.owed k }
{
    let more = settling::owing(terms, k);
    if found.covers(more.owed) {
        if admits_by(request, rows, more, marks, borne, found, k - 1) {
            return true;
        }
    }
    let fewer = settling::without_one(request.table, terms.allowed, k);
    admits_under(request, fewer, terms.constraints, terms.owed, marks, k - 1)
}

// The same where automaton k is borne and demands every word.
#[cycle(admit)]
fn imposes_one(
    request: &Request,
    rows: &[CredentialSet],
    terms: Terms,
    marks: AutomatonSet,
    k: usize,
) -> bool
    requires undecided { Undecided request.now rows.now terms marks k }
    requires borne { Borne request.now.table.now terms.allowed k × (eqb (automaton request.now.table.now (suc (k - 1))).mark 1 ≡ false) }
    ensures { result ≡ admits_by request.now.table.now request.now.query terms.allowed terms.constraints terms.owed k }
{
    let fewer = settling::without_one(request.table, terms.allowed, k);
    if admits_under(request, fewer, terms.constraints, terms.owed, marks, k - 1) {
        return true;
    }
    let more = settling::imposing(terms, k);
    let all = settling::owing_all(request.table, more, marks);
    let found = search::query_search(request, rows, all);
    admits_found(request, rows, more, marks, all.owed, found, k - 1)
}
