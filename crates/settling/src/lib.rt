// The steps by which an automaton that a set of credentials bears is settled (docs/DEFINITION.md, "The list"): it is met, on terms
// of a search that owe it or impose it, or done without, by leaving out the credentials that bear it. What a search found says
// which of those that may be owed cannot be met. specs/Settling.antt says what these are; the crate admission decides by them.
#![tactic(auto)]

ghost use Rattle.std.specs.Prelude.{◌≡◌, ◌-◌, ◌^◌, ◌<◌, ◌≤◌};
ghost use Rattle.std.specs.Int.Bits.{bit_or};
ghost use Rattle.families.specs.Families.{all_sets};
ghost use Rattle.table.specs.Limits.{most_automata};
ghost use Rattle.table.specs.Holding.{WellFormed};
ghost use Rattle.attached.specs.Attached.{marked_of, owed_of};
ghost use Rattle.settling.specs.Settling.{Asks, all_automata, among, is_lacking, lacking_of, without_all};

use families::Family;
use goals::Terms;
use sets::{AutomatonSet, CredentialSet};
use table::{Number, layout};

// The terms with all that the set may owe: the automata that it bears and that demand some word.
pub fn owing_all(table: &[Number], terms: Terms, marks: AutomatonSet) -> Terms
    requires well_formed { WellFormed table.now }
    requires marks_value { marks ≡ marked_of table.now all_automata }
    ensures { Asks terms terms.constraints (bit_or terms.owed (owed_of table.now terms.allowed)) result }
{
    if marks == 0 {
        return terms;
    }
    let borne = attached::automata_of(table, terms.allowed);
    Terms {
        owed: terms.owed | (borne & marks),
        ..terms
    }
}

// The terms with automaton k owed some word.
pub fn owing(terms: Terms, k: usize) -> Terms
    requires { (k ≡ 0 → ⊥) × (k ≤ most_automata) }
    ensures { Asks terms terms.constraints (bit_or terms.owed (2 ^ (k - 1))) result }
{
    Terms {
        owed: sets::with(terms.owed, k - 1),
        ..terms
    }
}

// The terms with automaton k imposed on every word.
pub fn imposing(terms: Terms, k: usize) -> Terms
    requires { (k ≡ 0 → ⊥) × (k ≤ most_automata) }
    ensures { Asks terms (bit_or terms.constraints (2 ^ (k - 1))) terms.owed result }
{
    Terms {
        constraints: sets::with(terms.constraints, k - 1),
        ..terms
    }
}

// Of the first k automata those that are asked for and cannot be met beside what is owed.
pub fn lacking(found: Family, owed: AutomatonSet, asked: AutomatonSet, k: usize) -> AutomatonSet
    requires { (owed < all_sets) × (k ≤ most_automata) }
    ensures { result ≡ lacking_of found owed asked k }
{
    sets::those(k, |j| is_lacking(found, owed, asked, j))
}

// Automaton j + 1 is asked for and cannot be met beside what is owed.
fn is_lacking(found: Family, owed: AutomatonSet, asked: AutomatonSet, j: usize) -> bool
    requires { (owed < all_sets) × (j < most_automata) }
    ensures { result ≡ is_lacking found owed asked j }
{
    if !sets::has(asked, j) {
        return false;
    }
    !found.covers(sets::with(owed, j))
}

// The credentials of the set that bear none of the automata.
pub fn without(table: &[Number], set: CredentialSet, automata: AutomatonSet) -> CredentialSet
    requires { WellFormed table.now }
    ensures { result ≡ without_all table.now set automata }
{
    sets::those(layout::credentials(table), |i| {
        sets::has(set, i) && !is_among(automata, layout::credential(table, i + 1).automaton)
    })
}

// The credentials of the set that do not bear automaton k.
pub fn without_one(table: &[Number], set: CredentialSet, k: usize) -> CredentialSet
    requires well_formed { WellFormed table.now }
    requires fact { (k ≡ 0 → ⊥) × (k ≤ most_automata) }
    ensures { result ≡ without_all table.now set (2 ^ (k - 1)) }
{
    without(table, set, 1 << (k - 1))
}

// The automaton of a credential is one of these; 0 is none.
fn is_among(automata: AutomatonSet, automaton: Number) -> bool
    requires { automaton ≤ most_automata }
    ensures { result ≡ among automata automaton }
{
    if automaton == 0 {
        return false;
    }
    sets::has(automata, layout::wide(automaton) - 1)
}
