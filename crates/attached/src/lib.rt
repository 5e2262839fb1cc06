// The automata attached to the credentials of a set, and those of a set of automata that demand some word: automaton k counts
// 2^(k-1).
#![tactic(auto)]

ghost use Rattle.std.specs.Prelude.{◌≡◌, not, suc, ◌-◌, ◌^◌, ◌<◌, ◌≤◌, eqb};
ghost use Rattle.std.specs.Int.Bits.{bit_or};
ghost use Rattle.sets.specs.Logic.{◌and◌, pick};
ghost use Rattle.sets.specs.Sets.{in_set};
ghost use Rattle.table.specs.Limits.{most_automata};
ghost use Rattle.table.specs.Layout;
ghost use Rattle.table.specs.Holding.{WellFormed};
ghost use Rattle.attached.specs.Attached.{automata_of, marked_of};

use sets::{AutomatonSet, CredentialSet};
use table::{Mark, Number, layout};

pub fn automata_of(table: &[Number], set: CredentialSet) -> AutomatonSet
    requires { WellFormed table.now }
    ensures { result ≡ automata_of table.now set }
{
    let n = layout::credentials(table);
    let mut mask = 0;
    for i in 0..n {
        let credential = layout::credential(table, i + 1);
        mask = with_automaton(mask, sets::has(set, i), credential.automaton);
    }
    mask
}

// The mask with the automaton, where the credential is in the set and has one.
fn with_automaton(mask: AutomatonSet, member: bool, automaton: Number) -> AutomatonSet
    requires { automaton ≤ most_automata }
    ensures { result ≡ pick (member and not (eqb automaton 0)) (bit_or mask (2 ^ (automaton - 1))) mask }
{
    if !member {
        return mask;
    }
    if automaton == 0 {
        return mask;
    }
    sets::with(mask, layout::wide(automaton) - 1)
}

// The automata of the set that have mark 1.
pub fn marked(table: &[Number], set: AutomatonSet) -> AutomatonSet
    requires { WellFormed table.now }
    ensures { result ≡ marked_of table.now set }
{
    sets::those(layout::automata(table), |k| is_marked(table, set, k))
}

// Whether automaton k + 1 is in the set and has mark 1.
fn is_marked(table: &[Number], set: AutomatonSet, k: usize) -> bool
    requires well_formed { WellFormed table.now }
    requires k_bound { k < Layout.automata table.now }
    ensures { result ≡ (in_set set k and eqb (Layout.automaton table.now (suc k)).mark 1) }
{
    if !sets::has(set, k) {
        return false;
    }
    layout::automaton(table, k + 1).demands(Mark::SomeWord)
}
