// Row 14: a used automaton that is not met, the lowest such.
ghost use Rattle.std.specs.Prelude.{◌≡◌, not, ◌-◌, eqb};
ghost use Rattle.sets.specs.Logic.{◌or◌, pick};
ghost use Rattle.table.specs.Limits.{most_automata};
ghost use Rattle.table.specs.Outcome.{Outcome, ◌and_then◌, demand_each};
ghost use Rattle.table.specs.Layout.{Numbered, automata};
ghost use Rattle.table.specs.Holding.{WellFormed};
ghost use Rattle.sets.specs.Sets.{in_set};
ghost use Rattle.verifier.specs.Kept.{keeps};
ghost use Rattle.verifier.specs.Verdict.{verdict_told};

use sets::{AutomatonSet, CredentialSet};
use table::{Automaton, Mark, Number, Reason, Refusal, layout};

// The set of all eight automata: automaton k counts 2^(k-1).
pub const ALL_AUTOMATA: AutomatonSet = 255;

// `every` has the automata that have accepted every word, `some` those that have accepted some word. An automaton that is not in
// the set that its mark asks for must not be attached to a used credential.
pub fn judge_words(
    table: &[Number],
    used: CredentialSet,
    every: AutomatonSet,
    some: AutomatonSet,
) -> Result<CredentialSet, Refusal>
    requires { WellFormed table.now }
    ensures { verdict_told result
        ≡ (demand_each (keeps table.now used every some) (automata table.now) 14
        and_then Outcome.accepted used) }
{
    let imposed = attached::automata_of(table, used);
    for i in 0..layout::automata(table) {
        let k = i + 1;
        let asked = demanded(layout::automaton(table, k), every, some);
        if !is_kept(imposed, asked, k) {
            return Err(Refusal {
                reason: Reason::Word,
                position: k,
            });
        }
    }
    Ok(used)
}

// The set that the automaton must be in, by its mark.
fn demanded(automaton: Automaton, every: AutomatonSet, some: AutomatonSet) -> AutomatonSet
    ensures { result ≡ pick (eqb automaton.mark 1) some every }
{
    if automaton.demands(Mark::SomeWord) {
        some
    } else {
        every
    }
}

// Automaton k is not imposed, or it is in the set.
fn is_kept(imposed: AutomatonSet, set: AutomatonSet, k: usize) -> bool
    requires { Numbered most_automata k }
    ensures { result ≡ (not (in_set imposed (k - 1)) or in_set set (k - 1)) }
{
    !sets::has(imposed, k - 1) || sets::has(set, k - 1)
}
