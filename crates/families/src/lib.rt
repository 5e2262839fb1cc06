// Families: sets of sets of automata, for a search that has to know which automata some word each can be made to accept. A set of
// automata is a number below 256, automaton k counting 2^(k-1), so a family is 256 bits. specs/Families.antt says what each
// function makes; proofs/Covering.antt has the laws of what a family covers.
#![tactic(auto)]

mod going; // going.rt: the sets of a family, one after the other
mod spreading; // spreading.rt: bits put into all numbers of a word at once

ghost use Rattle.std.specs.Prelude.{◌≡◌, false, not, true, ◌<◌, ◌≤◌, eqb};
ghost use Rattle.sets.specs.Logic.{◌and◌, ◌or◌, any_below};
ghost use Rattle.families.specs.Families;
ghost use Rattle.families.specs.Families.{FamilyOf, all_sets, in_family, is_part, joins, raises};
ghost use Rattle.families.specs.Next.{Next};

use sets::AutomatonSet;
use std::array;

const ALL_SETS: AutomatonSet = 256;

const WORD_SETS: AutomatonSet = 32;

pub const WORDS: usize = 8;

// Set X stands in bit X % 32 of word X / 32.
#[derive(Clone, Copy)]
pub struct Family {
    pub words: [u32; WORDS],
}

impl Family {
    // No set at all.
    pub fn none() -> Family
        ensures { FamilyOf (λ X. false) result }
    {
        Family { words: [0; WORDS] }
    }

    // This set alone.
    pub fn only(set: AutomatonSet) -> Family
        requires { set < all_sets }
        ensures { FamilyOf (eqb set) result }
    {
        Family::none().with(set)
    }

    // The set is one of the family.
    pub fn has(self, set: AutomatonSet) -> bool
        requires { set < all_sets }
        ensures { result ≡ in_family self set }
    {
        sets::has(
            self.words[(set / WORD_SETS) as usize],
            (set % WORD_SETS) as usize,
        )
    }

    // The family and this set.
    pub fn with(self, set: AutomatonSet) -> Family
        requires { set < all_sets }
        ensures { FamilyOf (λ X. in_family self X or eqb set X) result }
    {
        let at = (set / WORD_SETS) as usize;
        let mut words = self.words;
        words[at] = sets::with(words[at], (set % WORD_SETS) as usize);
        Family { words }
    }

    // The family has no set: none is even in common with itself.
    pub fn is_none(self) -> bool
        ensures { result ≡ not (any_below (in_family self) all_sets) }
    {
        !self.meets(self)
    }

    // The sets of both.
    pub fn or(self, other: Family) -> Family
        ensures { FamilyOf (λ X. in_family self X or in_family other X) result }
    {
        Family {
            words: array::from_fn(|j| self.words[j] | other.words[j]),
        }
    }

    // Each set of the family is one of the other.
    pub fn is_part(self, other: Family) -> bool
        ensures { result ≡ is_part self other }
    {
        self.words
            .iter()
            .zip(other.words.iter())
            .all(|(own, its)| own & its == *own)
    }

    // Some set is in both.
    pub fn meets(self, other: Family) -> bool
        ensures { result ≡ any_below (λ X. in_family self X and in_family other X) all_sets }
    {
        self.words
            .iter()
            .zip(other.words.iter())
            .any(|(own, its)| own & its != 0)
    }

    // Some set of the family includes this one: with this one it is still in the family.
    pub fn covers(self, set: AutomatonSet) -> bool
        requires { set < all_sets }
        ensures { result ≡ Families.covers self set }
    {
        if set == 0 {
            return !self.is_none();
        }
        self.meets(self.raised(set))
    }

    // The unions of a set of the family and a set of the other.
    pub fn joined(self, other: Family) -> Family
        ensures { FamilyOf (joins self other) result }
    {
        let mut all = Family::none();
        for set in self.sets() {
            all = all.or(other.raised(set));
        }
        all
    }

    // The parts of `most` that together with some set of `later` are in the family.
    pub fn left_by(self, later: Family, most: AutomatonSet) -> Family
        requires { most < all_sets }
        ensures { FamilyOf (Families.leaves self later most) result }
    {
        let mut left = Family::none();
        for set in 0..=most {
            if self.leaves(later, most, set) {
                left = left.with(set);
            }
        }
        left
    }

    // The unions of this set and a set of the family, word by word: the high bits say to which word a word goes, and the low bits
    // are put into its numbers.
    fn raised(self, set: AutomatonSet) -> Family
        requires { set < all_sets }
        ensures { FamilyOf (raises self set) result }
    {
        let high = (set / WORD_SETS) as usize;
        let low = set % WORD_SETS;
        let mut words = [0; WORDS];
        for j in 0..WORDS {
            let at = high | j;
            words[at] |= spreading::spread(self.words[j], low);
        }
        Family { words }
    }

    // The set is a part of `most` and together with some set of `later` in the family.
    fn leaves(self, later: Family, most: AutomatonSet, set: AutomatonSet) -> bool
        requires { set < all_sets }
        ensures { result ≡ Families.leaves self later most set }
    {
        set & most == set && self.completes(later, set)
    }

    // The set together with some set of `later` is in the family.
    fn completes(self, later: Family, set: AutomatonSet) -> bool
        requires { set < all_sets }
        ensures { result ≡ Families.completes self later set }
    {
        for more in later.sets() {
            if self.has(set | more) {
                return true;
            }
        }
        false
    }

    // The first set of the family that is not below `from`, or 256: the rest of a word is skipped where it has no set.
    fn next(self, from: AutomatonSet) -> AutomatonSet
        requires { from ≤ all_sets }
        ensures { Next self from result }
    {
        let mut set = from;
        while set < ALL_SETS {
            let rest = self.words[(set / WORD_SETS) as usize] >> (set % WORD_SETS);
            if rest % 2 == 1 {
                return set;
            }
            set = if rest == 0 {
                (set / WORD_SETS + 1) * WORD_SETS
            } else {
                set + 1
            };
        }
        set
    }
}
