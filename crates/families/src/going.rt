// The sets of a family, one after the other in ascending order.
ghost use Rattle.std.specs.Prelude.{◌≡◌, ◌<◌, ◌≤◌, ◌+◌, ◌-◌, MatchOption};
ghost use Rattle.std.specs.Iterator.{at_most};
ghost use Rattle.families.specs.Families.{all_sets};
ghost use Rattle.families.specs.Next.{Next};

use crate::Family;
use sets::AutomatonSet;

// The sets of the family that are not below `from`.
#[derive(Drop)]
pub struct Sets {
    family: Family,
    from: AutomatonSet,
    ghost few: { from ≤ all_sets },
}

impl Family {
    pub(crate) fn sets(self) -> Sets
        ensures { (result.family ≡ self) × (result.from ≡ 0) }
    {
        Sets {
            family: self,
            from: 0,
        }
    }
}

impl Iterator for Sets {
    type Item = AutomatonSet;

    ghost next_gives = { λ s r t. (t.family ≡ s.family)
        × MatchOption r (Next s.family s.from all_sets) (λ set. (set < all_sets) × Next s.family s.from set × (t.from ≡ set + 1)) };

    ghost remaining = { λ s. at_most (all_sets - s.from) };

    fn next(&mut self) -> Option<AutomatonSet> {
        let set = self.family.next(self.from);
        if set == crate::ALL_SETS {
            return None;
        }
        self.from = set + 1;
        Some(set)
    }
}
