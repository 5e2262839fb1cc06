// Cuts: what lies outside of a set that does not pass a monotone test. Every set that passes meets every cut. The cuts found so far
// are the first `count` cells of an array. specs/Cuts.antt says what they tell; proofs/ has the laws, for any monotone test.
#![tactic(auto)]

ghost use Rattle.std.specs.Prelude.{◌≡◌, true, ℕ, ◌^◌, ◌<◌, ◌≤◌, length};
ghost use Rattle.sets.specs.Logic.{◌and◌};
ghost use Rattle.sets.specs.Sets.{in_set, part};
ghost use Rattle.cuts.specs.Cuts;
ghost use Rattle.cuts.specs.Cuts.{RegionJudged, is_sole, meets_all};

use sets::CredentialSet;

// The set meets each of the cuts.
pub fn meets_all(cuts: &[CredentialSet], count: usize, set: CredentialSet) -> bool
    requires { count ≤ length cuts.now }
    ensures { result ≡ meets_all cuts.now count set }
{
    cuts[..count].iter().all(|cut| set & *cut != 0)
}

// The first of the cuts that the set does not meet; 0 where it meets them all.
pub fn unmet(cuts: &[CredentialSet], count: usize, set: CredentialSet) -> CredentialSet
    requires { count ≤ length cuts.now }
    ensures { result ≡ Cuts.unmet cuts.now count set }
{
    cuts[..count]
        .iter()
        .find(|cut| set & **cut == 0)
        .copied()
        .unwrap_or(0)
}

// The chosen members that are in some cut the only chosen one.
pub fn sole(cuts: &[CredentialSet], count: usize, chosen: CredentialSet) -> CredentialSet
    requires { count ≤ length cuts.now }
    ensures { (c : ℕ) → in_set result c ≡ is_sole cuts.now count chosen c }
{
    cuts[..count]
        .iter()
        .fold(0, |found, cut| found | if_single(*cut & chosen))
}

// The set where it has just one member, and otherwise none.
fn if_single(set: CredentialSet) -> CredentialSet
    ensures { (c : ℕ) → in_set result c ≡ (in_set set c and part set (2 ^ c)) }
{
    if set == 0 {
        return 0;
    }
    if set & (set - 1) != 0 {
        return 0;
    }
    set
}

// The highest member of a set.
pub fn highest(set: CredentialSet) -> usize
    requires { (set ≡ 0 → ⊥) × (set < 2 ^ 20) }
    ensures { (in_set set result ≡ true) × (result < 20) }
{
    set.ilog2() as usize
}

// By its cuts a region has no least set: some cut meets neither chosen nor free, so that no set of the region passes; or no cut
// contains some chosen member alone among the chosen ones, so that a set of the region that passes also passes without that
// member. Where the array is full the second is not known.
pub fn is_barren(
    cuts: &[CredentialSet],
    count: usize,
    chosen: CredentialSet,
    free: CredentialSet,
) -> bool
    requires { count ≤ length cuts.now }
    ensures { RegionJudged cuts.now count chosen free result }
{
    if !meets_all(cuts, count, chosen | free) {
        return true;
    }
    if count == cuts.len() {
        return false;
    }
    sole(cuts, count, chosen) != chosen
}
