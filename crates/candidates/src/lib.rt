// One set of a region: an admitted one is put into the buffer, in its place (crate sorted), if it is minimal; one that is not
// admitted is grown, so that what lies outside of it is a cut (crate cuts). specs/Candidates.antt says what is asked and given.
#![tactic(auto)]

ghost use Rattle.std.specs.Prelude.{◌≡◌, true, false, not, ℕ, ◌^◌, ◌<◌, ltb};
ghost use Rattle.std.specs.Int.Bits.{bit_xor};
ghost use Rattle.sets.specs.Logic.{◌and◌};
ghost use Rattle.sets.specs.Sets.{in_set};
ghost use Rattle.cuts.specs.Cuts.{Cuts, is_least};
ghost use Rattle.table.specs.Layout.{credentials};
ghost use Rattle.table.specs.Holding.{WellFormed};
ghost use Rattle.admission.specs.Admits.{admits};
ghost use Rattle.candidates.specs.Candidates.{Bears, Grown, InsertedIfLeast, has_listed};

use search::Request;
use sets::CredentialSet;
use table::{Number, layout};

// Puts an admitted set into the buffer if it is minimal. That is known where each of its credentials is in some cut the only one;
// where the array is full it is tested.
pub fn keep(
    request: &Request,
    set: CredentialSet,
    full: bool,
    sets: &mut [CredentialSet],
    found: &mut usize,
)
    requires set_bound { set < 2 ^ credentials request.now.table.now }
    requires set_value { admits request.now.table.now request.now.query set ≡ true }
    requires set_value_2 { full ≡ false → is_least (admits request.now.table.now request.now.query) set ≡ true }
    requires found_bound { found.old < 2 ^ 32 }
    ensures { InsertedIfLeast (admits request.now.table.now request.now.query) set sets.old found.old
        sets.new found.new }
{
    if full && !minimal::is_minimal(request, set) {
        return;
    }
    sorted::insert(sets, found, set);
}

// Grows a set that is not admitted, credential by credential, while it is not.
pub fn grown(
    request: &Request,
    usable: CredentialSet,
    cuts: &[CredentialSet],
    count: usize,
    sets: &[CredentialSet],
    found: usize,
    chosen: CredentialSet,
) -> CredentialSet
    requires bears { Bears (admits request.now.table.now request.now.query) usable }
    requires cuts { Cuts (admits request.now.table.now request.now.query) (credentials request.now.table.now) cuts.now count }
    requires chosen_bound { chosen < 2 ^ credentials request.now.table.now }
    requires chosen_value { admits request.now.table.now request.now.query chosen ≡ false }
    ensures { Grown (admits request.now.table.now request.now.query) (credentials request.now.table.now) chosen result }
{
    let n = layout::credentials(request.table);
    let mut set = chosen;
    for i in 0..n {
        set = grown_by(request, usable, cuts, count, sets, found, set, i);
    }
    set
}

// The set with one credential more where it is still not admitted. It is not where the credential does not bear on the query, nor
// where the set does not meet one of the cuts; and it is admitted where a set of the list is a part of it. These are asked first.
// Consulting the list affects speed, not correctness: a set that is not grown is as good a result.
fn grown_by(
    request: &Request,
    usable: CredentialSet,
    cuts: &[CredentialSet],
    count: usize,
    sets: &[CredentialSet],
    found: usize,
    set: CredentialSet,
    i: usize,
) -> CredentialSet
    requires bears { Bears (admits request.now.table.now request.now.query) usable }
    requires cuts { Cuts (admits request.now.table.now request.now.query) (credentials request.now.table.now) cuts.now count }
    requires set_bound { set < 2 ^ credentials request.now.table.now }
    requires set_value { admits request.now.table.now request.now.query set ≡ false }
    requires i_bound { i < credentials request.now.table.now }
    ensures { Grown (admits request.now.table.now request.now.query) (credentials request.now.table.now) set result }
{
    if sets::has(set, i) {
        return set;
    }
    let more = sets::with(set, i);
    if !sets::has(usable, i) {
        return more;
    }
    if !cuts::meets_all(cuts, count, more) {
        return more;
    }
    if has_listed(sets, found, more) {
        return set;
    }
    if admission::admits(request, more & usable) {
        return set;
    }
    more
}

// Whether one of the sets found so far is a part of the set, as far as the buffer has cells for them.
fn has_listed(sets: &[CredentialSet], found: usize, set: CredentialSet) -> bool
    ensures { result ≡ has_listed sets.now found set }
{
    sets.iter().take(found).any(|s| s & set == *s)
}

// The table's credentials outside of a set of them.
pub fn outside(table: &[Number], set: CredentialSet) -> CredentialSet
    requires well_formed { WellFormed table.now }
    requires set_bound { set < 2 ^ credentials table.now }
    ensures { (c : ℕ) → in_set result c ≡ (ltb c (credentials table.now) and not (in_set set c)) }
{
    let n = layout::credentials(table);
    ((1 << n) - 1) ^ set
}
