// The search for minimal sets, region by region: the sets that include `chosen` and have nothing outside of chosen and free. It
// keeps the cuts that it has found: what lies outside of a set that is not admitted, so that every admitted set meets every
// cut (crate cuts). What is done with one set of a region is in the crate candidates. specs/Below.antt says what is asked and
// given.
#![tactic(auto)]

ghost use Rattle.cuts.specs.Cuts.{Ready};
ghost use Rattle.table.specs.Layout.{credentials};
ghost use Rattle.admission.specs.Admits.{admits};
ghost use Rattle.candidates.specs.Candidates.{Bears};
ghost use Rattle.regions.specs.Below.{Decided, Ended, Held};

use search::Request;
use sets::CredentialSet;

// Finds the minimal sets of a region: those without one of its free credentials, then those with it.
pub fn below(
    request: &Request,
    usable: CredentialSet,
    chosen: CredentialSet,
    free: CredentialSet,
    cuts: &mut [CredentialSet],
    count: &mut usize,
    sets: &mut [CredentialSet],
    found: &mut usize,
)
    requires bears { Bears (admits request.now.table.now request.now.query) usable }
    requires ready { Ready (admits request.now.table.now request.now.query) (credentials request.now.table.now) chosen free cuts.old count.old }
    requires held { Held (credentials request.now.table.now) chosen free sets.old found.old }
    ensures { Ended request.now.table.now request.now.query chosen free cuts.old count.old
        cuts.new count.new sets.old found.old sets.new found.new }
{
    let among = decide(request, usable, chosen, free, cuts, count, sets, found);
    if among == 0 {
        return;
    }
    let next = cuts::highest(among);
    let rest = free ^ (1 << next);
    let more = sets::with(chosen, next);
    below(request, usable, chosen, rest, cuts, count, sets, found); // without it
    below(request, usable, more, rest, cuts, count, sets, found); // with it
}

// What of a region is left to branch on: the free credentials of a cut that `chosen` does not meet, or none where the region is
// done with. Where the array of cuts is full, any free credential.
fn decide(
    request: &Request,
    usable: CredentialSet,
    chosen: CredentialSet,
    free: CredentialSet,
    cuts: &mut [CredentialSet],
    count: &mut usize,
    sets: &mut [CredentialSet],
    found: &mut usize,
) -> CredentialSet
    requires bears { Bears (admits request.now.table.now request.now.query) usable }
    requires ready { Ready (admits request.now.table.now request.now.query) (credentials request.now.table.now) chosen free cuts.old count.old }
    requires held { Held (credentials request.now.table.now) chosen free sets.old found.old }
    ensures { Decided request.now.table.now request.now.query chosen free cuts.old count.old
        cuts.new count.new sets.old found.old sets.new
        found.new result }
{
    if cuts::is_barren(cuts, *count, chosen, free) {
        return 0;
    }
    let among = cuts::unmet(cuts, *count, chosen) & free;
    if among != 0 {
        return among;
    }
    if admission::admits(request, chosen) {
        candidates::keep(request, chosen, *count == cuts.len(), sets, found);
        return 0;
    }
    if *count == cuts.len() {
        return free;
    }
    let cut = candidates::outside(
        request.table,
        candidates::grown(request, usable, cuts, *count, sets, *found, chosen),
    );
    cuts[*count] = cut;
    *count += 1;
    cut & free
}
