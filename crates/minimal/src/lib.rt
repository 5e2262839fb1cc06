// Whether an admitted set is minimal, by leaving out one credential at a time. The list asks it where it keeps no cuts, and the call
// that writes asks it of the set that it is given.
#![tactic(auto)]

ghost use Rattle.std.specs.Prelude.{◌≡◌, true, ◌^◌, ◌<◌};
ghost use Rattle.std.specs.Int.Bits.{bit_xor};
ghost use Rattle.sets.specs.Logic.{◌and◌};
ghost use Rattle.sets.specs.Sets.{in_set};
ghost use Rattle.cuts.specs.Cuts.{is_least};
ghost use Rattle.table.specs.Layout.{credentials};
ghost use Rattle.admission.specs.Admits.{admits};

use search::Request;
use sets::CredentialSet;
use table::layout;

// Whether an admitted set is minimal: without any one of its credentials it is not admitted.
pub fn is_minimal(request: &Request, set: CredentialSet) -> bool
    requires set_bound { set < 2 ^ credentials request.now.table.now }
    requires set_value { admits request.now.table.now request.now.query set ≡ true }
    ensures { result ≡ is_least (admits request.now.table.now request.now.query) set }
{
    let n = layout::credentials(request.table);
    for i in 0..n {
        if is_spare(request, set, i) {
            return false;
        }
    }
    true
}

// Whether a credential of the set is there, and the set is admitted without it.
fn is_spare(request: &Request, set: CredentialSet, i: usize) -> bool
    requires { i < credentials request.now.table.now }
    ensures { result ≡ (in_set set i and admits request.now.table.now request.now.query (bit_xor set (2 ^ i))) }
{
    sets::has(set, i) && admission::admits(request, set ^ (1 << i))
}
