// The pairs of principal and role on the way from the query's goal to a node, by their places: for each place of a role the
// principals with whom it stands there.
ghost use Rattle.std.specs.Prelude.{◌≡◌, ◌<◌};
ghost use Rattle.table.specs.Limits.{most_credentials};
ghost use Rattle.members.specs.Above.{nothing_above, pair_above, with_pair};

use sets::CredentialSet;
use table::layout;

#[derive(Clone, Copy)]
pub struct Above {
    pub persons: [CredentialSet; layout::MOST_CREDENTIALS as usize],
}

impl Above {
    // Nothing stands above the query's goal.
    pub fn nothing() -> Above
        ensures { result ≡ nothing_above }
    {
        Above {
            persons: [0; layout::MOST_CREDENTIALS as usize],
        }
    }

    // The principal at `person` in the role at `place` is one of them.
    pub fn has(self, person: usize, place: usize) -> bool
        requires { (person < most_credentials) × (place < most_credentials) }
        ensures { result ≡ pair_above self person place }
    {
        sets::has(self.persons[place], person)
    }

    // These and the principal at `person` in the role at `place`.
    pub fn with(mut self, person: usize, place: usize) -> Above
        requires { (person < most_credentials) × (place < most_credentials) }
        ensures { result ≡ with_pair self person place }
    {
        self.persons[place] = sets::with(self.persons[place], person);
        self
    }
}
