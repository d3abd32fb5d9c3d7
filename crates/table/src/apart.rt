// A table taken apart.
ghost use Rattle.std.specs.Prelude.{◌≡◌};

use crate::table::Table;
use policy::Policy;

impl<P: Policy> Table<P> {
    // Ends the table and gives its policy back.
    pub fn into_policy(self) -> P
        ensures { result ≡ self.policy }
    {
        let Table { policy, .. } = self;
        policy
    }
}
