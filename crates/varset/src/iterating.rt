// The members of a set one by one.
ghost use Rattle.policy.specs.Limits.{variables};
ghost use Rattle.varset.specs.Below.{how_many_below};
ghost use Rattle.varset.specs.Members.{member, HandsOut};
ghost use Rattle.std.specs.Iterator.{at_most};

use crate::VarSet;

// The members that are still to come, in rising order.
#[derive(Drop)]
pub struct Members {
    pub(crate) rest: VarSet,
}

impl Iterator for Members {
    type Item = u8;

    ghost next_gives = { λ s r t. HandsOut (member s.rest) r (member t.rest) };

    ghost remaining = { λ s. at_most (how_many_below variables (member s.rest)) };

    fn next(&mut self) -> Option<u8> {
        let first = self.rest.first()?;
        self.rest = self.rest.without(first);
        Some(first)
    }
}
