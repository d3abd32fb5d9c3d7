// Sets of variables, as masks.
#![tactic(auto)]

ghost use Rattle.std.specs.Prelude.{◌≡◌, ℕ, not};
ghost use Rattle.policy.specs.Limits.{variables};
ghost use Rattle.policy.specs.Facts.{some_below};
ghost use Rattle.varset.specs.Members.{member, Holds, nothing, everything, plus, minus, either, both, First};

use policy::VARIABLES;

mod iterating;

pub use iterating::Members;

// One bit for each variable.
type Mask = u64;

// Whether there is such a variable.
pub fn is_variable(variable: u8) -> bool
    ensures { result ≡ everything variable }
{
    usize::from(variable) < VARIABLES
}

// No impl Model: a set is seen by its membership test, a function, which has no code.
#[derive(Clone, Copy, Debug, PartialEq, Eq)]
pub struct VarSet {
    mask: Mask,
}

impl VarSet {
    #[tactic(auto, using(crate::proofs::Masks::inside_zero), unfolding(crate::specs::Members::member))]
    pub fn empty() -> VarSet
        ensures { Holds result nothing }
    {
        VarSet { mask: 0 }
    }

    #[tactic(auto, using(crate::proofs::Masks::inside_ones), unfolding(crate::specs::Members::member))]
    pub fn all() -> VarSet
        ensures { Holds result everything }
    {
        VarSet { mask: Mask::MAX }
    }

    #[tactic(auto, using(crate::proofs::Masks::bit_test), unfolding(crate::specs::Members::member))]
    pub fn has(self, variable: u8) -> bool
        ensures { result ≡ member self variable }
    {
        is_variable(variable) && (self.mask >> variable) & 1 == 1
    }

    // The set and the variable, if there is such a one.
    #[tactic(auto, using(crate::proofs::Masks::inside_with), unfolding(crate::specs::Members::member))]
    pub fn with(self, variable: u8) -> VarSet
        ensures { Holds result (plus (member self) variable) }
    {
        if is_variable(variable) {
            VarSet {
                mask: self.mask | (1 << variable),
            }
        } else {
            self
        }
    }

    // The set and not the variable.
    #[tactic(auto, using(crate::proofs::Masks::inside_without, crate::proofs::Masks::inside_beyond), unfolding(crate::specs::Members::member))]
    fn without(self, variable: u8) -> VarSet
        ensures { Holds result (minus (member self) variable) }
    {
        if is_variable(variable) {
            VarSet {
                mask: self.mask & !(1 << variable),
            }
        } else {
            self
        }
    }

    // The least member.
    fn first(self) -> Option<u8>
        ensures { First (member self) result }
    {
        match self.mask {
            0 => None,
            _ => Some(self.mask.trailing_zeros() as u8),
        }
    }

    // The members in rising order.
    pub fn iter(self) -> Members
        ensures { result.rest ≡ self }
    {
        Members { rest: self }
    }

    pub fn is_empty(self) -> bool
        ensures { result ≡ not (some_below variables (member self)) }
    {
        self.mask == 0
    }

    // Whether some variable is in both sets.
    pub fn meets(self, other: VarSet) -> bool
        ensures { result ≡ some_below variables (both (member self) (member other)) }
    {
        self.mask & other.mask != 0
    }

    #[tactic(auto, using(crate::proofs::Masks::inside_or), unfolding(crate::specs::Members::member))]
    pub fn union(self, other: VarSet) -> VarSet
        ensures { Holds result (either (member self) (member other)) }
    {
        VarSet {
            mask: self.mask | other.mask,
        }
    }
}
