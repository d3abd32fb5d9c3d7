// Why a table turned a call down.
ghost use Rattle.std.specs.Prelude.{◌≡◌};
ghost use Rattle.table.specs.Faults.{numbered as number_of_fault, refused_single};

use policy::PolicyFault;
use refusal::Refusal;

// Where a variable stands in a call: by itself, or at a place of its list, counted from 0.
// No Option<u8>: a variable by itself is a case of its own, and no place that is missing.
#[derive(Clone, Copy, Debug, PartialEq, Eq)]
pub enum Place {
    Single,
    Listed(u8),
}

#[derive(Clone, Copy, Debug, PartialEq, Eq)]
pub enum TableFault {
    NoTask,
    NoVariable(Place),
    ListLength,
    ShortBuffer,
    // a begin or a snapshot while the task isn't idle
    NotIdle,
    // another call while it is
    IsIdle,
    IsBroken,
    // the policy refused the call
    Refused(Place, PolicyFault),
}

// A policy's fault in a call that names one variable or none.
impl From<PolicyFault> for TableFault {
    ghost from_gives = { λ fault r. r ≡ refused_single fault };

    fn from(fault: PolicyFault) -> TableFault {
        TableFault::Refused(Place::Single, fault)
    }
}

impl Refusal for TableFault {
    ghost numbered = { number_of_fault };

    fn number(&self) -> u8 {
        match *self {
            TableFault::NoTask => 1,
            TableFault::NoVariable(_) => 2,
            TableFault::ListLength => 3,
            TableFault::ShortBuffer => 4,
            TableFault::NotIdle => 10,
            TableFault::IsIdle => 11,
            TableFault::IsBroken => 12,
            TableFault::Refused(_, PolicyFault::Unfit) => 13,
            TableFault::Refused(_, PolicyFault::ReadBarred(_)) => 20,
            TableFault::Refused(_, PolicyFault::WriteBarred(_)) => 21,
            TableFault::Refused(_, PolicyFault::CommitRefused) => 22,
        }
    }
}
