// A transaction that has begun and has not ended.
ghost use Rattle.std.specs.Prelude.{◌≡◌, if◌then◌else◌};
ghost use Rattle.varset.specs.Members.{Holds, member, nothing, plus};

use varset::VarSet;

#[derive(Clone, Copy)]
pub struct Transaction<N> {
    pub reads: VarSet,
    pub writes: VarSet,
    // what a policy notes of it besides
    pub note: N,
}

impl<N: Copy> Transaction<N> {
    pub fn begin(note: N) -> Transaction<N>
        ensures reads { Holds result.reads nothing }
        ensures writes { Holds result.writes nothing }
        ensures note { result.note ≡ note }
    {
        Transaction {
            reads: VarSet::empty(),
            writes: VarSet::empty(),
            note,
        }
    }

    // What is read after it was written doesn't enter the read set.
    pub fn with_read(self, variable: u8) -> Transaction<N>
        ensures reads { Holds result.reads (if member self.writes variable then member self.reads else plus (member self.reads) variable) }
        ensures writes { result.writes ≡ self.writes }
        ensures note { result.note ≡ self.note }
    {
        if self.writes.has(variable) {
            self
        } else {
            Transaction {
                reads: self.reads.with(variable),
                ..self
            }
        }
    }

    pub fn with_write(self, variable: u8) -> Transaction<N>
        ensures reads { result.reads ≡ self.reads }
        ensures writes { Holds result.writes (plus (member self.writes) variable) }
        ensures note { result.note ≡ self.note }
    {
        Transaction {
            writes: self.writes.with(variable),
            ..self
        }
    }
}
