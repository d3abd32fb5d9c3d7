// The open transaction of each task, with its read set and its write set.
#![tactic(auto)]

ghost use Rattle.std.specs.Prelude.{◌≡◌, ⊤, ok_or, is_ok, IfOk, nat_lt, if◌then◌else◌};
ghost use Rattle.policy.specs.Limits.{variables};
ghost use Rattle.policy.specs.declared.PolicyFault.{PolicyFault};
ghost use Rattle.varset.specs.Members.{Holds};
ghost use Rattle.transactions.specs.Sets.{fit_task, fit_begin, fit_access, no_transactions, begun, ended, has_read, has_written, conflict as conflict_of};
ghost use Rattle.transactions.specs.Rows.{sets, notes, noted, IsOf, row as row_of, Puts};

mod transaction;

use policy::{PolicyFault, TASKS};
use std::alloc::AllocError;
pub use transaction::Transaction;
use varset::{VarSet, is_variable};

// The row of each task: its transaction, if it has one.
// Clone and Copy are written out: derived, they would owe that a row of any N has a bounded size.
// No impl Model: the rows are seen by functions of the task, and a function has no code.
#[derive(Drop)]
pub struct Transactions<N> {
    pub rows: [Option<Transaction<N>>; TASKS],
}

impl<N: Copy> Clone for Transactions<N> {
    ghost is_clone = { λ x y. y ≡ x };

    ghost is_infallible = { λ _. ⊤ };

    fn clone(&self) -> Result<Transactions<N>, AllocError> {
        Ok(*self)
    }
}

impl<N: Copy> Copy for Transactions<N> {}

impl<N: Copy> Transactions<N> {
    pub fn new() -> Transactions<N>
        ensures sets { sets result ≡ no_transactions }
        ensures notes { notes result ≡ λ u. None }
    {
        Transactions {
            rows: [None; TASKS],
        }
    }

    // The row of a task, if there is such a task.
    #[tactic(auto, using(std::proofs::lemmas::Bool::Decides::nat_tests), unfolding(crate::specs::Rows::row))]
    pub fn row(&self, task: u8) -> Option<Transaction<N>>
        ensures { result ≡ row_of self.now.rows task }
    {
        self.rows.get(usize::from(task)).copied().flatten()
    }

    // Changes the row of a task, if there is such a task.
    #[tactic(auto, using(crate::proofs::Puts::put_row))]
    pub fn put(&mut self, task: u8, row: Option<Transaction<N>>)
        ensures { Puts task row self.old.rows self.new.rows }
    {
        // written by its index: of a slice's `get_mut` a proof knows no element
        let place = usize::from(task);
        if place < TASKS {
            self.rows[place] = row;
        }
    }

    // Gives a task a new transaction.
    pub fn begin(&mut self, task: u8, note: N)
        ensures sets { sets self.new ≡ begun task (sets self.old) }
        ensures notes { notes self.new ≡ noted task (Some note) (notes self.old) }
    {
        self.put(task, Some(Transaction::begin(note)));
    }

    // Ends the transaction of a task.
    pub fn end(&mut self, task: u8)
        ensures sets { sets self.new ≡ ended task (sets self.old) }
        ensures notes { notes self.new ≡ noted task None (notes self.old) }
    {
        self.put(task, None);
    }

    // Notes a granted read: of what the task has written itself, nothing is noted.
    pub fn read(&mut self, task: u8, variable: u8)
        ensures sets { sets self.new ≡ has_read task variable (sets self.old) }
        ensures notes { notes self.new ≡ notes self.old }
    {
        if let Some(transaction) = self.row(task) {
            self.put(task, Some(transaction.with_read(variable)));
        }
    }

    // Notes a granted write.
    pub fn write(&mut self, task: u8, variable: u8)
        ensures sets { sets self.new ≡ has_written task variable (sets self.old) }
        ensures notes { notes self.new ≡ notes self.old }
    {
        if let Some(transaction) = self.row(task) {
            self.put(task, Some(transaction.with_write(variable)));
        }
    }

    // The transaction of a task, if a call of it is fit: there is such a task, and it is open.
    pub fn open(&self, task: u8) -> Result<Transaction<N>, PolicyFault>
        ensures fit { is_ok result ≡ fit_task (sets self.now) task }
        ensures row { result ≡ ok_or (row_of self.now.rows task) PolicyFault.Unfit }
        ensures tells { IfOk result (IsOf self.now task) }
    {
        self.row(task).ok_or(PolicyFault::Unfit)
    }

    // The transaction of a task, if its access of a variable is fit: there is such a variable too.
    pub fn accessed(&self, task: u8, variable: u8) -> Result<Transaction<N>, PolicyFault>
        ensures fit { is_ok result ≡ fit_access (sets self.now) task variable }
        ensures row { result ≡ if nat_lt variable variables then ok_or (row_of self.now.rows task) PolicyFault.Unfit else Err PolicyFault.Unfit }
        ensures tells { IfOk result (IsOf self.now task) }
    {
        if is_variable(variable) {
            self.open(task)
        } else {
            Err(PolicyFault::Unfit)
        }
    }

    // Whether a begin is fit: there is such a task, and it isn't open.
    pub fn idle(&self, task: u8) -> Result<(), PolicyFault>
        ensures { result ≡ if fit_begin (sets self.now) task then Ok tt else Err PolicyFault.Unfit }
    {
        if usize::from(task) < TASKS && self.open(task).is_err() {
            Ok(())
        } else {
            Err(PolicyFault::Unfit)
        }
    }

    // The read set of a task, empty where it has no transaction.
    #[tactic(auto, unfolding(crate::specs::Rows::sets))]
    pub fn read_set(&self, task: u8) -> VarSet
        ensures { Holds result ((sets self.now).reads task) }
    {
        self.row(task)
            .map_or(VarSet::empty(), |transaction| transaction.reads)
    }

    // The write set of a task, empty where it has no transaction.
    #[tactic(auto, unfolding(crate::specs::Rows::sets))]
    pub fn write_set(&self, task: u8) -> VarSet
        ensures { Holds result ((sets self.now).writes task) }
    {
        self.row(task)
            .map_or(VarSet::empty(), |transaction| transaction.writes)
    }

    // Whether a variable is in the read set of a task.
    pub fn has_read(&self, task: u8, variable: u8) -> bool
        ensures { result ≡ (sets self.now).reads task variable }
    {
        self.read_set(task).has(variable)
    }

    // Whether a variable is in the write set of a task.
    pub fn has_written(&self, task: u8, variable: u8) -> bool
        ensures { result ≡ (sets self.now).writes task variable }
    {
        self.write_set(task).has(variable)
    }

    // Whether one task has read something that another has written.
    pub fn conflict(&self, reader: u8, writer: u8) -> bool
        ensures { result ≡ conflict_of (sets self.now) reader writer }
    {
        self.read_set(reader).meets(self.write_set(writer))
    }
}
