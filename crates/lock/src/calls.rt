// What the policy answers, and what each call makes of the locks.
ghost use Rattle.std.specs.Prelude.{◌≡◌, true, false};
ghost use Rattle.std.proofs.Common.{sym, subst, rules, arith};
ghost use Rattle.policy.specs.Facts.{Fresh};
ghost use Rattle.transactions.specs.Sets.{no_transactions, ended};
ghost use Rattle.lock.specs.Locks.{locked, locked_by_other, barred, facts_of};
ghost use Rattle.lock.specs.After.{held, facts as lock_facts, After};
ghost use Rattle.transactions.proofs.Sound.{sound};
ghost use Rattle.lock.specs.Bars;
ghost use Rattle.policy.specs.Moves.{Keeps};
ghost use Rattle.lock.specs.Keeps as KeepsProof;

use crate::Lock;
use policy::{Granted, Policy, PolicyFault, TASKS};
use transactions::Transactions;

impl Lock {
    pub fn new() -> Lock
        ensures fresh { Fresh (lock_facts result) }
        ensures holds { held result ≡ no_transactions }
    {
        let transactions = Transactions::new();
        Lock { transactions }
    }

    // Whether a task has the variable locked.
    fn locks(&self, task: u8, variable: u8) -> bool
        ensures { result ≡ locked (held self.now) task variable }
    {
        self.transactions.has_read(task, variable) || self.transactions.has_written(task, variable)
    }

    // Whether another task has the variable locked.
    fn is_locked_by_other(&self, task: u8, variable: u8) -> bool
        ensures { result ≡ locked_by_other (held self.now) task variable }
    {
        (0..TASKS as u8).any(|other| other != task && self.locks(other, variable))
    }

    // Ends the task's transaction, and with it its locks.
    fn release(&mut self, task: u8)
        ensures { held self.new ≡ ended task (held self.old) }
    {
        let mut next = self.transactions;
        next.end(task);
        *self = Lock { transactions: next };
    }
}

impl Policy for Lock {
    ghost active = { λ p. (held p).active };

    ghost reads = { λ p. (held p).reads };

    ghost writes = { λ p. (held p).writes };

    ghost behind = { λ p t. false };

    ghost no_read = { λ p. barred (held p) };

    ghost no_write = { λ p. barred (held p) };

    ghost facts = { lock_facts };

    ghost STRICT = { true };

    ghost after = { After };

    const STRICT: bool = true;

    ghost tied = { first_of (Prim.search rules, Prim.grind (arith, Self.row.coded.inj)) };

    ghost proper = { λ p. Bars.proper (held p) (sound p.transactions) };

    ghost keeps = { λ p q m a. subst (λ s. Keeps true m (facts_of (held p)) (facts_of s)) (sym a.sets) (KeepsProof.keeps (held p) (sound p.transactions) p.apart m a.call) };

    fn begin(&mut self, task: u8) -> Result<Granted, PolicyFault> {
        self.transactions.idle(task)?;
        let mut next = self.transactions;
        next.begin(task, ());
        *self = Lock { transactions: next };
        Ok(Granted)
    }

    // It differs from a write in what it notes and in its fault: one function that is given both would be no shorter.
    fn read(&mut self, task: u8, variable: u8) -> Result<Granted, PolicyFault> {
        self.transactions.accessed(task, variable)?;
        if self.is_locked_by_other(task, variable) {
            self.release(task);
            return Err(PolicyFault::ReadBarred(variable));
        }
        let mut next = self.transactions;
        next.read(task, variable);
        *self = Lock { transactions: next };
        Ok(Granted)
    }

    fn write(&mut self, task: u8, variable: u8) -> Result<Granted, PolicyFault> {
        self.transactions.accessed(task, variable)?;
        if self.is_locked_by_other(task, variable) {
            self.release(task);
            return Err(PolicyFault::WriteBarred(variable));
        }
        let mut next = self.transactions;
        next.write(task, variable);
        *self = Lock { transactions: next };
        Ok(Granted)
    }

    // Nobody is ever behind, so a commit is granted, and ends the transaction as an abort does.
    fn commit(&mut self, task: u8) -> Result<Granted, PolicyFault> {
        self.abort(task)
    }

    fn abort(&mut self, task: u8) -> Result<Granted, PolicyFault> {
        self.transactions.open(task)?;
        self.release(task);
        Ok(Granted)
    }

    fn is_behind(&self, task: u8) -> Result<bool, PolicyFault> {
        self.transactions.open(task).map(|_| false)
    }

    fn has_written(&self, task: u8, variable: u8) -> Result<bool, PolicyFault> {
        let transaction = self.transactions.accessed(task, variable)?;
        Ok(transaction.writes.has(variable))
    }
}
