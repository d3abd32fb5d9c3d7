// DSTM with invisible reads: a task owns what it has written, and the readers of what a commit wrote fall behind.
#![tactic(auto)]

ghost use Rattle.std.specs.Prelude.{◌≡◌, true};
ghost use Rattle.std.proofs.Common.{sym, subst, rules};
ghost use Rattle.policy.specs.Facts.{Fresh, may_commit};
ghost use Rattle.policy.specs.Moves.{abort as aborts, commit as commits, Keeps};
ghost use Rattle.own.specs.Ownership.{idle, owned_by_other, Overtaken, next, facts_of};
ghost use Rattle.varset.specs.Members.{member};
ghost use Rattle.own.specs.After.{state, facts as own_facts, After};
ghost use Rattle.transactions.proofs.Sound.{sound};
ghost use Rattle.own.specs.Bars;
ghost use Rattle.own.specs.Keeps as KeepsProof;

use policy::{Granted, Policy, PolicyFault, TASKS};
use transactions::Transactions;
use varset::VarSet;

// How a transaction stands to what was committed since it began.
#[derive(Clone, Copy, PartialEq, Eq)]
enum Standing {
    InTime,
    // something that it has read was written since
    Behind,
}

// No impl Model: what it holds is seen by functions, and a function has no code.
#[derive(Drop)]
pub struct Own {
    transactions: Transactions<Standing>,
}

impl Own {
    pub fn new() -> Own
        ensures fresh { Fresh (own_facts result) }
        ensures holds { state result ≡ idle }
    {
        let transactions = Transactions::new();
        Own { transactions }
    }

    // Whether another task owns the variable.
    fn is_owned_by_other(&self, task: u8, variable: u8) -> bool
        ensures { result ≡ owned_by_other (state self.now).sets task variable }
    {
        (0..TASKS as u8).any(|other| other != task
            && self.transactions.has_written(other, variable))
    }

    // Who has read what was written falls behind.
    fn overtake(&mut self, written: VarSet)
        ensures { Overtaken (member written) self.old.transactions.rows self.new.transactions.rows }
    {
        // not flattened: of what an adapter of iter_mut wrote a proof knows nothing afterwards
        for row in self.transactions.rows.iter_mut() {
            if let Some(transaction) = row {
                if transaction.reads.meets(written) {
                    transaction.note = Standing::Behind;
                }
            }
        }
    }

    // Ends the task's transaction with nothing shared.
    fn end(&mut self, task: u8)
        ensures { state self.new ≡ next (aborts task) (state self.old) }
    {
        self.transactions.end(task);
    }
}

impl Policy for Own {
    ghost active = { λ p. (own_facts p).active };

    ghost reads = { λ p. (own_facts p).reads };

    ghost writes = { λ p. (own_facts p).writes };

    ghost behind = { λ p. (own_facts p).behind };

    ghost no_read = { λ p. (own_facts p).no_read };

    ghost no_write = { λ p. (own_facts p).no_write };

    ghost facts = { own_facts };

    ghost STRICT = { true };

    ghost after = { After };

    const STRICT: bool = true;

    ghost tied = { Prim.search rules };

    ghost proper = { λ p. Bars.proper (state p) (sound p.transactions) };

    ghost keeps = { λ p q m a. subst (λ x. Keeps true m (facts_of (state p)) (facts_of x)) (sym a.holds) (KeepsProof.keeps (state p) (sound p.transactions) m a.call) };

    fn begin(&mut self, task: u8) -> Result<Granted, PolicyFault> {
        self.transactions.idle(task)?;
        self.transactions.begin(task, Standing::InTime);
        Ok(Granted)
    }

    // A task that is behind may still read what it has written itself.
    fn read(&mut self, task: u8, variable: u8) -> Result<Granted, PolicyFault> {
        let transaction = self.transactions.accessed(task, variable)?;
        if transaction.note == Standing::Behind && !transaction.writes.has(variable) {
            self.end(task);
            return Err(PolicyFault::ReadBarred(variable));
        }
        self.transactions.read(task, variable);
        Ok(Granted)
    }

    fn write(&mut self, task: u8, variable: u8) -> Result<Granted, PolicyFault> {
        self.transactions.accessed(task, variable)?;
        if self.is_owned_by_other(task, variable) {
            self.end(task);
            return Err(PolicyFault::WriteBarred(variable));
        }
        self.transactions.write(task, variable);
        Ok(Granted)
    }

    fn commit(&mut self, task: u8) -> Result<Granted, PolicyFault> {
        let transaction = self.transactions.open(task)?;
        let behind = transaction.note == Standing::Behind;
        if behind && (Self::STRICT || !transaction.writes.is_empty()) {
            self.end(task);
            return Err(PolicyFault::CommitRefused);
        }
        self.overtake(transaction.writes);
        self.end(task);
        Ok(Granted)
    }

    fn abort(&mut self, task: u8) -> Result<Granted, PolicyFault> {
        self.transactions.open(task)?;
        self.end(task);
        Ok(Granted)
    }

    fn is_behind(&self, task: u8) -> Result<bool, PolicyFault> {
        let transaction = self.transactions.open(task)?;
        Ok(transaction.note == Standing::Behind)
    }

    fn has_written(&self, task: u8, variable: u8) -> Result<bool, PolicyFault> {
        let transaction = self.transactions.accessed(task, variable)?;
        Ok(transaction.writes.has(variable))
    }
}
