// TL2 as a policy.
ghost use Rattle.std.specs.Prelude.{false};
ghost use Rattle.clock.specs.Held.{meaning, Held};
ghost use Rattle.clock.specs.After.{After};
ghost use Rattle.clock.specs.Clocks.{held};
ghost use Rattle.clock.specs.Keeping;
ghost use Rattle.clock.specs.Policies.{sound};
ghost use Rattle.std.proofs.Common.{sym, subst, rules, arith};
ghost use Rattle.policy.specs.Moves.{Keeps};

use crate::state::Clock;
use policy::{Granted, Policy, PolicyFault};

impl Policy for Clock {
    ghost active = { λ p. (meaning (held p)).active };

    ghost reads = { λ p. (meaning (held p)).reads };

    ghost writes = { λ p. (meaning (held p)).writes };

    ghost behind = { λ p. (meaning (held p)).behind };

    ghost no_read = { λ p. (meaning (held p)).no_read };

    ghost no_write = { λ p. (meaning (held p)).no_write };

    ghost facts = { λ p. meaning (held p) };

    ghost STRICT = { false };

    ghost after = { After };

    const STRICT: bool = false;

    ghost tied = { first_of (Prim.search rules, Prim.grind (arith, Self.row.coded.inj)) };

    ghost proper = { λ p. Keeping.proper (held p) (sound p) };

    ghost keeps = { λ p q m a. subst (λ (r : Held). Keeps false m (meaning (held p)) (meaning r)) (sym a.step) (Keeping.keeps m (held p) (sound p) a.call) };

    #[tactic(auto, using(crate::specs::Told::rows_active))]
    fn begin(&mut self, task: u8) -> Result<Granted, PolicyFault> {
        self.transactions.idle(task)?;
        self.transactions.begin(task, self.clock);
        Ok(Granted)
    }

    fn read(&mut self, task: u8, variable: u8) -> Result<Granted, PolicyFault> {
        let transaction = self.transactions.accessed(task, variable)?;
        if !transaction.writes.has(variable)
            && self.versions[usize::from(variable)] > transaction.note
        {
            self.transactions.end(task);
            return Err(PolicyFault::ReadBarred(variable));
        }
        self.transactions
            .put(task, Some(transaction.with_read(variable)));
        Ok(Granted)
    }

    fn write(&mut self, task: u8, variable: u8) -> Result<Granted, PolicyFault> {
        self.transactions.accessed(task, variable)?;
        self.transactions.write(task, variable);
        Ok(Granted)
    }

    fn commit(&mut self, task: u8) -> Result<Granted, PolicyFault> {
        let transaction = self.transactions.open(task)?;
        if (Self::STRICT || !transaction.writes.is_empty()) && self.is_stale(transaction) {
            self.transactions.end(task);
            return Err(PolicyFault::CommitRefused);
        }
        self.publish(transaction.writes);
        self.transactions.end(task);
        Ok(Granted)
    }

    fn abort(&mut self, task: u8) -> Result<Granted, PolicyFault> {
        self.transactions.open(task)?;
        self.transactions.end(task);
        Ok(Granted)
    }

    fn is_behind(&self, task: u8) -> Result<bool, PolicyFault> {
        let transaction = self.transactions.open(task)?;
        Ok(self.is_stale(transaction))
    }

    fn has_written(&self, task: u8, variable: u8) -> Result<bool, PolicyFault> {
        let transaction = self.transactions.accessed(task, variable)?;
        Ok(transaction.writes.has(variable))
    }
}
