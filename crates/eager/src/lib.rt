// The eager layer: over any policy, a task that is behind may neither read nor write any more.
#![tactic(auto)]

ghost use Rattle.std.specs.Prelude.{◌≡◌, true, ◌&&◌};
ghost use Rattle.policy.specs.Facts.{Fresh};
ghost use Rattle.policy.specs.Moves.{abort as aborts};
ghost use Rattle.policy.specs.Answers.{fit_task};
ghost use Rattle.eager.specs.Layer.{fenced, After, below_move};
ghost use Rattle.eager.specs.Keeps;
ghost use Rattle.std.proofs.Common.{rules};

use policy::{Granted, Policy, PolicyFault};

#[derive(Drop)]
pub struct Eager<P> {
    below: P,
}

impl<P: Policy> Eager<P> {
    pub fn new(below: P) -> Eager<P>
        ensures holds { result.below ≡ below }
        ensures fresh { Fresh (P.Policy.facts below) → Fresh (fenced (P.Policy.facts result.below)) }
    {
        Eager { below }
    }

    // Ends the transaction of an open task below.
    fn abort_below(&mut self, task: u8)
        ensures { fit_task (P.Policy.facts self.old.below) task ≡ true → P.Policy.after self.old.below (aborts task) self.new.below }
    {
        let _ = self.abort(task);
    }
}

impl<P: Policy> Policy for Eager<P> {
    ghost active = { λ p. P.Policy.active p.below };

    ghost reads = { λ p. P.Policy.reads p.below };

    ghost writes = { λ p. P.Policy.writes p.below };

    ghost behind = { λ p. P.Policy.behind p.below };

    ghost no_read = { λ p. (fenced (P.Policy.facts p.below)).no_read };

    ghost no_write = { λ p. (fenced (P.Policy.facts p.below)).no_write };

    ghost facts = { λ p. fenced (P.Policy.facts p.below) };

    ghost STRICT = { P.Policy.STRICT };

    ghost after = { λ p m q. After P.Policy.facts P.Policy.STRICT P.Policy.after p.below m q.below };

    const STRICT: bool = P::STRICT;

    ghost tied = { Prim.search rules };

    ghost proper = { λ p. Keeps.proper (P.Policy.facts p.below) (P.Policy.proper p.below) };

    ghost keeps = { λ p q m a.
        Keeps.keeps P.Policy.STRICT m (P.Policy.facts p.below) (P.Policy.facts q.below) (P.Policy.proper p.below) a.call
        (P.Policy.keeps p.below q.below (below_move (P.Policy.facts p.below) m) a.below) };

    fn begin(&mut self, task: u8) -> Result<Granted, PolicyFault> {
        self.below.begin(task)
    }

    // What the task has written itself it may still read.
    fn read(&mut self, task: u8, variable: u8) -> Result<Granted, PolicyFault> {
        if self.is_behind(task)? && !self.has_written(task, variable)? {
            self.abort_below(task);
            return Err(PolicyFault::ReadBarred(variable));
        }
        self.below.read(task, variable)
    }

    fn write(&mut self, task: u8, variable: u8) -> Result<Granted, PolicyFault> {
        self.has_written(task, variable)?;
        if self.is_behind(task)? {
            self.abort_below(task);
            return Err(PolicyFault::WriteBarred(variable));
        }
        self.below.write(task, variable)
    }

    fn commit(&mut self, task: u8) -> Result<Granted, PolicyFault> {
        self.below.commit(task)
    }

    fn abort(&mut self, task: u8) -> Result<Granted, PolicyFault> {
        self.below.abort(task)
    }

    fn is_behind(&self, task: u8) -> Result<bool, PolicyFault> {
        self.below.is_behind(task)
    }

    fn has_written(&self, task: u8, variable: u8) -> Result<bool, PolicyFault> {
        self.below.has_written(task, variable)
    }
}
