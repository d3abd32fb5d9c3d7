// A test policy: any policy, with its granted reads counted.
ghost use Rattle.std.specs.Prelude.{◌≡◌};
ghost use Rattle.std.proofs.Common.{rules};

use policy::{Granted, Policy, PolicyFault};

#[derive(Drop)]
pub struct Counting<P> {
    below: P,
    reads: usize,
}

impl<P: Policy> Counting<P> {
    pub fn new(below: P) -> Counting<P>
        ensures below { result.below ≡ below }
        ensures none { result.reads ≡ 0 }
    {
        Counting { below, reads: 0 }
    }

    // How many reads were granted.
    pub fn reads(&self) -> usize
        ensures { result ≡ self.now.reads }
    {
        self.reads
    }
}

impl<P: Policy> Policy for Counting<P> {
    ghost active = { λ p. P.Policy.active p.below };

    ghost reads = { λ p. P.Policy.reads p.below };

    ghost writes = { λ p. P.Policy.writes p.below };

    ghost behind = { λ p. P.Policy.behind p.below };

    ghost no_read = { λ p. P.Policy.no_read p.below };

    ghost no_write = { λ p. P.Policy.no_write p.below };

    ghost facts = { λ p. P.Policy.facts p.below };

    ghost STRICT = { P.Policy.STRICT };

    ghost after = { λ p m q. P.Policy.after p.below m q.below };

    const STRICT: bool = P::STRICT;

    ghost tied = { Prim.search rules };

    ghost proper = { λ p. P.Policy.proper p.below };

    ghost keeps = { Prim.search rules };

    fn begin(&mut self, task: u8) -> Result<Granted, PolicyFault> {
        self.below.begin(task)
    }

    fn read(&mut self, task: u8, variable: u8) -> Result<Granted, PolicyFault> {
        let granted = self.below.read(task, variable)?;
        let Counting { reads, .. } = self;
        *reads = reads.wrapping_add(1);
        Ok(granted)
    }

    fn write(&mut self, task: u8, variable: u8) -> Result<Granted, PolicyFault> {
        self.below.write(task, variable)
    }

    fn commit(&mut self, task: u8) -> Result<Granted, PolicyFault> {
        self.below.commit(task)
    }

    fn abort(&mut self, task: u8) -> Result<Granted, PolicyFault> {
        self.below.abort(task)
    }

    fn is_behind(&self, task: u8) -> Result<bool, PolicyFault> {
        self.below.is_behind(task)
    }

    fn has_written(&self, task: u8, variable: u8) -> Result<bool, PolicyFault> {
        self.below.has_written(task, variable)
    }
}
