// What a policy is: six facts for each task, and what each call may do to them.
#![tactic(auto)]

ghost use Rattle.std.specs.Prelude.{◌≡◌, ℕ, Bool, true, false};
ghost use Rattle.policy.specs.Facts.{Facts, Proper, Fresh};
ghost use Rattle.policy.specs.Moves.{Move, Keeps};
ghost use Rattle.policy.specs.Moves.{begin as begins, read as reading, write as writing, commit as commits, abort as aborts};
ghost use Rattle.policy.specs.Moves.{read_refused, write_refused, commit_refused};
ghost use Rattle.policy.specs.Answers.{Moved, begin_answer, read_answer, write_answer, commit_answer, abort_answer, behind_answer, wrote_answer};

// How many tasks there are.
pub const TASKS: usize = 8;

// How many variables there are.
pub const VARIABLES: usize = 64;

// Why a policy turned a call down.
#[derive(Clone, Copy, Debug, PartialEq, Eq)]
pub enum PolicyFault {
    // no such task or variable, a begin of an open task, or another call of one that isn't open
    Unfit,
    ReadBarred(u8),
    WriteBarred(u8),
    CommitRefused,
}

// What a granted access tells.
#[derive(Clone, Copy, Debug, PartialEq, Eq)]
pub struct Granted;

// Tasks and variables are plain numbers in its calls, by rule: what a task sends may be any.
pub trait Policy {
    ghost active: { Self → ℕ → Bool };

    ghost reads: { Self → ℕ → ℕ → Bool };

    ghost writes: { Self → ℕ → ℕ → Bool };

    ghost behind: { Self → ℕ → Bool };

    ghost no_read: { Self → ℕ → ℕ → Bool };

    ghost no_write: { Self → ℕ → ℕ → Bool };

    ghost facts: { Self → Facts };

    // whether a task that is behind may not even commit what it only read
    ghost STRICT: { Bool };

    ghost after: { Self → Move → Self → Type 0 };

    const STRICT: bool;

    fn is_strict() -> bool
        ensures { result ≡ STRICT }
    {
        Self::STRICT
    }

    fn begin(&mut self, task: u8) -> Result<Granted, PolicyFault>
        ensures answer { result ≡ begin_answer (facts self.old) task }
        ensures moved { Moved after (begins task) (begins task) self.old self.new result };

    fn read(&mut self, task: u8, variable: u8) -> Result<Granted, PolicyFault>
        ensures answer { result ≡ read_answer (facts self.old) task variable }
        ensures moved { Moved after (reading task variable) (read_refused task variable) self.old self.new result };

    fn write(&mut self, task: u8, variable: u8) -> Result<Granted, PolicyFault>
        ensures answer { result ≡ write_answer (facts self.old) task variable }
        ensures moved { Moved after (writing task variable) (write_refused task variable) self.old self.new result };

    fn commit(&mut self, task: u8) -> Result<Granted, PolicyFault>
        ensures answer { result ≡ commit_answer STRICT (facts self.old) task }
        ensures moved { Moved after (commits task) (commit_refused task) self.old self.new result };

    fn abort(&mut self, task: u8) -> Result<Granted, PolicyFault>
        ensures answer { result ≡ abort_answer (facts self.old) task }
        ensures moved { Moved after (aborts task) (aborts task) self.old self.new result };

    fn is_behind(&self, task: u8) -> Result<bool, PolicyFault>
        ensures { result ≡ behind_answer (facts self.now) task };

    fn has_written(&self, task: u8, variable: u8) -> Result<bool, PolicyFault>
        ensures { result ≡ wrote_answer (facts self.now) task variable };

    ghost tied: { (p : Self) → facts p ≡ record { active = active p; reads = reads p; writes = writes p; behind = behind p; no_read = no_read p; no_write = no_write p } };

    ghost proper: { (p : Self) → Proper (facts p) };

    ghost keeps: { (p q : Self) (m : Move) → after p m q → Keeps STRICT m (facts p) (facts q) };
}
