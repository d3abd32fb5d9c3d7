// The policy asked for a read.
ghost use Rattle.std.specs.Prelude.{◌≡◌};
ghost use Rattle.policy.specs.Moves.{read as reading, read_refused};
ghost use Rattle.policy.specs.Answers.{Moved, read_answer};

use policy::{Granted, Policy, PolicyFault};

// What the policy answers, and where that leaves it.
pub(crate) fn ask_read<P: Policy>(
    policy: &mut P,
    task: u8,
    variable: u8,
) -> Result<Granted, PolicyFault>
    ensures answer { result ≡ read_answer (P.Policy.facts policy.old) task variable }
    ensures moved { Moved P.Policy.after (reading task variable) (read_refused task variable) policy.old policy.new result }
{
    policy.read(task, variable)
}
