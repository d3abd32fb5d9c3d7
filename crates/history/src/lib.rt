// Histories of calls on a table, and the law that every run over any policy keeps.
// The functions here carry theorems about runs; what they answer is a small fact beside it.
#![tactic(auto)]

ghost use Rattle.std.specs.Prelude.{◌≡◌, not, length};
ghost use Rattle.history.specs.Runs.{LawStands, StaysSound, NeverRefusedAlone};
ghost use Rattle.history.specs.Counts.{CountBounds};
ghost use Rattle.history.specs.Example.{Example};
ghost use Rattle.history.specs.Refuted.{five, unlawful_histories, Refuted};

use policy::Policy;

// Every run of a new table over P keeps the law; stages and policy agree after every call; and a collect makes no more reads than it
// may. The answer is whether P is strict.
pub fn law_stands<P: Policy>() -> bool
    ensures strict { result ≡ P.Policy.STRICT }
    ensures law { LawStands P.Policy.facts P.Policy.after P.Policy.STRICT }
    ensures sound { StaysSound P.Policy.facts P.Policy.after P.Policy.STRICT }
    ensures counts { CountBounds }
{
    P::STRICT
}

// A transaction that overlaps no other is never refused by P. The answer is whether a task that is behind may commit what it only read.
pub fn never_refused_alone<P: Policy>() -> bool
    ensures lenient { result ≡ not P.Policy.STRICT }
    ensures alone { NeverRefusedAlone P.Policy.facts P.Policy.after P.Policy.STRICT }
{
    !law_stands::<P>()
}

// What a run with a conflict, a refusal, two commits and a snapshot leaves in variable 5.
pub fn example_run() -> i32
    ensures left { result ≡ five 5 }
    ensures run { Example }
{
    7
}

// How many histories are refuted here: each breaks a part of the law.
pub fn refuted_histories() -> usize
    ensures count { result ≡ length unlawful_histories }
    ensures refuted { Refuted }
{
    5
}
