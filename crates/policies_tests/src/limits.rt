// Calls at the last task and the last variable, and just past them.
use crate::answers::{Answer, GRANTED, UNFIT};
use clock::Clock;
use eager::Eager;
use lock::Lock;
use own::Own;
use policy::{Policy, PolicyFault};
use std::process::Abort;

// Task 7 is there and task 8 isn't; a task that isn't open can only begin.
fn last_task<P: Policy>(policy: &mut P) -> bool {
    let answers: [Answer; 9] = [
        policy.begin(8),
        policy.read(7, 0),
        policy.commit(7),
        policy.abort(7),
        policy.begin(7),
        policy.begin(7),
        policy.abort(8),
        policy.commit(7),
        policy.commit(7),
    ];
    answers
        == [
            UNFIT, UNFIT, UNFIT, UNFIT, GRANTED, UNFIT, UNFIT, GRANTED, UNFIT,
        ]
}

// Variable 63 is there and variable 64 isn't; an unfit access leaves the task open.
fn last_variable<P: Policy>(policy: &mut P) -> bool {
    let answers: [Answer; 7] = [
        policy.begin(7),
        policy.read(7, 63),
        policy.read(7, 64),
        policy.write(7, 64),
        policy.write(7, 63),
        policy.write(8, 63),
        policy.abort(7),
    ];
    answers == [GRANTED, GRANTED, UNFIT, UNFIT, GRANTED, UNFIT, GRANTED]
}

// The two questions are calls too.
fn questions<P: Policy>(policy: &mut P) -> bool {
    let idle = policy.is_behind(7);
    let _ = policy.begin(7);
    let open = policy.is_behind(7);
    let unwritten = policy.has_written(7, 63);
    let _ = policy.write(7, 63);
    let written = policy.has_written(7, 63);
    idle == Err(PolicyFault::Unfit)
        && open == Ok(false)
        && unwritten == Ok(false)
        && written == Ok(true)
}

// The same past the last task and the last variable.
fn unfit_questions<P: Policy>(policy: &mut P) -> bool {
    let _ = policy.begin(7);
    policy.is_behind(8).is_err()
        && policy.has_written(7, 64).is_err()
        && policy.has_written(8, 63).is_err()
}

fn at_the_limits<P: Policy>(rt: &impl Abort, policy: &mut P) {
    assert!(rt; last_task(policy), "tasks");
    assert!(rt; last_variable(policy), "variables");
    assert!(rt; questions(policy), "questions");
    assert!(rt; unfit_questions(policy), "unfit questions");
}

#[test]
fn lock_at_the_limits(rt: HostRuntime) {
    at_the_limits(&rt, &mut Lock::new());
}

#[test]
fn own_at_the_limits(rt: HostRuntime) {
    at_the_limits(&rt, &mut Own::new());
}

#[test]
fn clock_at_the_limits(rt: HostRuntime) {
    at_the_limits(&rt, &mut Clock::new(u32::MAX));
}

#[test]
fn eager_own_at_the_limits(rt: HostRuntime) {
    at_the_limits(&rt, &mut Eager::new(Own::new()));
}

#[test]
fn two_layers_at_the_limits(rt: HostRuntime) {
    at_the_limits(&rt, &mut Eager::new(Eager::new(Own::new())));
}
