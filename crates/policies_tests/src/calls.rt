// The same calls to every policy, with what each answers.
use crate::answers::{Answer, GRANTED, UNFIT};
use clock::Clock;
use eager::Eager;
use lock::Lock;
use own::Own;
use policy::{Policy, PolicyFault};

// Task 1 writes what task 0 has read, and commits if it may; then task 0 goes on.
fn overtaken_reader<P: Policy>(policy: &mut P) -> [Answer; 8] {
    [
        policy.begin(0),
        policy.read(0, 5),
        policy.begin(1),
        policy.write(1, 5),
        policy.commit(1),
        policy.read(0, 6),
        policy.write(0, 6),
        policy.commit(0),
    ]
}

// As before, but task 0 writes first, and goes on with what it has written.
fn overtaken_writer<P: Policy>(policy: &mut P) -> [Answer; 9] {
    [
        policy.begin(0),
        policy.read(0, 5),
        policy.write(0, 7),
        policy.begin(1),
        policy.write(1, 5),
        policy.commit(1),
        policy.read(0, 7),
        policy.write(0, 7),
        policy.commit(0),
    ]
}

#[test]
fn lock_bars_the_writer(rt: HostRuntime) {
    let barred = Err(PolicyFault::WriteBarred(5));
    let answers = overtaken_reader(&mut Lock::new());
    assert_eq!(rt;
        answers,
        [
            GRANTED, GRANTED, GRANTED, barred, UNFIT, GRANTED, GRANTED, GRANTED
        ]
    );
}

#[test]
fn own_bars_the_overtaken_reader(rt: HostRuntime) {
    let barred = Err(PolicyFault::ReadBarred(6));
    let answers = overtaken_reader(&mut Own::new());
    assert_eq!(rt;
        answers,
        [
            GRANTED, GRANTED, GRANTED, GRANTED, GRANTED, barred, UNFIT, UNFIT
        ]
    );
}

#[test]
fn own_refuses_the_overtaken_commit(rt: HostRuntime) {
    let refused = Err(PolicyFault::CommitRefused);
    let answers = overtaken_writer(&mut Own::new());
    assert_eq!(rt;
        answers,
        [
            GRANTED, GRANTED, GRANTED, GRANTED, GRANTED, GRANTED, GRANTED, GRANTED, refused
        ]
    );
}

// A task that is behind may still read what wasn't written since.
#[test]
fn clock_refuses_the_overtaken_commit(rt: HostRuntime) {
    let refused = Err(PolicyFault::CommitRefused);
    let answers = overtaken_reader(&mut Clock::new(0));
    assert_eq!(rt;
        answers,
        [
            GRANTED, GRANTED, GRANTED, GRANTED, GRANTED, GRANTED, GRANTED, refused
        ]
    );
}

#[test]
fn eager_clock_bars_the_overtaken_reader(rt: HostRuntime) {
    let barred = Err(PolicyFault::ReadBarred(6));
    let answers = overtaken_reader(&mut Eager::new(Clock::new(0)));
    assert_eq!(rt;
        answers,
        [
            GRANTED, GRANTED, GRANTED, GRANTED, GRANTED, barred, UNFIT, UNFIT
        ]
    );
}

#[test]
fn eager_bars_the_overtaken_writer(rt: HostRuntime) {
    let barred = Err(PolicyFault::WriteBarred(7));
    let answers = overtaken_writer(&mut Eager::new(Own::new()));
    assert_eq!(rt;
        answers,
        [
            GRANTED, GRANTED, GRANTED, GRANTED, GRANTED, GRANTED, GRANTED, barred, UNFIT
        ]
    );
}

// A second layer changes nothing.
#[test]
fn two_layers_answer_as_one(rt: HostRuntime) {
    let one = overtaken_writer(&mut Eager::new(Own::new()));
    let two = overtaken_writer(&mut Eager::new(Eager::new(Own::new())));
    assert_eq!(rt; one, two);
}
