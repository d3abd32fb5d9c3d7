// The constant of each policy is what `is_strict` answers.
use clock::Clock;
use eager::Eager;
use lock::Lock;
use own::Own;
use policy::Policy;
use std::process::Abort;

fn constant_told<P: Policy>(rt: &impl Abort) {
    assert_eq!(rt; P::STRICT, P::is_strict());
}

#[test]
fn constants_are_told(rt: HostRuntime) {
    constant_told::<Lock>(&rt);
    constant_told::<Own>(&rt);
    constant_told::<Clock>(&rt);
    constant_told::<Eager<Clock>>(&rt);
    constant_told::<Eager<Own>>(&rt);
    constant_told::<Eager<Eager<Lock>>>(&rt);
}

#[test]
fn lock_and_own_are_strict(rt: HostRuntime) {
    assert!(rt; Lock::STRICT);
    assert!(rt; Own::STRICT);
    assert!(rt; Eager::<Own>::STRICT);
}

#[test]
fn clock_is_not_strict(rt: HostRuntime) {
    assert!(rt; !Clock::STRICT);
    assert!(rt; !Eager::<Clock>::STRICT);
}
