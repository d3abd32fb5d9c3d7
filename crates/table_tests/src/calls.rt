// The calls by task number: the order of checks, what a refusal leaves, and what a commit shares.
use clock::Clock;
use own::Own;
use policy::{Policy, PolicyFault};
use refusal::Refusal;
use table::answer::Reading;
use table::fault::{Place, TableFault};
use table::table::Table;

#[test]
fn the_task_is_checked_before_the_variable(rt: HostRuntime) {
    let mut table = Table::new(Own::new());
    assert_eq!(rt; table.begin(8).err(), Some(TableFault::NoTask));
    assert_eq!(rt; table.read(8, 64).err(), Some(TableFault::NoTask));
    assert_eq!(rt;
        table.read(7, 64).err(),
        Some(TableFault::NoVariable(Place::Single))
    );
    assert_eq!(rt; table.read(7, 63).err(), Some(TableFault::IsIdle));
    assert_eq!(rt; table.begin(7).err(), None);
    assert_eq!(rt; table.begin(7).err(), Some(TableFault::NotIdle));
    assert_eq!(rt; table.read(7, 63), Ok(Reading { value: 0 }));
}

#[test]
fn only_a_commit_shares_what_is_pending(rt: HostRuntime) {
    let mut table = Table::new(Own::new());
    let _ = table.begin(0);
    let _ = table.begin(1);
    let _ = table.write(0, 5, -7);
    assert_eq!(rt; table.read(0, 5), Ok(Reading { value: -7 }));
    assert_eq!(rt; table.read(1, 5), Ok(Reading { value: 0 }));
    assert_eq!(rt; table.commit(0).err(), None);
    assert_eq!(rt; table.begin(0).err(), None);
    assert_eq!(rt; table.read(0, 5), Ok(Reading { value: -7 }));
}

#[test]
fn an_abort_drops_what_is_pending(rt: HostRuntime) {
    let mut table = Table::new(Own::new());
    let _ = table.begin(0);
    let _ = table.write(0, 5, 3);
    let _ = table.abort(0);
    let _ = table.begin(0);
    let _ = table.write(0, 6, 4);
    assert_eq!(rt; table.read(0, 5), Ok(Reading { value: 0 }));
    let _ = table.commit(0);
    let _ = table.begin(0);
    assert_eq!(rt; table.read(0, 5), Ok(Reading { value: 0 }));
    assert_eq!(rt; table.read(0, 6), Ok(Reading { value: 4 }));
}

#[test]
fn a_broken_task_is_idle_after_its_commit(rt: HostRuntime) {
    let mut table = Table::new(Own::new());
    let _ = table.begin(0);
    let _ = table.begin(1);
    let _ = table.write(0, 5, 1);
    let fault = TableFault::Refused(Place::Single, PolicyFault::WriteBarred(5));
    assert_eq!(rt; table.write(1, 5, 2).err(), Some(fault));
    assert_eq!(rt; fault.number(), 21);
    assert_eq!(rt; table.read(1, 6).err(), Some(TableFault::IsBroken));
    assert_eq!(rt; table.commit(1).err(), Some(TableFault::IsBroken));
    assert_eq!(rt; table.commit(1).err(), Some(TableFault::IsIdle));
}

#[test]
fn a_refused_commit_shares_nothing(rt: HostRuntime) {
    let mut table = Table::new(Clock::new(0));
    let _ = table.begin(0);
    let _ = table.read(0, 5);
    let _ = table.begin(1);
    let _ = table.write(1, 5, 7);
    assert_eq!(rt; table.commit(1).err(), None);
    let _ = table.write(0, 6, 9);
    assert_eq!(rt;
        table.commit(0).err(),
        Some(TableFault::Refused(Place::Single, PolicyFault::CommitRefused))
    );
    let _ = table.begin(2);
    assert_eq!(rt; table.read(2, 6), Ok(Reading { value: 0 }));
}

#[test]
fn a_new_table_aborts_what_its_policy_has_open(rt: HostRuntime) {
    let mut policy = Own::new();
    let _ = policy.begin(0);
    let _ = policy.write(0, 5);
    let _ = policy.begin(7);
    let mut table = Table::new(policy);
    assert_eq!(rt; table.begin(7).err(), None);
    assert_eq!(rt; table.write(7, 5, 1).err(), None);
    assert_eq!(rt; table.begin(0).err(), None);
}
