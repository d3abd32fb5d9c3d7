// Collects and snapshots: the whole reply buffer after each kind of answer, and the count of reads.
use crate::counting::Counting;
use clock::Clock;
use lock::Lock;
use own::Own;
use policy::{Policy, PolicyFault};
use std::test::Fail;
use table::answer::Collected;
use table::fault::{Place, TableFault};
use table::table::Table;

#[test]
fn a_collect_gives_pending_and_shared_values_and_then_zeros(rt: HostRuntime) {
    let mut table = Table::new(Own::new());
    let _ = table.begin(0);
    let _ = table.write(0, 63, -7);
    let mut reply = [9i32; 5];
    assert_eq!(rt;
        table.collect(0, &[63, 0, 63], &mut reply),
        Ok(Collected { reads: 3 })
    );
    assert_eq!(rt; reply, [-7, 0, -7, 0, 0]);
}

// The reported counts are the reads that the policy below has counted.
#[test]
fn the_count_is_what_the_policy_counted(rt: HostRuntime) -> Result<(), Fail> {
    let mut table = Table::new(Counting::new(Own::new()));
    let _ = table.begin(3);
    let mut reply = [0i32; 16];
    let collected = table.collect(3, &[1, 2, 1, 63], &mut reply)?;
    let snapshot = table.snapshot(4, &[7, 7], &mut reply)?;
    assert_eq!(rt;
        table.collect(3, &[64], &mut reply).err(),
        Some(TableFault::NoVariable(Place::Listed(0)))
    );
    let counted = table.into_policy().reads();
    assert_eq!(rt; counted, collected.reads.wrapping_add(snapshot.reads));
    assert_eq!(rt; counted, 6);
    Ok(())
}

#[test]
fn lists_of_sixteen_and_of_seventeen(rt: HostRuntime) {
    let mut table = Table::new(Own::new());
    let _ = table.begin(0);
    let mut reply = [9i32; 17];
    assert_eq!(rt;
        table.collect(0, &[63u8; 16], &mut reply),
        Ok(Collected { reads: 16 })
    );
    assert_eq!(rt; reply, [0i32; 17]);
    let mut reply = [9i32; 17];
    assert_eq!(rt;
        table.collect(0, &[63u8; 17], &mut reply).err(),
        Some(TableFault::ListLength)
    );
    assert_eq!(rt; reply, [0i32; 17]);
}

// Zeros alone after a call that was sent wrongly or at the wrong time, in the order of checks.
#[test]
fn a_collect_that_never_came_to_the_policy_leaves_zeros(rt: HostRuntime) {
    let calls: [(u8, &[u8], TableFault); 5] = [
        (8, &[], TableFault::NoTask),
        (7, &[], TableFault::ListLength),
        (7, &[64, 1, 2, 3], TableFault::ShortBuffer),
        (7, &[63, 64, 65], TableFault::NoVariable(Place::Listed(1))),
        (7, &[63], TableFault::IsIdle),
    ];
    let mut table = Table::new(Own::new());
    for (task, list, fault) in calls {
        let mut reply = [9i32; 3];
        assert_eq!(rt; table.collect(task, list, &mut reply).err(), Some(fault));
        assert_eq!(rt; reply, [0i32; 3]);
    }
}

// The first values were granted and read before the refusal.
#[test]
fn a_refused_collect_leaves_zeros_and_a_broken_task(rt: HostRuntime) {
    let mut table = Table::new(Lock::new());
    let _ = table.begin(0);
    let _ = table.write(0, 5, 7);
    let _ = table.begin(1);
    let _ = table.write(1, 2, 8);
    let mut reply = [9i32; 4];
    assert_eq!(rt;
        table.collect(1, &[2, 3, 5], &mut reply).err(),
        Some(TableFault::Refused(Place::Listed(2), PolicyFault::ReadBarred(5)))
    );
    assert_eq!(rt; reply, [0i32; 4]);
    let mut reply = [9i32; 4];
    assert_eq!(rt;
        table.collect(1, &[3], &mut reply).err(),
        Some(TableFault::IsBroken)
    );
    assert_eq!(rt; reply, [0i32; 4]);
}

#[test]
fn a_snapshot_leaves_its_task_idle(rt: HostRuntime) {
    let mut table = Table::new(Clock::new(0));
    let _ = table.begin(0);
    let _ = table.write(0, 63, -1);
    assert_eq!(rt; table.commit(0).err(), None);
    let mut reply = [9i32; 3];
    assert_eq!(rt;
        table.snapshot(0, &[63, 1], &mut reply),
        Ok(Collected { reads: 2 })
    );
    assert_eq!(rt; reply, [-1, 0, 0]);
    assert_eq!(rt; table.commit(0).err(), Some(TableFault::IsIdle));
}

#[test]
fn a_refused_snapshot_leaves_zeros_and_an_idle_task(rt: HostRuntime) {
    let mut table = Table::new(Lock::new());
    let _ = table.begin(0);
    let _ = table.write(0, 5, 7);
    let mut reply = [9i32; 3];
    assert_eq!(rt;
        table.snapshot(0, &[5], &mut reply).err(),
        Some(TableFault::NotIdle)
    );
    assert_eq!(rt; reply, [0i32; 3]);
    let mut reply = [9i32; 3];
    assert_eq!(rt;
        table.snapshot(1, &[4, 5], &mut reply).err(),
        Some(TableFault::Refused(Place::Listed(1), PolicyFault::ReadBarred(5)))
    );
    assert_eq!(rt; reply, [0i32; 3]);
    assert_eq!(rt; table.begin(1).err(), None);
    assert_eq!(rt; table.write(1, 4, 1).err(), None);
}
