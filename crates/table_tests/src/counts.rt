// The count of reads that a collect or a snapshot reports, beside the one that a counting policy has kept.
use crate::counting::Counting;
use clock::Clock;
use eager::Eager;
use lock::Lock;
use own::Own;
use policy::Policy;
use std::process::Abort;
use std::test::Fail;
use table::answer::Collected;
use table::fault::TableFault;
use table::table::Table;

// One variable; several; one again and again; some again; as many as there may be, with and without repeats.
const LISTS: [&[u8]; 6] = [
    &[5],
    &[3, 2, 1, 0, 63],
    &[7, 7, 7, 7],
    &[1, 2, 1, 63, 2],
    &[0, 1, 2, 3, 4, 5, 6, 7, 8, 9, 10, 11, 12, 13, 14, 15],
    &[9, 9, 8, 8, 9, 9, 8, 8, 9, 9, 8, 8, 9, 9, 8, 8],
];

// Collects the list after a write of variable 7, which may stand in it.
fn collect<P: Policy>(
    table: &mut Table<Counting<P>>,
    list: &[u8],
) -> Result<Collected, TableFault> {
    let _ = table.begin(0);
    let _ = table.write(0, 7, -1);
    table.collect(0, list, &mut [0i32; 16])
}

fn snapshot<P: Policy>(
    table: &mut Table<Counting<P>>,
    list: &[u8],
) -> Result<Collected, TableFault> {
    table.snapshot(7, list, &mut [0i32; 16])
}

// A call on the list reports the reads that the policy below has counted.
fn check<P: Policy + Drop, F>(rt: &impl Abort, policy: P, list: &[u8], call: F) -> Result<(), Fail>
where
    F: FnOnce(&mut Table<Counting<P>>, &[u8]) -> Result<Collected, TableFault>,
    requires { F.IsAlwaysCallable call }
{
    let mut table = Table::new(Counting::new(policy));
    let collected = call(&mut table, list)?;
    assert_eq!(rt; collected.reads, table.into_policy().reads());
    Ok(())
}

#[test]
fn collects_report_the_reads_that_they_made(rt: HostRuntime) -> Result<(), Fail> {
    for list in LISTS {
        check(&rt, Lock::new(), list, collect)?;
        check(&rt, Own::new(), list, collect)?;
        check(&rt, Clock::new(0), list, collect)?;
        check(&rt, Eager::new(Clock::new(0)), list, collect)?;
    }
    Ok(())
}

#[test]
fn snapshots_report_the_reads_that_they_made(rt: HostRuntime) -> Result<(), Fail> {
    for list in LISTS {
        check(&rt, Lock::new(), list, snapshot)?;
        check(&rt, Own::new(), list, snapshot)?;
        check(&rt, Clock::new(0), list, snapshot)?;
        check(&rt, Eager::new(Own::new()), list, snapshot)?;
    }
    Ok(())
}
