// Tickets in use. Without the abort, or with a second commit, this is refused by the compiler.
use lock::Lock;
use policy::{Policy, PolicyFault};
use std::test::Fail;
use table::answer::Reading;
use table::fault::{Place, TableFault};
use table::table::Table;

// Reads a variable in a transaction of its own, which ends before the return whatever was answered.
fn read_once(table: &mut Table<Lock>, task: u8, variable: u8) -> Result<Reading, TableFault> {
    let ticket = table.begin_ticket(task)?;
    let answer = table.read_by(&ticket, variable);
    let _ = if answer.is_ok() {
        table.commit_by(ticket)
    } else {
        table.abort_by(ticket)
    };
    answer
}

// Reads a variable twice, and commits once.
fn read_twice(table: &mut Table<Lock>, task: u8, variable: u8) -> Result<(), TableFault> {
    let ticket = table.begin_ticket(task)?;
    let _ = table.read_by(&ticket, variable);
    let _ = table.read_by(&ticket, variable);
    let _ = table.commit_by(ticket);
    Ok(())
}

#[test]
fn a_refused_read_leaves_the_task_idle(rt: HostRuntime) {
    let mut table = Table::new(Lock::new());
    let _ = table.begin(0);
    let _ = table.write(0, 5, 7);
    assert_eq!(rt;
        read_once(&mut table, 1, 5).err(),
        Some(TableFault::Refused(Place::Single, PolicyFault::ReadBarred(5)))
    );
    assert_eq!(rt; table.commit(1).err(), Some(TableFault::IsIdle));
}

#[test]
fn a_ticket_serves_many_reads(rt: HostRuntime) {
    let mut table = Table::new(Lock::new());
    assert_eq!(rt; read_twice(&mut table, 1, 5).err(), None);
    assert_eq!(rt; table.abort(1).err(), Some(TableFault::IsIdle));
}

// On another table a ticket does what its task number would.
#[test]
fn a_ticket_on_another_table(rt: HostRuntime) -> Result<(), Fail> {
    let mut table = Table::new(Lock::new());
    let mut other = Table::new(Lock::new());
    let ticket = table.begin_ticket(3)?;
    assert_eq!(rt; other.commit_by(ticket).err(), Some(TableFault::IsIdle));
    assert_eq!(rt; table.commit(3).err(), None);
    Ok(())
}
