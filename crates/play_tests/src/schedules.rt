// Whole texts, one conflict under each policy, and texts that are refused.
use play::texts::run;
use std::alloc::Global;
use std::process::Abort;
use std::test::Fail;

fn prints(rt: &impl Abort, heap: Global, text: &[u8], expected: &[u8]) -> Result<(), Fail> {
    let output = run(heap, text)?;
    assert!(rt; output.as_slice() == expected);
    Ok(())
}

#[test]
fn a_lock_bars_the_reader_of_what_another_has_read(rt: HostRuntime) -> Result<(), Fail> {
    let text = b"lock\nB 0\nB 1\nR 0 5\nR 1 5\nR 1 6\nC 1\nC 0\n";
    let printed = b"1 ok\n2 ok\n3 ok\n4 = 0\n5 no 20\n6 no 12\n7 no 12\n8 ok\n";
    prints(&rt, rt.alloc(), text, printed)
}

#[test]
fn an_owner_bars_other_writers(rt: HostRuntime) -> Result<(), Fail> {
    let text = b"own\nB 0\nW 0 5 1\nB 1\nW 1 5 2\nA 1\nC 0\nB 1\nR 1 5\n";
    let printed = b"1 ok\n2 ok\n3 ok\n4 ok\n5 no 21\n6 ok\n7 ok\n8 ok\n9 = 1\n";
    prints(&rt, rt.alloc(), text, printed)
}

#[test]
fn own_bars_the_reads_of_a_task_that_is_behind(rt: HostRuntime) -> Result<(), Fail> {
    let text = b"own\nB 0\nR 0 5\nB 1\nW 1 5 7\nC 1\nR 0 6\n";
    prints(
        &rt,
        rt.alloc(),
        text,
        b"1 ok\n2 ok\n3 = 0\n4 ok\n5 ok\n6 ok\n7 no 20\n",
    )
}

#[test]
fn the_clock_refuses_the_commit_of_a_writer_that_is_behind(rt: HostRuntime) -> Result<(), Fail> {
    let text = b"clock\nB 0\nR 0 5\nB 1\nW 1 5 7\nC 1\nW 0 6 9\nC 0\nB 2\nR 2 6\nR 2 5\n";
    let printed = b"1 ok\n2 ok\n3 = 0\n4 ok\n5 ok\n6 ok\n7 ok\n8 no 22\n9 ok\n10 = 0\n11 = 7\n";
    prints(&rt, rt.alloc(), text, printed)
}

#[test]
fn under_the_eager_layer_the_write_is_barred_already(rt: HostRuntime) -> Result<(), Fail> {
    let text = b"eager clock\nB 0\nR 0 5\nB 1\nW 1 5 7\nC 1\nW 0 6 9\nC 0\n";
    let printed = b"1 ok\n2 ok\n3 = 0\n4 ok\n5 ok\n6 ok\n7 no 21\n8 no 12\n";
    prints(&rt, rt.alloc(), text, printed)
}

#[test]
fn the_eager_layer_stands_over_the_others_too(rt: HostRuntime) -> Result<(), Fail> {
    let heap = rt.alloc();
    prints(
        &rt,
        heap,
        b"eager lock\nB 0\nB 1\nW 0 5 1\nR 1 5\n",
        b"1 ok\n2 ok\n3 ok\n4 ok\n5 no 20\n",
    )?;
    let text = b"eager own\nB 0\nR 0 5\nB 1\nW 1 5 7\nC 1\nW 0 6 9\n";
    prints(
        &rt,
        heap,
        text,
        b"1 ok\n2 ok\n3 = 0\n4 ok\n5 ok\n6 ok\n7 no 21\n",
    )
}

#[test]
fn first_lines_that_name_no_policy(rt: HostRuntime) -> Result<(), Fail> {
    let heap = rt.alloc();
    prints(&rt, heap, b"", b"1 no 6\n")?;
    prints(&rt, heap, b"\nB 0\n", b"1 no 6\n")?;
    prints(&rt, heap, b"Lock\nB 0\n", b"1 no 6\n")?;
    prints(&rt, heap, b"eager  lock\n", b"1 no 6\n")
}

#[test]
fn the_last_line_needs_no_line_feed(rt: HostRuntime) -> Result<(), Fail> {
    let heap = rt.alloc();
    prints(&rt, heap, b"lock", b"1 ok\n")?;
    prints(&rt, heap, b"lock\nB 0", b"1 ok\n2 ok\n")?;
    prints(&rt, heap, b"lock\nB 0\n", b"1 ok\n2 ok\n")?;
    prints(&rt, heap, b"lock\nB 0\n\n", b"1 ok\n2 ok\n3 no 5\n")
}

#[test]
fn variables_end_at_63_and_tasks_at_7(rt: HostRuntime) -> Result<(), Fail> {
    let heap = rt.alloc();
    prints(
        &rt,
        heap,
        b"own\nB 7\nR 7 63\nR 7 64\nR 7 255\n",
        b"1 ok\n2 ok\n3 = 0\n4 no 2\n5 no 2\n",
    )?;
    prints(
        &rt,
        heap,
        b"own\nB 8\nR 8 64\nC 255\nA 7\n",
        b"1 ok\n2 no 1\n3 no 1\n4 no 1\n5 no 11\n",
    )
}

#[test]
fn values_keep_their_sign_and_range(rt: HostRuntime) -> Result<(), Fail> {
    let text = b"lock\nB 0\nW 0 1 -2147483648\nR 0 1\nW 0 2 2147483647\nR 0 2\nR 0 3\n";
    let printed = b"1 ok\n2 ok\n3 ok\n4 = -2147483648\n5 ok\n6 = 2147483647\n7 = 0\n";
    prints(&rt, rt.alloc(), text, printed)
}

#[test]
fn calls_at_the_wrong_time(rt: HostRuntime) -> Result<(), Fail> {
    let text = b"clock\nC 0\nB 0\nB 0\nA 0\nA 0\nX 1\nW 0 1 -0\n";
    let printed = b"1 ok\n2 no 11\n3 ok\n4 no 10\n5 ok\n6 no 11\n7 no 5\n8 no 5\n";
    prints(&rt, rt.alloc(), text, printed)
}
