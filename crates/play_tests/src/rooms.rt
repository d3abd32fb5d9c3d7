// Output in a caller's buffer, and texts at the longest.
use play::outcome::NoRoom;
use play::texts::{room_for, run, run_into};
use std::alloc::Global;
use std::test::Fail;

// It prints these 17 bytes: 1 ok, 2 ok, 3 no 5.
const TEXT: &[u8] = b"lock\nB 0\nB 08\n";

#[test]
fn exactly_enough_room(rt: HostRuntime) {
    let mut room = [255u8; 17];
    assert_eq!(rt; run_into(TEXT, &mut room), Ok(17));
    assert!(rt; room == *b"1 ok\n2 ok\n3 no 5\n");
}

#[test]
fn one_byte_less_is_refused(rt: HostRuntime) {
    let mut room = [255u8; 16];
    assert_eq!(rt; run_into(TEXT, &mut room), Err(NoRoom));
    assert!(rt; room == [0u8; 16]);
}

#[test]
fn zeros_follow_the_output(rt: HostRuntime) {
    let mut room = [255u8; 20];
    assert_eq!(rt; run_into(TEXT, &mut room), Ok(17));
    assert!(rt; room == *b"1 ok\n2 ok\n3 no 5\n\0\0\0");
}

#[test]
fn no_room_at_all(rt: HostRuntime) {
    let mut room = [0u8; 0];
    assert_eq!(rt; run_into(TEXT, &mut room), Err(NoRoom));
    assert_eq!(rt; run_into(b"", &mut room), Err(NoRoom));
}

#[test]
fn room_that_is_always_enough(rt: HostRuntime) {
    assert_eq!(rt; room_for(b""), 35);
    assert_eq!(rt; room_for(TEXT), 525);
}

// A text of `lines` lines `A 255`, behind `lock`, and then the bytes of `end`.
// The schedule's tests have the same: a crate for these two lines, which both would list, would be no plainer.
fn long_text(heap: Global, lines: usize, end: &[u8]) -> Result<Vec<u8>, Fail> {
    let middle = b"A 255\n".repeat(heap, lines)?;
    Ok([b"lock\n", middle.as_slice(), end].concat(heap)?)
}

#[test]
fn sixty_thousand_bytes_are_run(rt: HostRuntime) -> Result<(), Fail> {
    let heap = rt.alloc();
    let full = long_text(heap, 9998, b"A 0\nB 3")?;
    assert_eq!(rt; full.len(), 60_000);
    let output = run(heap, &full)?;
    assert!(rt;
        output
            .as_slice()
            .ends_with(b"\n9999 no 1\n10000 no 11\n10001 ok\n")
    );
    Ok(())
}

#[test]
fn a_byte_more_is_refused(rt: HostRuntime) -> Result<(), Fail> {
    let heap = rt.alloc();
    let over = long_text(heap, 9998, b"A 0\nB 33")?;
    assert_eq!(rt; over.len(), 60_001);
    let output = run(heap, &over)?;
    assert!(rt; output.as_slice() == b"0 no 7\n".as_slice());
    Ok(())
}
