// Whole texts.
use refusal::Refusal;
use schedule::command::{Expected, Misfit};
use schedule::fault::{RefusedLine, TextFault};
use schedule::lines::Lines;
use schedule::report::check as report_on;
use std::alloc::Global;
use std::process::Abort;
use std::test::Fail;

// How many lines of a text are looked at, how many are faulty, and the text of its first fault.
fn told(
    rt: &impl Abort,
    heap: Global,
    text: &[u8],
    lines: usize,
    faulty: usize,
    first: Option<&str>,
) -> Result<(), Fail> {
    let report = report_on(heap, text)?;
    assert_eq!(rt; report.lines, lines);
    assert_eq!(rt; report.faults.len(), faulty);
    let fault = report.faults.first();
    let told = fault.map(|fault| fault.to_string(heap)).transpose()?;
    assert!(rt; told.as_deref() == first);
    Ok(())
}

const NO_POLICY: &str = "1 no 6: expected lock, own or clock, or eager, a space and one of these";

const TOO_LONG: &str = "0 no 7: expected at most 60000 bytes";

#[test]
fn texts_without_a_first_line(rt: HostRuntime) -> Result<(), Fail> {
    told(&rt, rt.alloc(), b"", 0, 1, Some(NO_POLICY))?;
    told(&rt, rt.alloc(), b"\n", 1, 1, Some(NO_POLICY))?;
    told(&rt, rt.alloc(), b"\n\n\n", 3, 3, Some(NO_POLICY))?;
    told(&rt, rt.alloc(), b"B 0\nB 0\nB", 3, 2, Some(NO_POLICY))
}

#[test]
fn a_last_line_needs_no_line_feed(rt: HostRuntime) -> Result<(), Fail> {
    told(&rt, rt.alloc(), b"lock", 1, 0, None)?;
    told(&rt, rt.alloc(), b"lock\n", 1, 0, None)?;
    told(&rt, rt.alloc(), b"lock\nB 0", 2, 0, None)?;
    told(&rt, rt.alloc(), b"lock\nB 0\n", 2, 0, None)?;
    told(
        &rt,
        rt.alloc(),
        b"lock\nB 0\n\n",
        3,
        1,
        Some("3 no 5, field 1: expected B, R, W, C or A"),
    )?;
    told(&rt, rt.alloc(), b"lock\r\nB 0\r\n", 2, 2, Some(NO_POLICY))
}

// A text of `lines` lines `A 255`, behind `lock`, and then the bytes of `end`.
fn long_text(heap: Global, lines: usize, end: &[u8]) -> Result<Vec<u8>, Fail> {
    let middle = b"A 255\n".repeat(heap, lines)?;
    Ok([b"lock\n", middle.as_slice(), end].concat(heap)?)
}

#[test]
fn sixty_thousand_bytes_are_read(rt: HostRuntime) -> Result<(), Fail> {
    let heap = rt.alloc();
    let full = long_text(heap, 9998, b"A 0\nB 3")?;
    assert_eq!(rt; full.len(), 60_000);
    told(&rt, heap, &full, 10_001, 0, None)?;
    let over = long_text(heap, 9998, b"A 0\nB 33")?;
    assert_eq!(rt; over.len(), 60_001);
    told(&rt, heap, &over, 0, 1, Some(TOO_LONG))
}

#[test]
fn lines_are_numbered_from_one(rt: HostRuntime) {
    let mut lines = Lines::new(b"own\n\n\r\0\xff");
    assert_eq!(rt; number_and_length(&mut lines), Some((1, 3)));
    assert_eq!(rt; number_and_length(&mut lines), Some((2, 0)));
    assert_eq!(rt; number_and_length(&mut lines), Some((3, 3)));
    assert_eq!(rt; number_and_length(&mut lines), None);
}

fn number_and_length(lines: &mut Lines) -> Option<(usize, usize)> {
    lines.next().map(|line| (line.number, line.bytes.len()))
}

// A fault of a table, for the tests.
#[derive(Clone, Copy, Debug, PartialEq, Eq)]
struct Thirteen;

impl Refusal for Thirteen {
    ghost numbered = { λ _. 13 };

    fn number(&self) -> u8 {
        13
    }
}

fn refused_at(line: usize) -> Result<(), TextFault<Thirteen>> {
    Err(RefusedLine {
        line,
        fault: Thirteen,
    })?;
    Ok(())
}

#[test]
fn a_tables_fault_keeps_its_number(rt: HostRuntime) -> Result<(), Fail> {
    let Err(fault) = refused_at(4) else {
        return Err(Fail::new("no fault"));
    };
    assert_eq!(rt; fault.number(), 13);
    assert!(rt; fault.to_string(rt.alloc())?.as_str() == "4 no 13");
    Ok(())
}

#[test]
fn a_bad_line_has_number_five(rt: HostRuntime) {
    let misfit = Misfit {
        field: 2,
        expected: Expected::Task,
    };
    assert_eq!(rt;
        TextFault::<Thirteen>::Misshapen { line: 3, misfit }.number(),
        5
    );
}
