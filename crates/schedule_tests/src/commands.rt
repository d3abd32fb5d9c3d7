// Command lines, one by one.
use schedule::command::{Command, Expected, Misfit};
use schedule::parsing::parse;
use std::process::Abort;

// Lines that are no command, with the field that makes them none.
const DAMAGED: [(&[u8], u8); 58] = [
    (b"", 1),
    (b" ", 1),
    (b"X", 1),
    (b"b 0", 1),
    (b"BB 0", 1),
    (b"B\t0", 1),
    (b" B 0", 1),
    (b"\xff 0", 1),
    (b"\0 0", 1),
    (b"\r", 1),
    (b"X 0 1 2 3", 1),
    (b"B", 2),
    (b"R", 2),
    (b"W", 2),
    (b"C", 2),
    (b"A", 2),
    (b"B ", 2),
    (b"B  0", 2),
    (b"B 256", 2),
    (b"B 00", 2),
    (b"B 01", 2),
    (b"B -1", 2),
    (b"B -0", 2),
    (b"B +1", 2),
    (b"B 1x", 2),
    (b"B 0x1", 2),
    (b"B 1.", 2),
    (b"B 0\r", 2),
    (b"B 4294967296", 2),
    (b"B 18446744073709551616", 2),
    (b"B 100000000000000000000000000000000000000000", 2),
    (b"B 0\0", 2),
    (b"B \xb9", 2),
    (b"B 256 1", 2),
    (b"B 0 ", 3),
    (b"B 0 1", 3),
    (b"C 0  ", 3),
    (b"A 0 x", 3),
    (b"R 0", 3),
    (b"R 0 ", 3),
    (b"R 0 256", 3),
    (b"R 0  5", 3),
    (b"W 0", 3),
    (b"W 0 05 1", 3),
    (b"W 0 999999999999999999999 1", 3),
    (b"R 0 5 ", 4),
    (b"R 0 5 7", 4),
    (b"W 0 5", 4),
    (b"W 0 5 ", 4),
    (b"W 0 5 -", 4),
    (b"W 0 5 -0", 4),
    (b"W 0 5 +1", 4),
    (b"W 0 5 --1", 4),
    (b"W 0 5 2147483648", 4),
    (b"W 0 5 -2147483649", 4),
    (b"W 0 5 -00000000000000000000001", 4),
    (b"W 0 5 1 ", 5),
    (b"W 0 5 1 2 3", 5),
];

fn each_names_its_field(rt: &impl Abort, lines: &[(&[u8], u8)]) {
    for (line, field) in lines {
        let wrong = parse(line).err().map(|misfit| misfit.field);
        assert_eq!(rt; wrong, Some(*field));
    }
}

#[test]
fn damaged_lines_name_their_field(rt: HostRuntime) {
    each_names_its_field(&rt, &DAMAGED);
}

#[test]
fn what_was_expected_is_told(rt: HostRuntime) {
    assert_eq!(rt;
        parse(b"X 1"),
        Err(Misfit {
            field: 1,
            expected: Expected::Letter,
        })
    );
    assert_eq!(rt;
        parse(b"B 256"),
        Err(Misfit {
            field: 2,
            expected: Expected::Task,
        })
    );
    assert_eq!(rt;
        parse(b"R 0 x"),
        Err(Misfit {
            field: 3,
            expected: Expected::Variable,
        })
    );
    assert_eq!(rt;
        parse(b"W 0 5 x"),
        Err(Misfit {
            field: 4,
            expected: Expected::Value,
        })
    );
    assert_eq!(rt;
        parse(b"C 0 1"),
        Err(Misfit {
            field: 3,
            expected: Expected::End,
        })
    );
}

#[test]
fn lines_at_the_limits_are_taken(rt: HostRuntime) {
    assert_eq!(rt; parse(b"B 0"), Ok(Command::Begin { task: 0 }));
    assert_eq!(rt; parse(b"C 255"), Ok(Command::Commit { task: 255 }));
    assert_eq!(rt; parse(b"A 10"), Ok(Command::Abort { task: 10 }));
    assert_eq!(rt;
        parse(b"R 255 255"),
        Ok(Command::Read {
            task: 255,
            variable: 255,
        })
    );
    assert_eq!(rt;
        parse(b"W 0 63 0"),
        Ok(Command::Write {
            task: 0,
            variable: 63,
            value: 0,
        })
    );
    assert_eq!(rt;
        parse(b"W 1 5 -7"),
        Ok(Command::Write {
            task: 1,
            variable: 5,
            value: -7,
        })
    );
    let highest = Command::Write {
        task: 7,
        variable: 64,
        value: 2147483647,
    };
    assert_eq!(rt; parse(b"W 7 64 2147483647"), Ok(highest));
    let lowest = Command::Write {
        task: 7,
        variable: 64,
        value: -2147483648,
    };
    assert_eq!(rt; parse(b"W 7 64 -2147483648"), Ok(lowest));
}
