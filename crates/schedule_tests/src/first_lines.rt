// First lines.
use schedule::choice::{Choice, Kind};
use std::convert::TryFrom;
use std::process::Abort;

const NAMELESS: [&[u8]; 14] = [
    b"",
    b"Lock",
    b"lock ",
    b" lock",
    b"lock\r",
    b"locks",
    b"loc",
    b"eager",
    b"eager ",
    b"eager  clock",
    b"eagerclock",
    b"eager eager own",
    b"own clock",
    b"clock\0",
];

fn named(line: &[u8]) -> Option<Choice> {
    Choice::try_from(line).ok()
}

fn none_names_a_policy(rt: &impl Abort, lines: &[&[u8]]) {
    for line in lines {
        assert_eq!(rt; named(line), None);
    }
}

#[test]
fn other_first_lines_name_no_policy(rt: HostRuntime) {
    none_names_a_policy(&rt, &NAMELESS);
}

#[test]
fn each_policy_has_its_line(rt: HostRuntime) {
    assert_eq!(rt; named(b"lock"), Some(Choice::Plain(Kind::Lock)));
    assert_eq!(rt; named(b"own"), Some(Choice::Plain(Kind::Own)));
    assert_eq!(rt; named(b"clock"), Some(Choice::Plain(Kind::Clock)));
    assert_eq!(rt; named(b"eager lock"), Some(Choice::Eager(Kind::Lock)));
    assert_eq!(rt; named(b"eager own"), Some(Choice::Eager(Kind::Own)));
    assert_eq!(rt; named(b"eager clock"), Some(Choice::Eager(Kind::Clock)));
}
