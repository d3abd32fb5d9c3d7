// What can be wrong with a schedule text.
ghost use Rattle.std.specs.Prelude.{◌≡◌};
ghost use Rattle.schedule.specs.Faults.{fault_line, fault_number};
ghost use Rattle.schedule.specs.declared.fault.TextFault.TheVariants.{Misshapen as misshapen, NoPolicy as no_policy, TooLong as too_long, Refused as refused};

use crate::command::Misfit;
use refusal::Refusal;

// A text's fault; `F` is the fault of the table that the text is run on.
#[derive(Clone, Copy, Debug, PartialEq, Eq)]
pub enum TextFault<F> {
    // a line that is no command, by the first field that makes it none
    Misshapen { line: usize, misfit: Misfit },
    // the first line names no policy, or there is none
    NoPolicy,
    // more than 60,000 bytes
    TooLong,
    // the table refused the command of a line
    Refused { line: usize, fault: F },
}

impl<F> TextFault<F> {
    // The line that it is printed under.
    pub fn line(&self) -> usize
        ensures { result ≡ fault_line self.now }
    {
        match self {
            TextFault::Misshapen { line, .. } | TextFault::Refused { line, .. } => *line,
            TextFault::NoPolicy => 1,
            TextFault::TooLong => 0,
        }
    }
}

// A line that is no command.
// This and `RefusedLine` are two structs, since of one generic struct two `From` would meet at `F` = `Misfit`.
#[derive(Clone, Copy, Debug, PartialEq, Eq)]
pub struct BadLine {
    pub line: usize,
    pub misfit: Misfit,
}

// A first line that names no policy.
#[derive(Clone, Copy, Debug, PartialEq, Eq)]
pub struct UnknownPolicy;

// A text that is too long.
#[derive(Clone, Copy, Debug, PartialEq, Eq)]
pub struct OverLong;

// A line whose command the table refused.
#[derive(Clone, Copy, Debug, PartialEq, Eq)]
pub struct RefusedLine<F> {
    pub line: usize,
    pub fault: F,
}

impl<F> From<BadLine> for TextFault<F> {
    ghost from_gives = { λ b r. r ≡ misshapen b.line b.misfit };

    fn from(bad: BadLine) -> TextFault<F> {
        TextFault::Misshapen {
            line: bad.line,
            misfit: bad.misfit,
        }
    }
}

impl<F> From<UnknownPolicy> for TextFault<F> {
    ghost from_gives = { λ _ r. r ≡ no_policy };

    fn from(_unknown: UnknownPolicy) -> TextFault<F> {
        Self::NoPolicy
    }
}

impl<F> From<OverLong> for TextFault<F> {
    ghost from_gives = { λ _ r. r ≡ too_long };

    fn from(_long: OverLong) -> TextFault<F> {
        Self::TooLong
    }
}

impl<F> From<RefusedLine<F>> for TextFault<F> {
    ghost from_gives = { λ b r. r ≡ refused b.line b.fault };

    fn from(refused: RefusedLine<F>) -> TextFault<F> {
        let RefusedLine { line, fault } = refused;
        TextFault::Refused { line, fault }
    }
}

impl<F: Refusal> Refusal for TextFault<F> {
    ghost numbered = { λ t. fault_number F.Refusal.numbered t };

    fn number(&self) -> u8 {
        match self {
            TextFault::Misshapen { .. } => 5,
            TextFault::NoPolicy => 6,
            TextFault::TooLong => 7,
            TextFault::Refused { fault, .. } => fault.number(),
        }
    }
}
