// The commands of a schedule, and where a line is none.

#[derive(Clone, Copy, Debug, PartialEq, Eq)]
pub enum Command {
    Begin { task: u8 },
    Read { task: u8, variable: u8 },
    Write { task: u8, variable: u8, value: i32 },
    Commit { task: u8 },
    Abort { task: u8 },
}

// What should stand in a field.
#[derive(Clone, Copy, Debug, PartialEq, Eq)]
pub enum Expected {
    Letter,
    Task,
    Variable,
    Value,
    // nothing: the line has all its fields
    End,
}

// The first field of a line that is missing, wrong or too many; field 1 is the letter.
#[derive(Clone, Copy, Debug, PartialEq, Eq)]
pub struct Misfit {
    pub field: u8,
    pub expected: Expected,
}

pub(crate) const NO_LETTER: Misfit = Misfit {
    field: 1,
    expected: Expected::Letter,
};

pub(crate) const NO_TASK: Misfit = Misfit {
    field: 2,
    expected: Expected::Task,
};

pub(crate) const NO_VARIABLE: Misfit = Misfit {
    field: 3,
    expected: Expected::Variable,
};

pub(crate) const NO_VALUE: Misfit = Misfit {
    field: 4,
    expected: Expected::Value,
};
