// What a granted call tells.

// A granted read.
#[derive(Clone, Copy, Debug, PartialEq, Eq)]
pub struct Reading {
    pub value: i32,
}

// A granted collect or snapshot: how many reads it made of the policy. The values stand in the reply buffer,
// which is the caller's, since a table has no heap.
#[derive(Clone, Copy, Debug, PartialEq, Eq)]
pub struct Collected {
    pub reads: usize,
}
