// Numbers, bytes and entries: read at a place of a message, and written into a lent output; and the refusals.
#![tactic(auto)]

pub mod buffer;
pub mod operations;
pub mod reading;
pub mod refusals;
pub mod writing;

// What was read, and the place behind it.
#[derive(Clone, Copy)]
pub struct SuccessfulRead<T> {
    pub value: T,
    pub tail: u64,
}

// A part of the message that was read, and the place behind it. It is flat: as `SuccessfulRead` of a place, each use of a start or a length
// would name `value` in front, and say no more.
#[derive(Clone, Copy)]
pub struct Span {
    pub start: u64,
    pub len: u64,
    pub tail: u64,
}
