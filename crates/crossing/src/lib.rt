// What crosses the boundary to a host: requests in numbers, answers as records. Enums don't cross it: each answer becomes a struct of
// numbers, by value, with `From`. The numbers, flags and lengths are C's interface.
#![tactic(auto)]

pub mod asked;
mod auth_tag;
mod body;
mod finding;
mod sections;
mod written;

use fields::BodyNumbers;
use suites::Suite;

// A section that was read: how many pairs or keys, and the tail. Number 0: accepted.
#[repr(C)]
#[derive(Clone, Copy)]
pub struct BafirolenSection {
    pub number: u64,
    pub position: u64,
    pub count: u64,
    pub tail: u64,
}

// An authentication record that was read. On a refusal it is all 00.
#[repr(C)]
#[derive(Clone, Copy)]
pub struct BafirolenAuth {
    pub number: u64,
    pub position: u64,
    pub tail: u64,
    pub iv: [u8; Suite::IV_LEN],
    pub tag: [u8; Suite::TAG_LEN],
}

// A body that was read: its numbers with the mark of its form, where its ID and suite data stand, how many pairs and keys, and the
// tail. Number 0: accepted; on a refusal all but the number and the position is 0.
#[repr(C)]
#[derive(Clone, Copy)]
pub struct BafirolenBody {
    pub number: u64,
    pub position: u64,
    pub numbers: BodyNumbers,
    pub messageIdStart: u64,
    pub messageIdLen: u64,
    pub pairCount: u64,
    pub keyCount: u64,
    pub suiteDataStart: u64,
    pub suiteDataLen: u64,
    pub tail: u64,
}

// A value that was found: where its bytes stand in the message.
#[repr(C)]
#[derive(Clone, Copy)]
pub struct BafirolenPlace {
    pub number: u64,
    pub position: u64,
    pub start: u64,
    pub len: u64,
}

// What was written or copied, or what a write takes: how many bytes from the first byte of the output on; 0 on a refusal.
#[repr(C)]
#[derive(Clone, Copy)]
pub struct BafirolenWritten {
    pub number: u64,
    pub position: u64,
    pub length: u64,
}
