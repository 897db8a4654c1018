// The refusals of document 01 and of the changes after it, by their numbers.
ghost use Rattle.std.specs.Prelude.{◌≡◌};
ghost use Rattle.wire.specs.Reasons.{number_of};
ghost use Rattle.wire.specs.Codes.{because};

// Accepted: no refusal. It is what a host gets, and no reason.
pub const NONE: u8 = 0;

#[derive(Clone, Copy, Debug, PartialEq, Eq)]
pub enum Reason {
    // The message's length or the start is above 4,294,967,295.
    NotAddressable = 1,

    // Bytes are missing; the position is the place that the message would have to reach.
    Shortage = 2,

    // The version byte is not 01 or 02.
    UnknownVersion = 3,

    // The version is not the one asked for.
    OtherVersion = 4,

    // The type is not 80 in version 1, or, writing, not 0 in version 2.
    MessageType = 5,

    // The suite is not in the table.
    UnknownSuite = 6,

    // The suite is of the other version.
    SuiteOfOtherVersion = 7,

    // A context section of length 2 has a count that is not 0.
    CountInEmptyContext = 8,

    // A context section of another length above 0 has the count 0.
    NoCountInContext = 9,

    // A key of the context is not UTF-8.
    KeyNotUtf8 = 10,

    // A value of the context is not UTF-8.
    ValueNotUtf8 = 11,

    // A key of the context was seen before.
    KeySeenBefore = 12,

    // Writing, the pairs take 65,534 bytes or more.
    PairsTooLong = 13,

    // The pairs end before the section does.
    ContextLength = 14,

    // The count of keys is above the maximum.
    TooManyKeys = 15,

    // A provider ID is not UTF-8.
    ProviderIdNotUtf8 = 16,

    // The content type is not 01 or 02.
    ContentType = 17,

    // The reserved bytes are not 00 00 00 00.
    ReservedBytes = 18,

    // The IV length is not the suite's; writing a body of version 2, it is not 0; writing a frame, its IV is not 12 bytes.
    IvLength = 19,

    // Framed content with frame length 0, or non-framed content with another; frames with length 0.
    FrameLength = 20,

    // Strict: an empty context in its old form, 00 02 00 00.
    OldEmptyContext = 21,

    // The pair table is too short.
    PairTableTooShort = 22,

    // The table of keys, or of frames, is too short.
    KeyTableTooShort = 23,

    // The message ID does not have the version's length.
    IdLength = 24,

    // The suite data do not have the version's length.
    SuiteDataLength = 25,

    // A table is not in items of four or six numbers, or a place lies outside the lent text.
    TableOrPlace = 26,

    // More than 65,535 items, or a part of a pair or key above 65,535 bytes.
    CountOrPartTooLong = 27,

    // The image is longer than the output.
    OutputTooShort = 28,

    // No pair has the key.
    NotFound = 29,

    // The tag is not 16 bytes.
    TagLength = 30,

    // The table of required keys has an odd length, or a place lies outside its text.
    RequiredTableOrPlace = 31,

    // A count, an entry's length or its bytes would end past the context section.
    PastSection = 32,

    // A body that is marked as of the old form has a pair.
    PairInOldForm = 33,

    // A frame's sequence number is not the next one.
    SequenceNumber = 34,

    // The content of the final frame is longer than the frame length.
    FinalContentTooLong = 35,

    // There is no frame to write.
    NoFrame = 36,

    // The content of a frame before the last is not exactly the frame length.
    RegularContentLength = 37,

    // There is no encrypted data key.
    NoEncryptedDataKey = 38,

    // The policy forbids the suite.
    ForbiddenByPolicy = 39,

    // No encrypted data key would remain.
    NoKeyRemains = 40,
}

impl Reason {
    // The discriminant is document 01's number, and a cast is how it is read.
    pub fn number(self) -> u8
        ensures { result ≡ number_of self }
    {
        self as u8
    }
}

// Why a message, or what is to be written, is refused. A number, and no `Reason`, stands here: a contract says `because k p`
// of whatever number k a definition answers, `promises` speaks of it, and C gets it. The position is the place wanted for a shortage, and
// otherwise 0.
#[derive(Clone, Copy, Debug, PartialEq, Eq)]
pub struct Refusal {
    pub number: u8,
    pub position: u64,
}

// A refusal whose position is 0.
pub fn refuse(number: u8) -> Refusal
    ensures { result ≡ because number 0 }
{
    Refusal {
        number,
        position: 0,
    }
}

impl Refusal {
    // The message does not reach the position.
    pub fn shortage(position: u64) -> Refusal
        ensures { result ≡ because 2 position }
    {
        Refusal {
            number: Reason::Shortage.number(),
            position,
        }
    }
}

impl From<Reason> for Refusal {
    ghost from_gives = { λ r q. q ≡ because (number_of r) 0 };

    fn from(reason: Reason) -> Refusal {
        refuse(reason.number())
    }
}
