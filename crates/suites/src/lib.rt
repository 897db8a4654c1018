// The suite table, looking a suite up in it, and the constants that belong to a suite.
#![tactic(auto)]

ghost use Rattle.std.specs.Prelude.{◌≡◌, ◌+◌, ◌*◌, find, ◌==◌};
ghost use Rattle.suites.specs.Table.{suite_of};

// A suite of the table.
#[derive(Clone, Copy)]
pub struct Suite {
    pub number: u32,
    pub version: u8,
}

// From the specification of the AWS Encryption SDK; the suites of version 2 are the committing ones.
const SUITES: [Suite; 11] = [
    Suite {
        number: 0x0014,
        version: 1,
    },
    Suite {
        number: 0x0046,
        version: 1,
    },
    Suite {
        number: 0x0078,
        version: 1,
    },
    Suite {
        number: 0x0114,
        version: 1,
    },
    Suite {
        number: 0x0146,
        version: 1,
    },
    Suite {
        number: 0x0178,
        version: 1,
    },
    Suite {
        number: 0x0214,
        version: 1,
    },
    Suite {
        number: 0x0346,
        version: 1,
    },
    Suite {
        number: 0x0378,
        version: 1,
    },
    Suite {
        number: 0x0478,
        version: 2,
    },
    Suite {
        number: 0x0578,
        version: 2,
    },
];

// The first suite of the rows with the number.
fn find_in(rows: &[Suite], number: u32) -> Option<Suite>
    ensures { result ≡ find (λ s. s.number == number) rows.now }
{
    rows.iter().find(|s| s.number == number).copied()
}

impl Suite {
    pub const IV_LEN: usize = 12;

    pub const TAG_LEN: usize = 16;

    // Only the suites of version 2 have a commit key.
    pub const COMMIT_LEN: usize = 32;

    // A number as a host hands it over: one wider than 16 bits is in no row.
    pub fn from_number(number: u32) -> Option<Suite>
        ensures { result ≡ suite_of number }
    {
        find_in(&SUITES, number)
    }

    // By the two bytes as they are stored.
    pub fn from_bytes(high: u8, low: u8) -> Option<Suite>
        ensures { result ≡ suite_of (high * 256 + low) }
    {
        Suite::from_number(u32::from(u16::from_be_bytes([high, low])))
    }
}
