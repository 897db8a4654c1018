// The checks of a key section's keys. Equal keys are allowed.
ghost use Rattle.std.specs.Prelude.{◌≡◌, [], ◌*◌, ◌/◌, ◌<◌, length};
ghost use Rattle.format.specs.Checks.{first, each, key_checks};
ghost use Rattle.format.specs.Lent.{items, key_in, keys_in, writing_encrypted_data_keys_section};
ghost use Rattle.checks.specs.Answers.{checked};

use super::tables::{Parts, check_table};
use wire::refusals::{Reason, Refusal};

impl Parts<'_> {
    // 16 of the i-th key.
    fn check_key(self, i: usize) -> Result<(), Refusal>
        requires { i < length self.table.now / 6 }
        ensures { result ≡ checked (first (key_checks (items (key_in self.entry.text.now self.entry.table.now) 6 i 0) (key_in self.entry.text.now self.entry.table.now (6 * i)))) }
    {
        if self.is_text(6 * i) {
            return Ok(());
        }
        Err(Reason::ProviderIdNotUtf8.into())
    }

    // The same of each key.
    fn check_each_key(self) -> Result<(), Refusal>
        ensures { result ≡ checked (first (each key_checks [] (keys_in self.entry.text.now self.entry.table.now))) }
    {
        for i in 0..self.table.len() / 6 {
            self.check_key(i)?;
        }
        Ok(())
    }
}

// Write a key section, all but 28: 26; 27; 38; per key 16. A table in sixes that is shorter than six is empty; asked so, the loop behind it
// has no test of its own to make before its first key.
pub fn check_keys(text: &[u8], table: &[u32]) -> Result<(), Refusal>
    ensures { result ≡ checked (first (writing_encrypted_data_keys_section text.now table.now).checks) }
{
    check_table(text, table, 6)?;
    if table.len() < 6 {
        return Err(Reason::NoEncryptedDataKey.into());
    }
    let parts = Parts { text, table };
    parts.check_each_key()
}
