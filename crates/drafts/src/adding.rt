// Adding a key: what stands behind the keys moves up, and the key is written in front of it.
ghost use Rattle.std.specs.Prelude.{◌≡◌, [], ◌∷◌, ◌++◌, ◌+◌, ◌-◌, ◌≤◌, ◌<◌, length};
ghost use Rattle.format.specs.Read.{operation};
ghost use Rattle.format.specs.Serialize.{write_uint16, write_short_length_seq, every};
ghost use Rattle.format.specs.Keys.{write_encrypted_data_key};
ghost use Rattle.format.specs.Checks.{first, has_uint16_len};
ghost use Rattle.format.specs.Lent.{bytes_at};
ghost use Rattle.format.specs.Mending.{add_encrypted_data_key};
ghost use Rattle.wire.specs.Stored.{stored};
ghost use Rattle.checks.specs.Answers.{checked, written_as};
ghost use Rattle.drafts.specs.Codes.{Mends, Stands};
ghost use Rattle.drafts.specs.Adding.{parts_of, key_of, size_of, Short, HasRoom, adding_checks};

use body_measure::Measurement;
use moving::move_bytes;
use utf8::part_is_utf8;
use wire::refusals::{Reason, Refusal};
use wire::writing::{put_entry, write_uint16};

// A key that is to be added.
#[derive(Clone, Copy)]
pub(crate) struct EncryptedDataKey<'a> {
    pub(crate) keyProviderId: &'a [u8],
    pub(crate) keyProviderInfo: &'a [u8],
    pub(crate) ciphertext: &'a [u8],
}

impl EncryptedDataKey<'_> {
    // Each part has at most 65,535 bytes.
    fn is_short(&self) -> bool
        ensures { result ≡ every has_uint16_len (parts_of self.now) }
    {
        self.keyProviderId.len() <= 65535
            && self.keyProviderInfo.len() <= 65535
            && self.ciphertext.len() <= 65535
    }

    // 16, then 27, where so many keys are there already.
    fn check(&self, keyCount: u64) -> Result<(), Refusal>
        ensures { result ≡ checked (first (adding_checks (key_of self.now) keyCount)) }
    {
        if !part_is_utf8(self.keyProviderId, 0, self.keyProviderId.len() as u64) {
            return Err(Reason::ProviderIdNotUtf8.into());
        }
        if !self.is_short() {
            return Err(Reason::CountOrPartTooLong.into());
        }
        if 65535 <= keyCount {
            return Err(Reason::CountOrPartTooLong.into());
        }
        Ok(())
    }

    // What it takes.
    fn size(&self) -> u64
        requires { Short (key_of self.now) }
        ensures { result ≡ size_of (key_of self.now) }
    {
        6 + (self.keyProviderId.len() + self.keyProviderInfo.len() + self.ciphertext.len()) as u64
    }

    // WriteEncryptedDataKey: the three entries from `at` on.
    fn put(&self, m: &mut [u8], at: usize)
        requires { Short (key_of self.now) × (at + size_of (key_of self.now) ≤ length m.old) }
        ensures { m.new ≡ stored m.old at (write_encrypted_data_key (key_of self.now)) }
    {
        let second = put_entry(self.keyProviderId, m, at);
        let third = put_entry(self.keyProviderInfo, m, second);
        put_entry(self.ciphertext, m, third);
    }

    // In a draft that stands at the front, with room behind it: the new key behind the others, and the count.
    fn put_behind(&self, m: &mut [u8], draft: Measurement)
        requires { HasRoom m.old draft (key_of self.now) }
        ensures { m.new ≡ stored (stored m.old draft.keysEnd (write_encrypted_data_key (key_of self.now) ++ bytes_at m.old draft.keysEnd (draft.tail - draft.keysEnd))) draft.keysStart (write_uint16 (draft.keyCount + 1)) }
    {
        let from = draft.keysEnd as usize;
        let to = (draft.keysEnd + self.size()) as usize;
        move_bytes(m, from, to, (draft.tail - draft.keysEnd) as usize);
        self.put(m, from);
        write_uint16(m, draft.keysStart as usize, (draft.keyCount + 1) as u16);
    }

    // To a draft that stands at the front: 16, 27, and 28 where the longer one exceeds the buffer.
    pub(crate) fn add(&self, m: &mut [u8], draft: Measurement) -> Result<usize, Refusal>
        requires { Stands m.old draft }
        ensures { Mends written_as (operation (add_encrypted_data_key (key_of self.now) (length m.old)) m.old 0) m.old m.new result }
    {
        self.check(draft.keyCount)?;
        let size = self.size();
        if (m.len() as u64) - draft.tail < size {
            return Err(Reason::OutputTooShort.into());
        }
        self.put_behind(m, draft);
        Ok((draft.tail + size) as usize)
    }
}
