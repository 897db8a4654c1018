// Writes the two sections of a header body from a lent text and lent tables of places. Everything is tested before anything is
// stored, so that a refusal leaves the output as it was.
#![tactic(auto)]

mod entries;

ghost use Rattle.std.specs.Prelude.{◌≡◌, ◌+◌, ◌≤◌, ◌<◌, length};
ghost use Rattle.format.specs.Context.{write_expanded_aad_section, section_in};
ghost use Rattle.format.specs.Lent.{pairs_in, writing_aad_section, writing_encrypted_data_keys_section};
ghost use Rattle.wire.specs.Stored.{stored};
ghost use Rattle.format.specs.Checks.{first};
ghost use Rattle.checks.specs.Answers.{checked, Writes};
ghost use Rattle.checks.specs.Table.{Passed, entries_size};
ghost use Rattle.fields.specs.Codes.{form_of};
ghost use Rattle.section_write.specs.Sizes.{length_alone, aad_section_size, keys_section_size, PairsReady, KeysReady};

use checks::keys::check_keys;
use checks::pairs::check_pairs;
use checks::tables::entries_size;
use fields::Form;
use wire::refusals::{Reason, Refusal};
use wire::writing::write_uint16;

// An empty context in today's form is its length 0 alone.
fn is_length_alone(form: Form, pairs: &[u32]) -> bool
    ensures { result ≡ length_alone (form_of form) pairs.now }
{
    match form {
        Form::Today => pairs.len() / 4 == 0,
        Form::Old => false,
    }
}

// How many bytes the context section takes, in that form.
pub fn aad_section_size(form: Form, pairs: &[u32]) -> usize
    requires { length pairs.now < 4194304 }
    ensures { (result ≡ aad_section_size (form_of form) pairs.now) × (result < 18014398509481984) }
{
    if is_length_alone(form, pairs) {
        return 2;
    }
    4 + entries_size(pairs)
}

// How many bytes the key section takes.
pub fn keys_section_size(keys: &[u32]) -> usize
    requires { length keys.now < 4194304 }
    ensures { (result ≡ keys_section_size keys.now) × (result < 18014398509481984) }
{
    2 + entries_size(keys)
}

// WriteExpandedAADSection: the length of what follows, the count, the pairs.
fn put_expanded_aad_section(text: &[u8], pairs: &[u32], out: &mut [u8])
    requires { (Passed 4 text.now pairs.now) × (entries_size pairs.now < 65534) × (4 + entries_size pairs.now ≤ length out.old) }
    ensures { out.new ≡ stored out.old 0 (write_expanded_aad_section (pairs_in text.now pairs.now)) }
{
    let size = entries_size(pairs);
    write_uint16(out, 0, (2 + size) as u16);
    write_uint16(out, 2, (pairs.len() / 4) as u16);
    entries::put_entries(text, pairs, out, 4);
}

// WriteAADSection in today's form, and in the old one WriteExpandedAADSection, from the first byte of what is lent.
pub fn put_aad_section(form: Form, text: &[u8], pairs: &[u32], out: &mut [u8])
    requires { PairsReady (form_of form) text.now pairs.now (length out.old) }
    ensures { out.new ≡ stored out.old 0 (section_in (form_of form) (pairs_in text.now pairs.now)) }
{
    if is_length_alone(form, pairs) {
        write_uint16(out, 0, 0);
        return;
    }
    put_expanded_aad_section(text, pairs, out);
}

// WriteEncryptedDataKeysSection, from the first byte of what is lent: the count, the keys.
pub fn put_keys_section(text: &[u8], keys: &[u32], out: &mut [u8])
    requires { KeysReady text.now keys.now (length out.old) }
    ensures { out.new ≡ stored out.old 0 (writing_encrypted_data_keys_section text.now keys.now).image }
{
    write_uint16(out, 0, (keys.len() / 6) as u16);
    entries::put_entries(text, keys, out, 2);
}

// Write a context section: 26; 27; per pair 10, 11, 12; 13; 28.
pub fn write_aad_section(text: &[u8], pairs: &[u32], out: &mut [u8]) -> Result<usize, Refusal>
    ensures { Writes (writing_aad_section text.now pairs.now) out.old out.new result }
{
    check_pairs(text, pairs)?;
    let size = aad_section_size(Form::Today, pairs);
    if out.len() < size {
        return Err(Reason::OutputTooShort.into());
    }
    put_aad_section(Form::Today, text, pairs, out);
    Ok(size)
}

// Write a key section: 26; 27; per key 16; 28.
pub fn write_encrypted_data_keys_section(
    text: &[u8],
    keys: &[u32],
    out: &mut [u8],
) -> Result<usize, Refusal>
    ensures { Writes (writing_encrypted_data_keys_section text.now keys.now) out.old out.new result }
{
    check_keys(text, keys)?;
    let size = keys_section_size(keys);
    if out.len() < size {
        return Err(Reason::OutputTooShort.into());
    }
    put_keys_section(text, keys, out);
    Ok(size)
}
