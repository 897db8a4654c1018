// A draft, mended in the buffer in which it stands. On a refusal the buffer is as it was.
ghost use Rattle.std.specs.Prelude.{length};
ghost use Rattle.format.specs.Read.{operation};
ghost use Rattle.format.specs.Mending.{drop_encrypted_data_keys, add_encrypted_data_key};
ghost use Rattle.drafts.specs.Codes.{Mends};
ghost use Rattle.crossing.specs.Records.{image_record};

use crossing::BafirolenWritten;

// The length is that of the draft without the keys of that provider ID.
#[unsafe(no_mangle)]
pub extern "C" fn bafirolen_drop_encrypted_data_keys(
    draft: &mut [u8],
    providerId: &[u8],
) -> BafirolenWritten
    ensures { Mends image_record (operation (drop_encrypted_data_keys providerId.now) draft.old 0) draft.old draft.new result }
{
    drafts::drop_encrypted_data_keys(draft, providerId).into()
}

// The length is that of the draft with the key behind the others.
#[unsafe(no_mangle)]
pub extern "C" fn bafirolen_add_encrypted_data_key(
    draft: &mut [u8],
    providerId: &[u8],
    providerInfo: &[u8],
    ciphertext: &[u8],
) -> BafirolenWritten
    ensures { Mends image_record (operation (add_encrypted_data_key (record { keyProviderId = providerId.now; keyProviderInfo = providerInfo.now; ciphertext = ciphertext.now }) (length draft.old)) draft.old 0) draft.old draft.new result }
{
    drafts::add_encrypted_data_key(draft, providerId, providerInfo, ciphertext).into()
}
