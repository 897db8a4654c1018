// A body that is to be written, as it is handed over: its numbers, and what is lent beside them.
ghost use Rattle.std.specs.Prelude.{◌≡◌, ◌++◌, ◌/◌, length};
ghost use Rattle.format.specs.Context.{section_in};
ghost use Rattle.format.specs.Checks.{first, form_checks};
ghost use Rattle.format.specs.Lent.{pairs_in, size_of, writing_encrypted_data_keys_section};
ghost use Rattle.wire.specs.Stored.{stored};
ghost use Rattle.checks.specs.Answers.{checked, write_answer_of, Writes};
ghost use Rattle.request.specs.Codes.{policy_of};
ghost use Rattle.fields.specs.Codes.{form_named};

use checks::keys::check_keys;
use checks::pairs::check_pairs;
use ends_write::closing::Closing;
use ends_write::opening::Opening;
use fields::{BodyNumbers, Form};
use request::Policy;
use section_write::{aad_section_size, keys_section_size, put_aad_section, put_keys_section};
use wire::refusals::{Reason, Refusal};

#[derive(Clone, Copy)]
pub(crate) struct Body<'a> {
    pub(crate) numbers: BodyNumbers,
    pub(crate) messageId: &'a [u8],
    pub(crate) suiteData: &'a [u8],
    pub(crate) text: &'a [u8],
    pub(crate) pairs: &'a [u32],
    pub(crate) keys: &'a [u32],
}

impl<'a> Body<'a> {
    ghost use Rattle.body_write.specs.Ready.{mark_of, opening_of, closing_of, writing, image_of, body_size, Small, SectionsReady, BodyReady};

    fn opening(self) -> Opening<'a>
        ensures { result ≡ opening_of self.entry }
    {
        Opening {
            version: self.numbers.version,
            messageType: self.numbers.messageType,
            suite: self.numbers.suite,
            messageId: self.messageId,
        }
    }

    fn closing(self) -> Closing<'a>
        ensures { result ≡ closing_of self.entry }
    {
        Closing {
            version: self.numbers.version,
            contentType: self.numbers.contentType,
            headerIvLength: self.numbers.headerIvLength,
            frameLength: self.numbers.frameLength,
            suiteData: self.suiteData,
        }
    }

    fn form(self) -> Form
        ensures { result ≡ form_named self.entry.numbers.form }
    {
        Form::from(self.numbers.form)
    }

    // 33: a record marked old has a pair.
    fn check_form(self) -> Result<(), Refusal>
        ensures { result ≡ checked (first (form_checks (mark_of self.entry) (length self.entry.pairs.now / 4))) }
    {
        match self.form() {
            Form::Old if self.pairs.len() / 4 != 0 => Err(Reason::PairInOldForm.into()),
            _ => Ok(()),
        }
    }

    // All but 28, in the order of documents 01 and 02.
    fn check(self, policy: Policy) -> Result<(), Refusal>
        ensures { result ≡ checked (first (writing (policy_of policy) self.entry).checks) }
    {
        self.opening().check(policy)?;
        check_pairs(self.text, self.pairs)?;
        self.check_form()?;
        check_keys(self.text, self.keys)?;
        self.closing().check()
    }

    fn size(self) -> usize
        requires { Small self }
        ensures { result ≡ body_size self.entry }
    {
        let sections = aad_section_size(self.form(), self.pairs) + keys_section_size(self.keys);
        self.opening().size() + (sections + self.closing().size())
    }

    // What `write` answers with an output that is long enough.
    pub(crate) fn len(self, policy: Policy) -> Result<usize, Refusal>
        ensures { result ≡ write_answer_of (size_of (writing (policy_of policy) self.entry)) }
    {
        self.check(policy)?;
        Ok(self.size())
    }

    // Both sections, from a place on as in `wire::writing`; each writer is lent the part of the output that begins at its section.
    fn put_sections(self, out: &mut [u8], at: usize)
        requires { SectionsReady self at (length out.old) }
        ensures { out.new ≡ stored out.old at (section_in (mark_of self.entry) (pairs_in self.entry.text.now self.entry.pairs.now) ++ (writing_encrypted_data_keys_section self.entry.text.now self.entry.keys.now).image) }
    {
        let form = self.form();
        put_aad_section(form, self.text, self.pairs, &mut out[at..]);
        let next = at + aad_section_size(form, self.pairs);
        put_keys_section(self.text, self.keys, &mut out[next..]);
    }

    fn put(self, size: usize, out: &mut [u8])
        requires { BodyReady self size (length out.old) }
        ensures { out.new ≡ stored out.old 0 (image_of self.entry) }
    {
        let opening = self.opening();
        opening.put(out);
        self.put_sections(out, opening.size());
        let closing = self.closing();
        let end = size - closing.size();
        closing.put(&mut out[end..]);
    }

    // The writer goes by what is told: everything is tested before anything is stored, so that a refusal leaves the output as it was.
    pub(crate) fn write(self, policy: Policy, out: &mut [u8]) -> Result<usize, Refusal>
        ensures { Writes (writing (policy_of policy) self.entry) out.old out.new result }
    {
        let size = self.len(policy)?;
        if out.len() < size {
            return Err(Reason::OutputTooShort.into());
        }
        self.put(size, out);
        Ok(size)
    }
}
