ghost use Rattle.std.specs.Prelude.{◌≡◌, ◌<◌, [], true, None, length, OnOk, OnErr};
ghost use Rattle.hx_sample.specs.Changes.{change_of, has_key, is_entry_key, is_entry_text, is_fit, Addition, ChangeAsksFor, ChangeCountsLarge, IsReadBy, NewValue, Removal};
ghost use Rattle.hx_refs.specs.Changes.{after_deletion};
ghost use Rattle.hx_refs.specs.References.{searched_lists};
ghost use Rattle.hx_refs.specs.TableAnswers.{lacks_key, table_answer};
ghost use Rattle.hx_refs.specs.TableChanges.{after_fit_change, with_pair};

use crate::fault::RefFault;
use crate::refs::Refs;
use hx_outside::ReMaker;
use hx_sample::{Change, TableFault};
use hx_text::has_bad_value_byte;

/// Whether these are bytes that the key or the value of an entry may have.
fn is_entry_text(bytes: &[u8]) -> bool
    ensures { result ≡ is_entry_text bytes.now }
{
    !has_bad_value_byte(bytes)
}

/// Whether it may be the key of an entry.
fn is_entry_key(key: &[u8]) -> bool
    ensures { result ≡ is_entry_key key.now }
{
    !key.is_empty() && is_entry_text(key)
}

/// Whether the key and the value of a change are such as an entry may have.
pub(crate) fn is_fit(change: &Change<'_>) -> bool
    ensures { result ≡ is_fit (change_of change.now) }
{
    match change {
        Change::Add { key } | Change::Del { key } | Change::DelMap { key } => is_entry_key(key),
        Change::SetMap { key, value } => is_entry_key(key) && is_entry_text(value),
    }
}

/// What a change answers where a call on the references answered this.
fn table_answer(answer: Result<(), RefFault>) -> Result<(), TableFault>
    ensures { result ≡ table_answer answer }
{
    match answer {
        Err(RefFault::TooLarge) => Err(TableFault::TooLarge),
        Err(RefFault::NoMemory) => Err(TableFault::NoMemory),
        _ => Ok(()),
    }
}

/// Whether a call on the references was refused since no entry has the key.
fn lacks_key(answer: &Result<(), RefFault>) -> bool
    ensures { result ≡ lacks_key answer.now }
{
    match answer {
        Err(RefFault::KeyNotFound) => true,
        _ => false,
    }
}

impl Refs {
    /// Appends an entry to the version that is searched, unless it is refused.
    fn append_pair<M: ReMaker>(
        &mut self,
        r: u32,
        key: &[u8],
        value: &[u8],
        maker: &mut M,
    ) -> Result<(), TableFault>
        requires { r < length self.old.content.references }
        ensures ok { OnOk result (self.new.content
            ≡ with_pair self.old.content r (record { key = key.now; value = value.now })) }
        ensures kept { OnErr result (self.new ≡ self.old) }
        ensures large { ChangeCountsLarge result (IsReadBy self.old.content.heads r key.now)
            (M.state maker.old) (M.state maker.new) }
    {
        let answer = self.add(r, None, key, value, maker);
        table_answer(answer)
    }

    /// The same without a value, where no entry has the key.
    fn append_absent<M: ReMaker>(
        &mut self,
        r: u32,
        key: &[u8],
        maker: &mut M,
    ) -> Result<(), TableFault>
        requires r { r < length self.old.content.references }
        requires fit { is_fit (Addition key.now) ≡ true }
        ensures ok { OnOk result
            (self.new.content ≡ after_fit_change self.old.content r (Addition key.now)) }
        ensures kept { OnErr result (self.new ≡ self.old) }
        ensures large { ChangeCountsLarge result (ChangeAsksFor self.old.content.heads
            (searched_lists self.old.content) r (Addition key.now))
            (M.state maker.old) (M.state maker.new) }
    {
        if self.has_key(r, key) {
            return Ok(());
        }
        self.append_pair(r, key, &[], maker)
    }

    /// Removes all entries with the key from the version that is searched.
    fn delete_all(&mut self, r: u32, key: &[u8])
        requires { r < length self.old.content.references }
        ensures { self.new.content ≡ after_deletion self.old.content r None (has_key key.now) }
    {
        // Where no entry has the key there is nothing to remove.
        let _ = self.del_key(r, None, key);
    }

    /// Changes the value of all entries with the key, and appends one where there is none.
    fn set_or_append<M: ReMaker>(
        &mut self,
        r: u32,
        key: &[u8],
        value: &[u8],
        maker: &mut M,
    ) -> Result<(), TableFault>
        requires r { r < length self.old.content.references }
        requires fit { is_fit (NewValue key.now value.now) ≡ true }
        ensures ok { OnOk result (self.new.content
            ≡ after_fit_change self.old.content r (NewValue key.now value.now)) }
        ensures kept { OnErr result (self.new ≡ self.old) }
        ensures large { ChangeCountsLarge result (ChangeAsksFor self.old.content.heads
            (searched_lists self.old.content) r (NewValue key.now value.now))
            (M.state maker.old) (M.state maker.new) }
    {
        let answer = self.set_key(r, None, key, value);
        if lacks_key(&answer) {
            return self.append_pair(r, key, value, maker);
        }
        table_answer(answer)
    }

    /// A change that is fit.
    pub(crate) fn change_fit<M: ReMaker>(
        &mut self,
        r: u32,
        change: Change<'_>,
        maker: &mut M,
    ) -> Result<(), TableFault>
        requires r { r < length self.old.content.references }
        requires fit { is_fit (change_of change) ≡ true }
        ensures ok { OnOk result
            (self.new.content ≡ after_fit_change self.old.content r (change_of change.entry)) }
        ensures kept { OnErr result (self.new ≡ self.old) }
        ensures large { ChangeCountsLarge result
            (ChangeAsksFor self.old.content.heads (searched_lists self.old.content) r
            (change_of change.entry))
            (M.state maker.old) (M.state maker.new) }
    {
        match change {
            Change::Add { key } => self.append_absent(r, key, maker),
            Change::SetMap { key, value } => self.set_or_append(r, key, value, maker),
            Change::Del { key } | Change::DelMap { key } => {
                self.delete_all(r, key);
                Ok(())
            }
        }
    }
}
