//! The entries that are removed from references, and the values that are changed.
ghost use Rattle.std.specs.Prelude.{◌≡◌, ◌<◌, length, None, IfErr, OnOk, OnErr};
ghost use Rattle.hx_refs.specs.Changes.{after_change_of_value, after_deletion, answer, deletion_fault, fault_at, has_number, value_fault, MayFail};
ghost use Rattle.hx_sample.specs.Changes.{has_key};
ghost use Rattle.hx_versions.specs.Versions.{is_chosen};

use crate::fault::RefFault;
use crate::refs::Refs;
use hx_text::NoMemory;
use hx_versions::Choice;

impl Refs {
    /// Removes all entries with the key from a version of the reference at the position `r`: from
    /// the version `ver`, or without one from that which is searched. `BadVersion` exactly where
    /// the reference has no such version, and else `KeyNotFound` exactly where the version has no
    /// such entry; nothing is changed then. It takes no memory.
    ///
    /// There are more than `r` references. HAProxy management guide 2.4, section 9.3, `del acl`,
    /// `del map`; that a version can be named is hxeval's own.
    pub fn del_key(&mut self, r: u32, ver: Option<u32>, key: &[u8]) -> Result<(), RefFault>
        requires { r < length self.old.content.references }
        ensures answer { result
            ≡ answer tt (fault_at self.old.content r (deletion_fault ver (has_key key.now))) }
        ensures ok { OnOk result (self.new.content ≡ after_deletion self.old.content r ver
            (has_key key.now)) }
        ensures err { OnErr result (self.new ≡ self.old) }
    {
        self.delete(r, ver, &Choice::Key(key))
    }

    /// Removes the entry with the number from a version of the reference at the position `r`. What
    /// is refused, and what stands then, is as for [`Refs::del_key`]; a number of another version
    /// is that of no entry. It takes no memory.
    ///
    /// There are more than `r` references. HAProxy management guide 2.4, section 9.3, `del acl`,
    /// `del map`; that a version can be named is hxeval's own.
    pub fn del_id(&mut self, r: u32, ver: Option<u32>, number: u64) -> Result<(), RefFault>
        requires { r < length self.old.content.references }
        ensures answer { result
            ≡ answer tt (fault_at self.old.content r (deletion_fault ver (has_number number))) }
        ensures ok { OnOk result (self.new.content ≡ after_deletion self.old.content r ver
            (has_number number)) }
        ensures err { OnErr result (self.new ≡ self.old) }
    {
        self.delete(r, ver, &Choice::Number(number))
    }

    fn delete(&mut self, r: u32, ver: Option<u32>, choice: &Choice<'_>) -> Result<(), RefFault>
        requires { r < length self.old.content.references }
        ensures answer { result
            ≡ answer tt (fault_at self.old.content r (deletion_fault ver (is_chosen choice.now))) }
        ensures ok { OnOk result (self.new.content ≡ after_deletion self.old.content r ver
            (is_chosen choice.now)) }
        ensures err { OnErr result (self.new ≡ self.old) }
    {
        self.kept.delete(r, ver, choice)
    }

    /// Changes the value of all entries with the key in a version of the reference at the position
    /// `r`, to copies of `value`: in the version `ver`, or without one in that which is searched.
    /// Their places, numbers and keys stay.
    ///
    /// `BadVersion` exactly where the reference has no such version, and else `KeyNotFound` exactly
    /// where the version has no such entry, and else `BadValue` exactly where an output can't read
    /// the value. `NoMemory` where memory runs out. Nothing is changed then.
    ///
    /// There are more than `r` references. HAProxy management guide 2.4, section 9.3, `set map`;
    /// that a version can be named is hxeval's own.
    pub fn set_key(
        &mut self,
        r: u32,
        ver: Option<u32>,
        key: &[u8],
        value: &[u8],
    ) -> Result<(), RefFault>
        requires { r < length self.old.content.references }
        ensures ok { OnOk result
            (self.new.content ≡ after_change_of_value self.old.content r ver (has_key key.now)
            value.now) }
        ensures none { OnOk result
            (fault_at self.old.content r (value_fault ver (has_key key.now) value.now) ≡ None) }
        ensures refused { IfErr result
            (MayFail (fault_at self.old.content r (value_fault ver (has_key key.now) value.now))) }
        ensures kept { OnErr result (self.new ≡ self.old) }
    {
        self.set(r, ver, &Choice::Key(key), value)
    }

    /// Changes the value of the entry with the number in a version of the reference at the position
    /// `r`, to a copy of `value`. Its place, number and key stay. What is refused, and what stands
    /// then, is as for [`Refs::set_key`]; a number of another version is that of no entry.
    ///
    /// There are more than `r` references. HAProxy management guide 2.4, section 9.3, `set map`;
    /// that a version can be named is hxeval's own.
    pub fn set_id(
        &mut self,
        r: u32,
        ver: Option<u32>,
        number: u64,
        value: &[u8],
    ) -> Result<(), RefFault>
        requires { r < length self.old.content.references }
        ensures ok { OnOk result
            (self.new.content ≡ after_change_of_value self.old.content r ver (has_number number)
            value.now) }
        ensures none { OnOk result
            (fault_at self.old.content r (value_fault ver (has_number number) value.now) ≡ None) }
        ensures refused { IfErr result (MayFail
            (fault_at self.old.content r (value_fault ver (has_number number) value.now))) }
        ensures kept { OnErr result (self.new ≡ self.old) }
    {
        self.set(r, ver, &Choice::Number(number), value)
    }

    fn set(
        &mut self,
        r: u32,
        ver: Option<u32>,
        choice: &Choice<'_>,
        value: &[u8],
    ) -> Result<(), RefFault>
        requires { r < length self.old.content.references }
        ensures ok { OnOk result
            (self.new.content ≡ after_change_of_value self.old.content r ver (is_chosen choice.now)
            value.now) }
        ensures none { OnOk result
            (fault_at self.old.content r (value_fault ver (is_chosen choice.now) value.now)
            ≡ None) }
        ensures refused { IfErr result (MayFail
            (fault_at self.old.content r (value_fault ver (is_chosen choice.now) value.now))) }
        ensures kept { OnErr result (self.new ≡ self.old) }
    {
        self.kept.set(r, ver, choice, value)
    }
}
