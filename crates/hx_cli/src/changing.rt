ghost use Rattle.std.specs.Prelude.{◌≡◌, ◌<◌, [], ◌∷◌, IfOk, OnOk, OnErr, length};
ghost use Rattle.hx_sample.specs.Changes.{ChangeCountsLarge};
ghost use Rattle.hx_refs.specs.Changes.{after_commit, after_preparation, answer, commit_fault, fault_at, preparation_fault, prepared_version};
ghost use Rattle.hx_cli.specs.Effects.{addition_effect, command_effect, done, unless, AdditionCommandAsksFor};
ghost use Rattle.hx_refs.specs.VersionNumbers.{number_ahead};
ghost use Rattle.hx_cli.specs.Replies.{prepared_text};
ghost use Rattle.hx_cli.specs.declared.command.Command.TheVariants.{Clear, Commit, Del, Prepare, Set};

use crate::change_replies::{addition_reply, change_reply, refusal_reply, value_reply};
use crate::keys::{delete, set_value};
use crate::reply::Reply;
use crate::sides::{adding, looking};
use crate::texts::prepared_line;
use hx_outside::ReMaker;
use hx_pool::Steps;
use hx_refs::{Pairs, RefFault, Refs, Side};
use hx_sample::TableFault;
use hx_text::NoMemory;
use std::alloc::Global;
use std::marker::Brand;
use std::sync::ledger::{Blank, Ledger};

/// The one pair of an addition.
pub(crate) fn one_pair(alloc: Global, key: &[u8], value: &[u8]) -> Result<Pairs, NoMemory>
    ensures { IfOk result (λ pairs.
        pairs ≡ record { key = key.now; value = value.now } ∷ []) }
{
    let mut pairs = Pairs::new(alloc);
    pairs.push(key, value)?;
    Ok(pairs)
}

/// `add acl`, `add map`: the pairs become the last entries of a version, all of them or none.
pub(crate) fn add<M: ReMaker>(
    alloc: Global,
    refs: &mut Refs,
    is_map: bool,
    ver: Option<u32>,
    name: &[u8],
    pairs: &Pairs,
    maker: &mut M,
) -> Result<Reply, TableFault>
    ensures reply { IfOk result (λ reply.
        reply ≡ (addition_effect is_map ver name.now pairs.now refs.old.content).reply) }
    ensures refs { OnOk result
        (refs.new.content ≡ (addition_effect is_map ver name.now pairs.now refs.old.content).refs) }
    ensures kept { OnErr result (refs.new ≡ refs.old) }
    ensures large { ChangeCountsLarge result
        (AdditionCommandAsksFor is_map ver name.now pairs.now refs.old.content)
        (M.state maker.old) (M.state maker.new) }
{
    match refs.resolve(name, adding(is_map)) {
        Ok(r) => {
            let answer = refs.add_many(r, ver, pairs, maker);
            addition_reply(alloc, answer)
        }
        Err(fault) => Ok(refusal_reply(alloc, fault)),
    }
}

/// `del acl`, `del map`: the entries of a version of which a word speaks are removed.
pub(crate) fn del(
    alloc: Global,
    refs: &mut Refs,
    is_map: bool,
    ver: Option<u32>,
    name: &[u8],
    key: &[u8],
) -> Reply
    ensures reply { result
        ≡ (command_effect (Del is_map ver name.now key.now) refs.old.content).reply }
    ensures refs { refs.new.content ≡ (command_effect (Del is_map ver name.now key.now)
        refs.old.content).refs }
{
    match refs.resolve(name, looking(is_map)) {
        Ok(r) => {
            let answer = delete(refs, r, ver, key);
            change_reply(alloc, answer)
        }
        Err(fault) => refusal_reply(alloc, fault),
    }
}

/// `set map`: the entries of a version of which a word speaks get a value.
pub(crate) fn set(
    alloc: Global,
    refs: &mut Refs,
    ver: Option<u32>,
    name: &[u8],
    key: &[u8],
    value: &[u8],
) -> Result<Reply, NoMemory>
    ensures reply { IfOk result (λ reply.
        reply ≡ (command_effect (Set ver name.now key.now value.now) refs.old.content).reply) }
    ensures refs { OnOk result
        (refs.new.content
        ≡ (command_effect (Set ver name.now key.now value.now) refs.old.content).refs) }
    ensures kept { OnErr result (refs.new ≡ refs.old) }
{
    match refs.resolve(name, Side::Map) {
        Ok(r) => {
            let answer = set_value(refs, r, ver, key, value);
            value_reply(alloc, answer)
        }
        Err(fault) => Ok(refusal_reply(alloc, fault)),
    }
}

/// `clear acl`, `clear map`: all entries of a version are removed.
pub(crate) fn clear(
    alloc: Global,
    refs: &mut Refs,
    is_map: bool,
    ver: Option<u32>,
    name: &[u8],
) -> Reply
    ensures reply { result ≡ (command_effect (Clear is_map ver name.now) refs.old.content).reply }
    ensures refs { refs.new.content ≡ (command_effect (Clear is_map ver name.now)
        refs.old.content).refs }
{
    match refs.resolve(name, looking(is_map)) {
        Ok(r) => {
            refs.clear(r, ver);
            Reply::new(alloc, 0)
        }
        Err(fault) => refusal_reply(alloc, fault),
    }
}

/// The number of the version after that of a number. Numbers wrap.
#[tactic(auto, unfolding(hx_refs::specs::VersionNumbers::number_ahead))]
fn number_after(number: u32) -> u32
    ensures { result ≡ number_ahead number 1 }
{
    if number < u32::MAX { number + 1 } else { 0 }
}

/// One version more of the reference at a position. Its line is made first, so that nothing is
/// changed where memory runs out.
fn prepare_at(alloc: Global, refs: &mut Refs, r: u32) -> Result<Reply, NoMemory>
    requires { r < length refs.old.content.references }
    ensures reply { IfOk result (λ reply. reply
        ≡ (unless refs.old.content (fault_at refs.old.content r
        (preparation_fault refs.old.content.limits))
        (done (prepared_text (prepared_version refs.old.content r) ∷ [])
        (after_preparation refs.old.content r))).reply) }
    ensures refs { OnOk result (refs.new.content
        ≡ (unless refs.old.content (fault_at refs.old.content r
        (preparation_fault refs.old.content.limits))
        (done (prepared_text (prepared_version refs.old.content r) ∷ [])
        (after_preparation refs.old.content r))).refs) }
    ensures kept { OnErr result (refs.new ≡ refs.old) }
{
    let version = number_after(refs.info(r).next);
    let mut reply = Reply::new(alloc, 0);
    reply.push(prepared_line(alloc, u64::from(version))?)?;
    match refs.prepare(r) {
        Ok(_) => Ok(reply),
        Err(fault) => Ok(refusal_reply(alloc, fault)),
    }
}

/// `prepare acl`, `prepare map`: one version more, without entries.
pub(crate) fn prepare(
    alloc: Global,
    refs: &mut Refs,
    is_map: bool,
    name: &[u8],
) -> Result<Reply, NoMemory>
    ensures reply { IfOk result (λ reply.
        reply ≡ (command_effect (Prepare is_map name.now) refs.old.content).reply) }
    ensures refs { OnOk result
        (refs.new.content ≡ (command_effect (Prepare is_map name.now) refs.old.content).refs) }
    ensures kept { OnErr result (refs.new ≡ refs.old) }
{
    match refs.resolve(name, adding(is_map)) {
        Ok(r) => prepare_at(alloc, refs, r),
        Err(fault) => Ok(refusal_reply(alloc, fault)),
    }
}

/// A version of the reference at a position is searched from now on. Steps are counted in the
/// ledger of `blank`.
fn commit_at<L: Ledger>(refs: &mut Refs, r: u32, ver: u32, blank: Blank) -> Result<(), RefFault>
    requires r { r < length refs.old.content.references }
    requires name { blank.name ≡ L.name }
    requires parts { blank.parts ≡ L.parts }
    requires some { 0 < L.parts }
    ensures answer { result ≡ answer tt (fault_at refs.old.content r (commit_fault ver)) }
    ensures ok { OnOk result (refs.new.content ≡ after_commit refs.old.content r ver) }
    ensures err { OnErr result (refs.new ≡ refs.old) }
{
    let mut steps = Steps::<L>::open(blank);
    refs.commit(r, ver, &mut steps)
}

/// `commit acl`, `commit map`: a version becomes that which is searched.
pub(crate) fn commit(alloc: Global, refs: &mut Refs, is_map: bool, ver: u32, name: &[u8]) -> Reply
    ensures reply { result ≡ (command_effect (Commit is_map ver name.now) refs.old.content).reply }
    ensures refs { refs.new.content ≡ (command_effect (Commit is_map ver name.now)
        refs.old.content).refs }
{
    match refs.resolve(name, adding(is_map)) {
        Ok(r) => {
            let answer = commit_at::<Brand>(refs, r, ver, Blank::new(1));
            change_reply(alloc, answer)
        }
        Err(fault) => refusal_reply(alloc, fault),
    }
}
