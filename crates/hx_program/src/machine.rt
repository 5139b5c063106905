ghost use Rattle.std.specs.Prelude.{◌≡◌, ℕ, ◌<◌, ◌≤◌, List, [], ◌∷◌, ◌++◌, Option, length, take, drop};
ghost use Rattle.std.specs.Prelude.{slice_index_or, IfOk, OnOk, IfSome, IsErrOf};
ghost use Rattle.std.specs.Io.{WritesAtMost};
ghost use Rattle.hx_base.specs.Pairs.{pairs_of};
ghost use Rattle.hx_program.specs.Machine.{HasLonger, unknown_texts, entry_variable, texts_of};
ghost use Rattle.hx_program.specs.Machine.{variable_bytes, variables_of};

use hx_text::cut_at;
use std::alloc::{AllocError, Global};
use std::env::FillError;
use std::rt::Env;

/// The longest argument or variable that Linux hands to a program, in bytes, with the NUL at its
/// end.
const MAX_TEXT_LEN: usize = 131_072;

/// Texts that are handed over one by one by an index, as the machine does with the arguments of a
/// program.
///
/// Contracts speak of `texts`: all of them in order, where they are known.
pub trait IndexedTexts {
    ghost texts: { Self → Option (List (List ℕ)) };

    /// Puts the text with this index, from 0, at the start of `buffer`, and answers its length in
    /// bytes.
    ///
    /// `NotPresent` only where there are no more texts than `index`, and `TooLong` only where the
    /// text is longer than `buffer`.
    fn text_at(&self, index: usize, buffer: &mut [u8]) -> Result<usize, FillError>
        ensures bound { WritesAtMost result buffer.new }
        ensures ok { IfOk result (λ len. IfSome (texts self.now) (λ all. (index < length all)
            × (slice_index_or all index [] ≡ take len buffer.new))) }
        ensures not_present { IsErrOf result FillError.NotPresent
            → IfSome (texts self.now) (λ all. length all ≤ index) }
        ensures too_long { IsErrOf result FillError.TooLong
            → IfSome (texts self.now) (λ all. (index < length all)
            × (length buffer.old < length (slice_index_or all index []))) };
}

/// The arguments of the program, its name first. Contracts don't know them.
#[derive(Drop)]
pub struct MachineArguments<E>(pub E);

impl<E: Env> IndexedTexts for MachineArguments<E> {
    ghost texts = { λ _. unknown_texts };

    fn text_at(&self, index: usize, buffer: &mut [u8]) -> Result<usize, FillError> {
        self.0.arg(index, buffer)
    }
}

/// The entries of the environment, each `NAME=VALUE`. Contracts don't know them.
#[derive(Drop)]
pub struct MachineEntries<E>(pub E);

impl<E: Env> IndexedTexts for MachineEntries<E> {
    ghost texts = { λ _. unknown_texts };

    fn text_at(&self, index: usize, buffer: &mut [u8]) -> Result<usize, FillError> {
        self.0.var_at(index, buffer)
    }
}

/// Why the command line or the environment can't be taken in.
#[derive(Clone, Copy, Debug, PartialEq, Eq)]
pub enum MachineFault {
    /// An argument or a variable is longer than any that Linux hands over.
    TooLong,
    NoMemory,
}

impl From<AllocError> for MachineFault {
    ghost use Rattle.std.specs.Prelude.{◌≡◌};
    ghost use Rattle.hx_program.specs.declared.machine.MachineFault.TheVariants.{NoMemory};

    ghost from_gives = { λ _ fault. fault ≡ NoMemory };

    fn from(_: AllocError) -> MachineFault {
        MachineFault::NoMemory
    }
}

/// The words of the command line, without the program's name, which `texts` begin with.
///
/// `TooLong` only where a text has more than 131,072 bytes, and `NoMemory` where memory runs out.
pub fn arguments<T: IndexedTexts>(alloc: Global, texts: &T) -> Result<Vec<Vec<u8>>, MachineFault>
    ensures ok { IfOk result (λ words. IfSome (T.texts texts.now)
        (λ all. texts_of words.items ≡ drop 1 all)) }
    ensures too_long { IsErrOf result MachineFault.TooLong
        → IfSome (T.texts texts.now) (HasLonger 131072) }
{
    texts_from(alloc, texts, 1)
}

/// The variables of the environment in their order, each name with its value; `texts` are its
/// entries `NAME=VALUE`, and one without `=` is no variable.
///
/// `TooLong` only where an entry has more than 131,072 bytes, and `NoMemory` where memory runs out.
pub fn environment<T: IndexedTexts>(
    alloc: Global,
    texts: &T,
) -> Result<Vec<(Vec<u8>, Vec<u8>)>, MachineFault>
    ensures ok { IfOk result (λ pairs. IfSome (T.texts texts.now)
        (λ all. pairs_of pairs.items ≡ variables_of all)) }
    ensures too_long { IsErrOf result MachineFault.TooLong
        → IfSome (T.texts texts.now) (HasLonger 131072) }
{
    let entries = texts_from(alloc, texts, 0)?;
    Ok(variables(alloc, &entries)?)
}

/// All texts from this index on.
fn texts_from<T: IndexedTexts>(
    alloc: Global,
    texts: &T,
    first: usize,
) -> Result<Vec<Vec<u8>>, MachineFault>
    ensures ok { IfOk result (λ read. IfSome (T.texts texts.now)
        (λ all. texts_of read.items ≡ drop first all)) }
    ensures too_long { IsErrOf result MachineFault.TooLong
        → IfSome (T.texts texts.now) (HasLonger 131072) }
{
    let mut buffer = vec![in alloc; 0u8; MAX_TEXT_LEN]?;
    texts_through(alloc, texts, first, &mut buffer)
}

/// All texts from this index on, each taken through this buffer.
fn texts_through<T: IndexedTexts>(
    alloc: Global,
    texts: &T,
    first: usize,
    buffer: &mut [u8],
) -> Result<Vec<Vec<u8>>, MachineFault>
    ensures ok { IfOk result (λ read. IfSome (T.texts texts.now)
        (λ all. texts_of read.items ≡ drop first all)) }
    ensures too_long { IsErrOf result MachineFault.TooLong
        → IfSome (T.texts texts.now) (HasLonger (length buffer.old)) }
{
    let mut read = Vec::new(alloc);
    for index in first..usize::MAX {
        match texts.text_at(index, buffer) {
            Ok(len) => read
                .push(buffer[..len].to_vec(alloc)?)
                .map_err(AllocError::from)?,
            Err(FillError::NotPresent) => return Ok(read),
            Err(FillError::TooLong) => return Err(MachineFault::TooLong),
        }
    }
    Err(MachineFault::NoMemory)
}

/// The variables that these entries are.
#[tactic(auto, using(crate::proofs::MachineLemmas::one_more))]
fn variables(alloc: Global, entries: &[Vec<u8>]) -> Result<Vec<(Vec<u8>, Vec<u8>)>, AllocError>
    ensures { IfOk result (λ pairs. pairs_of pairs.items ≡ variables_of (texts_of entries.now)) }
{
    let mut pairs = Vec::new(alloc);
    for entry in entries {
        push_variable(alloc, &mut pairs, entry)?;
    }
    Ok(pairs)
}

/// Appends the variable that an entry is, if it is one.
#[tactic(auto, using(crate::proofs::MachineLemmas::pairs_more))]
fn push_variable(
    alloc: Global,
    pairs: &mut Vec<(Vec<u8>, Vec<u8>)>,
    entry: &[u8],
) -> Result<(), AllocError>
    ensures { OnOk result (pairs_of pairs.new.items
        ≡ pairs_of pairs.old.items ++ variables_of (entry.now ∷ [])) }
{
    if let Some(pair) = variable(alloc, entry)? {
        pairs.push(pair).map_err(AllocError::from)?;
    }
    Ok(())
}

/// The variable that an entry `NAME=VALUE` is, cut at its first `=`; one without `=` is none.
#[tactic(auto, unfolding(crate::specs::Machine::entry_variable))]
fn variable(alloc: Global, entry: &[u8]) -> Result<Option<(Vec<u8>, Vec<u8>)>, AllocError>
    ensures { IfOk result (λ found. variable_bytes found ≡ entry_variable entry.now) }
{
    match cut_at(b'=', entry) {
        None => Ok(None),
        Some((name, value)) => Ok(Some((name.to_vec(alloc)?, value.to_vec(alloc)?))),
    }
}
