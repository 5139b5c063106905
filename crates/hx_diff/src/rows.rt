ghost use Rattle.std.specs.Prelude.{◌≡◌, ◌==◌, ◌++◌, ◌+◌, ◌<◌, [], false, OnOk, codes, drop};
ghost use Rattle.std.specs.Fmt.{decimal};
ghost use Rattle.std.specs.List.{after_first, before_first, list_any};
ghost use Rattle.hx_base.specs.Bytes.{ascii};
ghost use Rattle.indexmap.specs.IndexMap.{index_map_len};
ghost use Rattle.hx_diff.specs.RowsView.{key_of, row_at, rows_of};
ghost use Rattle.hx_diff.specs.Verdicts.{row_text, rows_text, verdict_in, verdicts_text, with_request};

use hx_text::{NoMemory, cut_at};
use indexmap::IndexMap;
use itoa::Buffer;
use std::alloc::Global;
use std::marker::Model;

/// How many requests have the same two verdicts, and the number of the first of them.
#[derive(Clone, Copy, PartialEq, Eq)]
pub struct Count {
    pub count: u64,
    pub first: u64,
}

/// The pairs of verdicts of the requests whose answers differ, in the order of their first
/// requests. Contracts see a list of rows.
#[derive(Drop)]
pub struct Rows {
    // both verdicts of a row, each a line, and what is counted of it
    counts: IndexMap<Vec<u8>, Count>,
    // the key that is looked up, whose memory is kept
    key: Vec<u8>,
}

impl Model for Rows {
    ghost use Rattle.std.specs.Prelude.{List};
    ghost use Rattle.hx_diff.specs.RowsView.{AreKeys, rows_of};
    ghost use Rattle.hx_diff.specs.Verdicts.{Row};

    ghost Value = { List Row };

    ghost view = { λ rows. rows_of rows.counts.entries };

    ghost invariant = { λ rows. AreKeys rows.counts.entries };
}

impl Rows {
    /// No rows yet. It takes no memory.
    pub fn new(alloc: Global) -> Rows
        ensures { result ≡ [] }
    {
        Rows {
            counts: IndexMap::new(alloc),
            key: Vec::new(alloc),
        }
    }

    /// Counts the request with this number, which has these two answers, in the row of their
    /// verdicts.
    pub fn count(
        &mut self,
        alloc: Global,
        number: u64,
        old: &[u8],
        new: &[u8],
    ) -> Result<(), NoMemory>
        ensures { OnOk result (self.new
            ≡ with_request number (verdict_in old.now) (verdict_in new.now) self.old) }
    {
        self.count_verdicts(alloc, number, verdict(old), verdict(new))
    }

    /// The same by the verdicts.
    fn count_verdicts(
        &mut self,
        alloc: Global,
        number: u64,
        old: &[u8],
        new: &[u8],
    ) -> Result<(), NoMemory>
        requires { list_any (λ b. b == ascii "\n") old.now ≡ false }
        ensures { OnOk result (self.new ≡ with_request number old.now new.now self.old) }
    {
        set_key(&mut self.key, old, new)?;
        match self.counts.get_mut(self.key.as_slice()) {
            Some(count) => {
                *count = Count {
                    count: count.count.saturating_add(1),
                    first: count.first,
                };
                Ok(())
            }
            None => {
                let key = Vec::from_slice(alloc, self.key.as_slice())?;
                let first = Count {
                    count: 1,
                    first: number,
                };
                self.counts.insert(key, first)?;
                Ok(())
            }
        }
    }

    /// Appends the lines of the rows, in their order.
    pub fn append_lines(&self, text: &mut Vec<u8>) -> Result<(), NoMemory>
        ensures { OnOk result (text.new.items ≡ text.old.items ++ rows_text self.now) }
    {
        append_entries(text, &self.counts)
    }
}

/// Appends the lines of the entries, in their order.
fn append_entries(text: &mut Vec<u8>, counts: &IndexMap<Vec<u8>, Count>) -> Result<(), NoMemory>
    ensures { OnOk result
        (text.new.items ≡ text.old.items ++ rows_text (rows_of counts.now.entries)) }
{
    for at in 0..counts.len() {
        append_entry(text, counts, at)?;
    }
    Ok(())
}

/// Appends the line of the entry at a position.
fn append_entry(
    text: &mut Vec<u8>,
    counts: &IndexMap<Vec<u8>, Count>,
    at: usize,
) -> Result<(), NoMemory>
    requires { at < index_map_len counts.now }
    ensures { OnOk result (text.new.items ++ rows_text (rows_of (drop (at + 1) counts.now.entries))
        ≡ text.old.items ++ rows_text (rows_of (drop at counts.now.entries))) }
{
    match counts.get_index(at) {
        Some((key, count)) => {
            append_row(text, key.as_slice(), *count)?;
            Ok(())
        }
        None => Ok(()),
    }
}

/// Makes the key of two verdicts.
fn set_key(key: &mut Vec<u8>, old: &[u8], new: &[u8]) -> Result<(), NoMemory>
    ensures { OnOk result (key.new.items ≡ key_of old.now new.now) }
{
    key.clear();
    key.extend_from_slice(old)?;
    key.extend_from_slice(b"\n")?;
    key.extend_from_slice(new)?;
    Ok(())
}

/// The verdict in the answer to a request.
pub fn verdict(answer: &[u8]) -> &[u8]
    ensures verdict { result.now ≡ verdict_in answer.now }
    ensures line { list_any (λ b. b == ascii "\n") result.now ≡ false }
{
    after(b' ', before(b'\n', answer))
}

/// What stands before the first byte of this value, or the whole text without one.
fn before(byte: u8, text: &[u8]) -> &[u8]
    ensures before { result.now ≡ before_first (λ b. b == byte) text.now }
    ensures without { list_any (λ b. b == byte) result.now ≡ false }
{
    match cut_at(byte, text) {
        Some((before, _)) => before,
        None => text,
    }
}

/// What stands after the first byte of this value; nothing without one.
fn after(byte: u8, text: &[u8]) -> &[u8]
    ensures { result.now ≡ after_first (λ b. b == byte) text.now }
{
    match cut_at(byte, text) {
        Some((_, after)) => after,
        None => b"",
    }
}

/// Appends the line of a row.
fn append_row(text: &mut Vec<u8>, key: &[u8], count: Count) -> Result<(), NoMemory>
    ensures { OnOk result (text.new.items ≡ text.old.items ++ row_text (row_at key.now count)) }
{
    let mut digits = Buffer::new();
    text.extend_from_slice(digits.format(count.count).as_bytes())?;
    text.extend_from_slice(b" ")?;
    append_verdicts(text, before(b'\n', key), after(b'\n', key))?;
    append_first(text, count.first)
}

/// Appends the number of the first request of a row.
fn append_first(text: &mut Vec<u8>, first: u64) -> Result<(), NoMemory>
    ensures { OnOk result (text.new.items
        ≡ text.old.items ++ (codes ", first " ++ (decimal first ++ codes "\n"))) }
{
    let mut digits = Buffer::new();
    text.extend_from_slice(b", first ")?;
    text.extend_from_slice(digits.format(first).as_bytes())?;
    text.extend_from_slice(b"\n")?;
    Ok(())
}

/// Appends what is told of two verdicts.
fn append_verdicts(text: &mut Vec<u8>, old: &[u8], new: &[u8]) -> Result<(), NoMemory>
    ensures { OnOk result (text.new.items ≡ text.old.items ++ verdicts_text old.now new.now) }
{
    text.extend_from_slice(old)?;
    if old == new {
        text.extend_from_slice(b", other lines")?;
    } else {
        text.extend_from_slice(b" -> ")?;
        text.extend_from_slice(new)?;
    }
    Ok(())
}
