//! The words and variables of a machine whose texts lie in memory.
use crate::comparisons::Comparisons;
use hx_program::{
    IndexedTexts, MachineArguments, MachineEntries, MachineFault, arguments, environment,
};
use hx_text::NoMemory;
use std::alloc::Global;
use std::env::FillError;
use std::rt::Env;

/// The longest argument or variable that Linux hands to a program, in bytes, with the NUL at its
/// end.
const MAX_TEXT_LEN: usize = 131_072;

/// Texts in memory, which contracts know.
#[derive(Drop)]
struct MemTexts<'t> {
    texts: &'t [&'t [u8]],
}

impl IndexedTexts for MemTexts<'_> {
    ghost use Rattle.std.specs.Prelude.{Some, map};

    ghost texts = { λ memory. Some (map (λ text. text.now) memory.texts.now) };

    fn text_at(&self, index: usize, buffer: &mut [u8]) -> Result<usize, FillError> {
        let Some(text) = self.texts.get(index) else {
            return Err(FillError::NotPresent);
        };
        if text.len() > buffer.len() {
            return Err(FillError::TooLong);
        }
        buffer[..text.len()].copy_from_slice(text);
        Ok(text.len())
    }
}

impl Env for MemTexts<'_> {
    fn arg(&self, index: usize, buffer: &mut [u8]) -> Result<usize, FillError> {
        self.text_at(index, buffer)
    }

    fn var(&self, _name: &str, _buffer: &mut [u8]) -> Result<usize, FillError> {
        Err(FillError::NotPresent)
    }

    fn var_at(&self, index: usize, buffer: &mut [u8]) -> Result<usize, FillError> {
        self.text_at(index, buffer)
    }
}

/// What a call answers, or none, which is a difference, where a text is refused as too long.
fn within<T: Drop>(
    comparisons: &mut Comparisons,
    answered: Result<T, MachineFault>,
) -> Result<Option<T>, NoMemory> {
    match answered {
        Ok(value) => Ok(Some(value)),
        Err(MachineFault::NoMemory) => Err(NoMemory),
        Err(MachineFault::TooLong) => {
            comparisons.note(false);
            Ok(None)
        }
    }
}

/// Reads the same texts as arguments and as entries of the environment.
pub fn machine_texts(comparisons: &mut Comparisons, alloc: Global) -> Result<(), NoMemory> {
    let texts: [&[u8]; 6] = [b"A=x", b"none", b"B=", b"A=y=z", b"", b"=\xff"];
    let variables: [(&[u8], &[u8]); 4] = [
        (b"A", b"x"),
        (b"B", b""),
        (b"A", b"y=z"),
        (b"", b"\xff"),
    ];
    let memory = MemTexts { texts: &texts };
    if let Some(words) = within(comparisons, arguments(alloc, &MachineArguments(&memory)))? {
        comparisons.note(words.len() == 5);
        for (word, text) in words.iter().zip(&texts[1..]) {
            comparisons.note(word.as_slice() == *text);
        }
    }
    if let Some(pairs) = within(comparisons, environment(alloc, &MachineEntries(&memory)))? {
        comparisons.note(pairs.len() == 4);
        for (pair, (name, value)) in pairs.iter().zip(&variables) {
            comparisons.note(pair.0.as_slice() == *name);
            comparisons.note(pair.1.as_slice() == *value);
        }
    }
    Ok(())
}

/// Reads that many texts, the last of them the longest that is taken, and then one that is refused.
pub fn many_texts(
    comparisons: &mut Comparisons,
    alloc: Global,
    count: usize,
) -> Result<(), NoMemory> {
    let longest = vec![in alloc; b'='; MAX_TEXT_LEN]?;
    let longer = vec![in alloc; b'='; MAX_TEXT_LEN + 1]?;
    let mut texts = vec![in alloc; b"===".as_slice(); count]?;
    texts.push(&longest)?;
    let memory = MemTexts { texts: &texts };
    if let Some(words) = within(comparisons, arguments(alloc, &memory))? {
        comparisons.note(words.len() == count);
        comparisons.note(words.last().map(|word| word.as_slice()) == Some(longest.as_slice()));
    }
    if let Some(pairs) = within(comparisons, environment(alloc, &memory))? {
        comparisons.note(pairs.len() == count.wrapping_add(1));
    }
    texts.push(&longer)?;
    let memory = MemTexts { texts: &texts };
    comparisons.note(arguments(alloc, &memory).err() == Some(MachineFault::TooLong));
    comparisons.note(environment(alloc, &memory).err() == Some(MachineFault::TooLong));
    Ok(())
}
