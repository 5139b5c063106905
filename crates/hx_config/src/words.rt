ghost use Rattle.std.specs.Prelude.{◌≡◌, ◌++◌, ◌∷◌, [], IfOk, OnOk};
ghost use Rattle.hx_config.specs.Fates.{same_words};
ghost use Rattle.hx_config.specs.Tables.{texts_in};

use hx_text::{NoMemory, Octets};
use std::alloc::Global;

/// Appends a copy of a word.
pub(crate) fn push(alloc: Global, out: &mut Vec<Octets>, word: &[u8]) -> Result<(), NoMemory>
    ensures { OnOk result (out.new.items ≡ out.old.items ++ word.now ∷ []) }
{
    out.push(Octets::copy(alloc, word)?)?;
    Ok(())
}

/// Appends words of these texts.
pub(crate) fn push_texts(
    alloc: Global,
    out: &mut Vec<Octets>,
    texts: &[&[u8]],
) -> Result<(), NoMemory>
    ensures { OnOk result (out.new.items ≡ out.old.items ++ texts_in texts.now) }
{
    let mut rest = texts;
    while let [text, others @ ..] = rest {
        push(alloc, out, text)?;
        rest = others;
    }
    Ok(())
}

/// Appends copies of these words.
pub(crate) fn push_all(
    alloc: Global,
    out: &mut Vec<Octets>,
    words: &[Octets],
) -> Result<(), NoMemory>
    ensures { OnOk result (out.new.items ≡ out.old.items ++ words.now) }
{
    let mut rest = words;
    while let [word, others @ ..] = rest {
        push(alloc, out, word.as_slice())?;
        rest = others;
    }
    Ok(())
}

/// Copies of these words.
pub(crate) fn copied(alloc: Global, words: &[Octets]) -> Result<Vec<Octets>, NoMemory>
    ensures { IfOk result (λ copies. copies.items ≡ words.now) }
{
    let mut out = Vec::new(alloc);
    push_all(alloc, &mut out, words)?;
    Ok(out)
}

/// Whether two lists of words are the same.
pub(crate) fn same_words(words: &[Octets], others: &[Octets]) -> bool
    ensures { result ≡ same_words words.now others.now }
{
    let mut left = words;
    let mut right = others;
    while let [word, words_after @ ..] = left {
        let [other, others_after @ ..] = right else {
            return false;
        };
        if word.as_slice() != other.as_slice() {
            return false;
        }
        left = words_after;
        right = others_after;
    }
    right.is_empty()
}

/// Appends a word that is three texts joined.
pub(crate) fn push_joined(
    alloc: Global,
    out: &mut Vec<Octets>,
    first: &[u8],
    second: &[u8],
    third: &[u8],
) -> Result<(), NoMemory>
    ensures { OnOk result (out.new.items
        ≡ out.old.items ++ (first.now ++ second.now ++ third.now) ∷ []) }
{
    let mut word = Vec::new(alloc);
    word.extend_from_slice(first)?;
    word.extend_from_slice(second)?;
    word.extend_from_slice(third)?;
    out.push(Octets::from_vec(word))?;
    Ok(())
}
