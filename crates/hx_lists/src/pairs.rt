ghost use Rattle.std.specs.Prelude.{◌≡◌, ◌==◌, ◌<◌, [], ◌∷◌, List, ℕ, IfSome, is_some, length, map};
ghost use Rattle.std.specs.List.{after_first, list_any, slice_split};
ghost use Rattle.std.specs.Option.{option_copied, option_map_or};
ghost use Rattle.std.specs.Iterator.{YieldsFirstBy, item_count};
ghost use Rattle.hx_base.specs.Bytes.{ascii};
ghost use Rattle.memchr.specs.Find.{IsFirstByte, is_byte3};
ghost use Rattle.hx_lists.specs.NamedValues.{is_named, named_value, named_values};
ghost use Rattle.hx_lists.specs.NamedValues.{trimmed_pair, value_named};
ghost use Rattle.hx_lists.specs.PieceValues.{value_of_piece};

use crate::blanks::{trim_blanks, without_first_blanks};
use memchr::{memchr, memchr3};
use std::marker::Model;

/// Three bytes at which a text is cut; some may be equal.
#[derive(Clone, Copy)]
pub(crate) struct Separators(pub u8, pub u8, pub u8);

/// The named values of a text that are left to give. Contracts see it as their list.
#[derive(Drop)]
pub(crate) struct Pairs<'a> {
    rest: Option<&'a [u8]>,
    separators: Separators,
}

impl<'a> Model for Pairs<'a> {
    ghost Value = { List (List ℕ × List ℕ) };

    ghost view = { λ pairs. let s = pairs.separators in
        option_map_or (named_values (is_byte3 s.0 s.1 s.2)) (option_copied pairs.rest) [] };
}

impl<'a> Pairs<'a> {
    pub(crate) fn new(text: &'a [u8], separators: Separators) -> Pairs<'a>
        ensures { result ≡ named_values (is_byte3 separators.0 separators.1 separators.2) text.now }
    {
        Pairs {
            rest: Some(text),
            separators,
        }
    }

    /// Gives the value of the first pair that is left and has the name, where names and values are
    /// seen without the blanks at their ends. It and the pairs before it are then given.
    pub(crate) fn next_trimmed(&mut self, name: &[u8]) -> Option<&'a [u8]>
        ensures value { option_copied result
            ≡ value_named name.now (map trimmed_pair self.old) }
        ensures left { map trimmed_pair self.new
            ≡ after_first (is_named name.now) (map trimmed_pair self.old) }
    {
        while let Some(text) = self.rest {
            let (piece, rest) = first_piece(text, self.separators);
            self.rest = rest;
            if let Some(value) = value_of_piece(piece, name) {
                return Some(value);
            }
        }
        None
    }
}

impl<'a> Iterator for Pairs<'a> {
    type Item = (&'a [u8], &'a [u8]);

    ghost next_gives = { YieldsFirstBy (λ pair. (pair.0.now, pair.1.now)) (λ left. left) };

    ghost remaining = { item_count (λ left. left) };

    fn next(&mut self) -> Option<(&'a [u8], &'a [u8])> {
        while let Some(text) = self.rest {
            let (piece, rest) = first_piece(text, self.separators);
            self.rest = rest;
            if let Some(pair) = named_value(piece) {
                return Some(pair);
            }
        }
        None
    }
}

/// What stands before the first separator, and what follows that separator, if there is one. It is
/// inlined, as its answer is five words.
#[inline(always)]
fn first_piece<'a>(text: &'a [u8], separators: Separators) -> (&'a [u8], Option<&'a [u8]>)
    ensures pieces { slice_split (is_byte3 separators.0 separators.1 separators.2) text.now
        ≡ result.0.now ∷ option_map_or
        (slice_split (is_byte3 separators.0 separators.1 separators.2))
        (option_copied result.1) [] }
    ensures shorter { IfSome result.1 (λ rest. length rest.now < length text.now) }
{
    match first_separator(text, separators) {
        Some(at) => (&text[..at], Some(&text[at + 1..])),
        None => (text, None),
    }
}

/// The position of the first separator.
#[inline(always)]
fn first_separator(text: &[u8], separators: Separators) -> Option<usize>
    ensures { IsFirstByte (is_byte3 separators.0 separators.1 separators.2) text.now result }
{
    let Separators(first, second, third) = separators;
    if second == first && third == first {
        return memchr(first, text);
    }
    memchr3(first, second, third, text)
}

/// What stands before the first `=` and what follows it, if there is one.
fn named_value<'a>(piece: &'a [u8]) -> Option<(&'a [u8], &'a [u8])>
    ensures named { is_some result ≡ list_any (λ b. b == ascii "=") piece.now }
    ensures parts { IfSome result (λ pair. (pair.0.now, pair.1.now) ≡ named_value piece.now) }
{
    match memchr(b'=', piece) {
        Some(at) => Some((&piece[..at], &piece[at + 1..])),
        None => None,
    }
}

/// The value of the pair that a piece is, if it is one and has the name, both without the blanks at
/// their ends. Most pieces show by what they begin with that they have another name.
fn value_of_piece<'a>(piece: &'a [u8], name: &[u8]) -> Option<&'a [u8]>
    ensures { option_copied result ≡ value_of_piece name.now piece.now }
{
    if !without_first_blanks(piece).starts_with(name) {
        return None;
    }
    let (found, value) = named_value(piece)?;
    if trim_blanks(found) != name {
        return None;
    }
    Some(trim_blanks(value))
}
