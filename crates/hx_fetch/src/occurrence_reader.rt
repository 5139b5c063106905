ghost use Rattle.std.specs.Prelude.{◌≡◌, [], ◌∷◌, false, option_map, IfNone, IfOk, IfSome, IsOk};
ghost use Rattle.std.specs.Iterator.{YieldsFirstBy, item_count};
ghost use Rattle.std.specs.Option.{option_copied, option_to_list};
ghost use Rattle.hx_sample.specs.Seen.{occurrence_value};
ghost use Rattle.hx_fetch.specs.Fetches.{is_copied, occurrences_of, text_occurrences};
ghost use Rattle.hx_fetch.specs.ReaderView.{left_occurrences};
ghost use Rattle.hx_fetch.specs.Views.{query_occurrences};
ghost use Rattle.hx_fetch.specs.World.{context_of};

use crate::lookup::{TextQuery, has_one_occurrence, sole_occurrence, text_query};
use crate::texts::TextReader;
use crate::walks::{pick, read_text};
use crate::world::World;
use hx_ast::Fetch;
use hx_sample::Sample;
use hx_text::{Kind, NoMemory};
use std::alloc::Global;
use std::marker::Model;

/// What is left of the occurrences of a fetch: one, where it wasn't given yet, or those that texts
/// are as values of a kind.
#[derive(Drop)]
pub(crate) enum Left<'f, 'w> {
    One(Option<Option<Sample<'w>>>),
    Texts(TextReader<'f, 'w>),
}

/// The text as an occurrence of a kind, if there is a text.
fn picked<'w>(alloc: Global, text: Option<&'w [u8]>, kind: Kind) -> Option<Option<Sample<'w>>>
    ensures { option_to_list (option_map occurrence_value result)
        ≡ text_occurrences kind (option_to_list (option_copied text.entry)) }
{
    match text {
        Some(text) => Some(read_text(alloc, text, kind)),
        None => None,
    }
}

impl<'f, 'w> Left<'f, 'w> {
    /// Gives the first occurrence that is left; of texts, as a value of the kind `kind`.
    fn next(&mut self, alloc: Global, kind: Kind) -> Option<Option<Sample<'w>>>
        ensures some { IfSome result (λ occurrence. left_occurrences kind self.old
            ≡ occurrence_value occurrence ∷ left_occurrences kind self.new) }
        ensures none { IfNone result (left_occurrences kind self.old ≡ []) }
        ensures left { IfNone result (left_occurrences kind self.new ≡ []) }
    {
        match self {
            Left::One(occurrence) => occurrence.take(),
            Left::Texts(texts) => match texts.next() {
                Some(text) => Some(read_text(alloc, text, kind)),
                None => None,
            },
        }
    }
}

/// The occurrences of a fetch that are left to give, each a sample or none, in their order: those
/// that `occurrences` lists, without a list of them. Contracts see it as the list of their values.
///
/// An occurrence is looked for when it is asked for, so those that nobody asks for cost nothing,
/// and the memory that is held doesn't grow with their number: bytes are lent from the message and
/// the variables, but for those of an argument and of `base`, which are copied.
#[derive(Drop)]
pub struct OccurrenceReader<'f, 'w> {
    alloc: Global,
    kind: Kind,
    left: Left<'f, 'w>,
}

impl<'f, 'w> Model for OccurrenceReader<'f, 'w> {
    ghost use Rattle.std.specs.Prelude.{List, Option};
    ghost use Rattle.hx_sample.specs.declared.sample.Value.{Value as Datum};

    ghost Value = { List (Option Datum) };

    ghost use Rattle.hx_fetch.specs.ReaderView.{left_occurrences};

    ghost view = { λ reader. left_occurrences reader.kind reader.left };
}

impl<'f, 'w> OccurrenceReader<'f, 'w> {
    /// All occurrences of `fetch` in `world` (HAProxy configuration manual 2.4, sections 7.3.2 to
    /// 7.3.6). It fails only where memory runs out, which it can only for an argument and for
    /// `base` where there is a path.
    pub fn new(
        alloc: Global,
        fetch: &'f Fetch,
        world: &World<'w>,
    ) -> Result<OccurrenceReader<'f, 'w>, NoMemory>
        ensures value { IfOk result (λ reader.
            reader ≡ occurrences_of fetch.now (context_of world.now)) }
        ensures no_memory { is_copied fetch.now (context_of world.now) ≡ false → IsOk result }
    {
        if has_one_occurrence(fetch) {
            let occurrence = sole_occurrence(alloc, fetch, world)?;
            return Ok(OccurrenceReader {
                alloc,
                kind: Kind::Any,
                left: Left::One(Some(occurrence)),
            });
        }
        Ok(OccurrenceReader::of_texts(alloc, text_query(fetch, world)))
    }

    /// All occurrences that a fetch about texts leads to.
    fn of_texts(alloc: Global, query: TextQuery<'f, 'w>) -> OccurrenceReader<'f, 'w>
        ensures { result ≡ query_occurrences query.entry }
    {
        let left = match query.at {
            None => Left::Texts(TextReader::new(query.source)),
            Some(at) => Left::One(picked(alloc, pick(query.source, at), query.kind)),
        };
        OccurrenceReader {
            alloc,
            kind: query.kind,
            left,
        }
    }
}

impl<'f, 'w> Iterator for OccurrenceReader<'f, 'w> {
    type Item = Option<Sample<'w>>;

    ghost next_gives = { YieldsFirstBy (λ occurrence. occurrence_value occurrence) (λ left. left) };

    ghost remaining = { item_count (λ left. left) };

    fn next(&mut self) -> Option<Option<Sample<'w>>> {
        self.left.next(self.alloc, self.kind)
    }
}
