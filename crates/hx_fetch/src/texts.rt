ghost use Rattle.std.specs.Prelude.{◌≡◌, ℕ, Option, List, [], ◌∷◌, ◌++◌, true, IfSome, IfNone};
ghost use Rattle.std.specs.Iterator.{YieldsFirstBy, item_count};
ghost use Rattle.std.specs.List.{flat_map};
ghost use Rattle.std.specs.Option.{option_copied, option_map_or};
ghost use Rattle.std.specs.Str.{bytes_eq};
ghost use Rattle.hx_lists.specs.HeaderValues.{hdr_values};
ghost use Rattle.hx_fetch.specs.Views.{source_texts, texts_of_line, texts_of_rest, values_under};

use crate::lines::Lines;
use hx_http::Message;
use hx_lists::{Cookies, HdrValues, Params, cookies, cut_blanks, hdr_values, params};
use hx_text::cut_at;
use std::marker::Model;

/// Where the texts of a fetch stand in a request. The name is that of the header, the cookie or the
/// parameter; where there is none, all of them are meant.
#[derive(Clone, Copy)]
pub(crate) enum TextSource<'f, 'w> {
    Lines(&'w Message, Option<&'f [u8]>),
    Values(&'w Message, Option<&'f [u8]>),
    Cookies(&'w Message, Option<&'f [u8]>),
    Params(&'w Message, Option<&'f [u8]>, Option<u8>),
}

/// What a header line is cut into.
#[derive(Clone, Copy)]
pub(crate) enum LineForm {
    Whole,
    Values,
    Cookies,
}

/// What is left of the line, or of the target, whose texts are being given.
#[derive(Drop)]
pub(crate) enum LineRest<'w> {
    Line(Option<&'w [u8]>),
    Values(HdrValues<'w>),
    Cookies(Cookies<'w>),
    Params(Params<'w>),
}

fn is_pair_name(pair_name: &[u8], name: Option<&[u8]>) -> bool
    ensures { result ≡ option_map_or (bytes_eq pair_name.now) (option_copied name.entry) true }
{
    match name {
        Some(name) => pair_name == name,
        None => true,
    }
}

pub(crate) fn next_cookie<'w>(pairs: &mut Cookies<'w>, name: Option<&[u8]>) -> Option<&'w [u8]>
    ensures some { IfSome result (λ value. values_under (option_copied name.entry) pairs.old
        ≡ value.now ∷ values_under (option_copied name.entry) pairs.new) }
    ensures none { IfNone result (values_under (option_copied name.entry) pairs.old ≡ []) }
    ensures left { IfNone result (pairs.new ≡ []) }
{
    match name {
        Some(name) => pairs.next_named(name),
        None => {
            let (_, value) = pairs.next()?;
            Some(value)
        }
    }
}

fn next_param<'w>(pairs: &mut Params<'w>, name: Option<&[u8]>) -> Option<&'w [u8]>
    ensures some { IfSome result (λ value. values_under (option_copied name.entry) pairs.old
        ≡ value.now ∷ values_under (option_copied name.entry) pairs.new) }
    ensures none { IfNone result (values_under (option_copied name.entry) pairs.old ≡ []) }
    ensures left { IfNone result (pairs.new ≡ []) }
{
    while let Some((found, value)) = pairs.next() {
        if is_pair_name(found, name) {
            return Some(value);
        }
    }
    None
}

/// The value of a header line without a comma, which has no other, and none where there is a comma.
/// It saves a walk over the line byte by byte.
#[tactic(auto, using(crate::proofs::LastLemmas::value_without_comma))]
pub(crate) fn lone_value(line: &[u8]) -> Option<&[u8]>
    ensures { IfSome result (λ value. hdr_values line.now ≡ value.now ∷ []) }
{
    match cut_at(b',', line) {
        Some(_) => None,
        None => {
            let (_, value, _) = cut_blanks(line);
            Some(value)
        }
    }
}

impl<'w> LineRest<'w> {
    fn of_line(line: &'w [u8], form: LineForm) -> LineRest<'w>
        ensures { (name : Option (List ℕ)) →
            texts_of_rest name result ≡ texts_of_line form name line.now }
    {
        match form {
            LineForm::Whole => LineRest::Line(Some(line)),
            LineForm::Values => match lone_value(line) {
                Some(value) => LineRest::Line(Some(value)),
                None => LineRest::Values(hdr_values(line)),
            },
            LineForm::Cookies => LineRest::Cookies(cookies(line)),
        }
    }

    /// Gives the first text that is left; of cookies and parameters, the first of the name.
    fn next(&mut self, name: Option<&[u8]>) -> Option<&'w [u8]>
        ensures some { IfSome result (λ text. texts_of_rest (option_copied name.entry) self.old
            ≡ text.now ∷ texts_of_rest (option_copied name.entry) self.new) }
        ensures none { IfNone result (texts_of_rest (option_copied name.entry) self.old ≡ []) }
        ensures left { IfNone result (texts_of_rest (option_copied name.entry) self.new ≡ []) }
    {
        match self {
            LineRest::Line(line) => line.take(),
            LineRest::Values(values) => values.next(),
            LineRest::Cookies(pairs) => next_cookie(pairs, name),
            LineRest::Params(pairs) => next_param(pairs, name),
        }
    }
}

/// The texts of a source that are left to give. Contracts see it as their list.
#[derive(Drop)]
pub(crate) struct TextReader<'f, 'w> {
    rest: LineRest<'w>,
    form: LineForm,
    name: Option<&'f [u8]>,
    lines: Lines<'f, 'w>,
}

impl<'f, 'w> Model for TextReader<'f, 'w> {
    ghost use Rattle.std.specs.Prelude.{List, ℕ};
    ghost use Rattle.std.specs.Option.{option_copied};

    ghost Value = { List (List ℕ) };

    ghost use Rattle.hx_fetch.specs.Views.{texts_of_reader};

    ghost view = { λ texts.
        texts_of_reader (option_copied texts.name) texts.rest texts.form texts.lines };
}

/// The texts of all lines of a header.
fn of_lines<'f, 'w>(
    lines: Lines<'f, 'w>,
    form: LineForm,
    name: Option<&'f [u8]>,
) -> TextReader<'f, 'w>
    ensures { result ≡ flat_map (texts_of_line form (option_copied name.entry)) lines.entry }
{
    TextReader {
        rest: LineRest::Line(None),
        form,
        name,
        lines,
    }
}

impl<'f, 'w> TextReader<'f, 'w> {
    /// All texts of a source.
    pub(crate) fn new(source: TextSource<'f, 'w>) -> TextReader<'f, 'w>
        ensures { result ≡ source_texts source.entry }
    {
        match source {
            TextSource::Lines(message, name) => of_lines(
                Lines::new(message, name),
                LineForm::Whole,
                None,
            ),
            TextSource::Values(message, name) => of_lines(
                Lines::new(message, name),
                LineForm::Values,
                None,
            ),
            TextSource::Cookies(message, name) => {
                of_lines(
                    Lines::new(message, Some(b"Cookie")),
                    LineForm::Cookies,
                    name,
                )
            }
            TextSource::Params(message, name, delim) => TextReader {
                rest: LineRest::Params(params(message.target(), delim)),
                form: LineForm::Whole,
                name,
                lines: Lines::none(message),
            },
        }
    }
}

impl<'f, 'w> Iterator for TextReader<'f, 'w> {
    type Item = &'w [u8];

    ghost next_gives = { YieldsFirstBy (λ text. text.now) (λ left. left) };

    ghost remaining = { item_count (λ left. left) };

    fn next(&mut self) -> Option<&'w [u8]> {
        loop {
            if let Some(text) = self.rest.next(self.name) {
                return Some(text);
            }
            let line = self.lines.next()?;
            self.rest = LineRest::of_line(line, self.form);
        }
    }
}
