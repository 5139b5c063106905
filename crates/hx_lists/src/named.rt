ghost use Rattle.std.specs.Prelude.{◌≡◌, List, ℕ, map};
ghost use Rattle.std.specs.List.{after_first};
ghost use Rattle.std.specs.Option.{option_copied};
ghost use Rattle.std.specs.Iterator.{YieldsFirstBy, item_count};
ghost use Rattle.memchr.specs.Find.{is_byte3};
ghost use Rattle.hx_lists.specs.NamedValues.{begins_params, separates_params};
ghost use Rattle.hx_lists.specs.NamedValues.{cookies, is_named, params, trimmed_pair, value_named};

use crate::blanks::trim_blanks;
use crate::pairs::{Pairs, Separators};
use memchr::memchr2;
use std::marker::Model;

/// The cookies of a line that are left to give. Contracts see it as their list, each a name and a
/// value.
#[derive(Drop)]
pub struct Cookies<'a> {
    pairs: Pairs<'a>,
}

impl<'a> Model for Cookies<'a> {
    ghost Value = { List (List ℕ × List ℕ) };

    ghost view = { λ cookies. map trimmed_pair cookies.pairs };
}

impl<'a> Cookies<'a> {
    pub(crate) fn of_line(line: &'a [u8]) -> Cookies<'a>
        ensures { result ≡ cookies line.now }
    {
        Cookies {
            pairs: Pairs::new(line, Separators(b';', b';', b';')),
        }
    }

    /// Gives the value of the first cookie of a name among those that are left, if there is one. It
    /// and those before it are then given, and without such a cookie all are. The case of letters
    /// counts. Cookies of other names cost less here than where `next` gives them.
    pub fn next_named(&mut self, name: &[u8]) -> Option<&'a [u8]>
        ensures value { option_copied result ≡ value_named name.now self.old }
        ensures left { self.new ≡ after_first (is_named name.now) self.old }
    {
        self.pairs.next_trimmed(name)
    }
}

impl<'a> Iterator for Cookies<'a> {
    type Item = (&'a [u8], &'a [u8]);

    ghost next_gives = { YieldsFirstBy (λ pair. (pair.0.now, pair.1.now)) (λ left. left) };

    ghost remaining = { item_count (λ left. left) };

    fn next(&mut self) -> Option<(&'a [u8], &'a [u8])> {
        let (name, value) = self.pairs.next()?;
        Some((trim_blanks(name), trim_blanks(value)))
    }
}

/// The parameters of a target that are left to give. Contracts see it as their list, each a name
/// and a value.
#[derive(Drop)]
pub struct Params<'a> {
    pairs: Pairs<'a>,
}

impl<'a> Model for Params<'a> {
    ghost Value = { List (List ℕ × List ℕ) };

    ghost view = { λ params. params.pairs };
}

impl<'a> Params<'a> {
    pub(crate) fn of_target(target: &'a [u8], delim: Option<u8>) -> Params<'a>
        ensures { result ≡ params target.now delim }
    {
        Params {
            pairs: Pairs::new(params_text(target, delim), params_separators(delim)),
        }
    }
}

/// What follows the first byte that begins parameters, or nothing where there is none.
fn params_text(target: &[u8], delim: Option<u8>) -> &[u8]
    ensures { result.now ≡ after_first (begins_params delim) target.now }
{
    match memchr2(b'?', delim.unwrap_or(b'?'), target) {
        Some(at) => &target[at + 1..],
        None => &[],
    }
}

/// The bytes that stand between parameters.
fn params_separators(delim: Option<u8>) -> Separators
    ensures { is_byte3 result.0 result.1 result.2 ≡ separates_params delim }
{
    Separators(b'&', b';', delim.unwrap_or(b'&'))
}

impl<'a> Iterator for Params<'a> {
    type Item = (&'a [u8], &'a [u8]);

    ghost next_gives = { YieldsFirstBy (λ pair. (pair.0.now, pair.1.now)) (λ left. left) };

    ghost remaining = { item_count (λ left. left) };

    fn next(&mut self) -> Option<(&'a [u8], &'a [u8])> {
        self.pairs.next()
    }
}
