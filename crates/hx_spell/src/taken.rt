use hx_text::Octets;
use std::marker::Model;

/// What is read of the first of some words, and the words after them.
#[derive(Drop)]
pub(crate) struct Taken<'a, T> {
    pub(crate) item: T,
    pub(crate) words: &'a [Octets],
}

impl<'a, T> Model for Taken<'a, T> {
    ghost use Rattle.hx_spell.specs.Actions.{Taken};

    ghost Value = { Taken T };

    ghost view = { λ taken. record { item = taken.item; words = taken.words.now } };
}
