use hx_text::By;
use std::marker::Model;

/// A way to search a reference: the match method, whether case is ignored, the position of the
/// reference, and that of the use among those of the reference.
#[derive(Clone, Copy)]
pub(crate) struct KeptHead {
    pub(crate) by: By,
    pub(crate) ci: bool,
    pub(crate) list: u32,
    pub(crate) place: usize,
}

impl Model for KeptHead {
    ghost use Rattle.hx_refs.specs.Kept.{PlacedHead};

    ghost Value = { PlacedHead };

    ghost view = { λ known. record {
      head = record { by = known.by; ci = known.ci; list = known.list };
      place = known.place;
    } };

    ghost inverse = { λ known. record {
      by = known.head.by;
      ci = known.head.ci;
      list = known.head.list;
      place = known.place;
    } };
}
