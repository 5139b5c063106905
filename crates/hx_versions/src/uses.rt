ghost use Rattle.std.specs.Prelude.{◌≡◌, slice_get, option_map};
ghost use Rattle.hx_versions.specs.Uses.{use_parts, use_place, use_with, uses_in_order};

use hx_text::By;
use std::marker::Model;

/// A use of a reference: the match method, whether case is ignored, and the number of the head.
#[derive(Clone, Copy)]
pub struct KeptUse {
    pub by: By,
    pub ci: bool,
    pub head: u32,
}

impl Model for KeptUse {
    ghost use Rattle.hx_versions.specs.Uses.{Use};

    ghost Value = { Use };

    ghost view = { λ u. record { by = u.by; ci = u.ci; head = u.head } };

    ghost inverse = { λ u. record { by = u.by; ci = u.ci; head = u.head } };
}

/// The place of a use in the order in which uses are told.
fn use_place(by: By, ci: bool) -> u32
    ensures { result ≡ use_place by ci }
{
    if ci {
        2 * by.number() + 1
    } else {
        2 * by.number()
    }
}

/// The first of the uses by the method `by` and the case `ci`. None exactly where there is none.
pub fn use_with(uses: &[KeptUse], by: By, ci: bool) -> Option<KeptUse>
    ensures { result ≡ use_with by ci uses.now }
{
    let place = use_place(by, ci);
    let mut rest = uses;
    while let [kept, others @ ..] = rest {
        let kept = *kept;
        if use_place(kept.by, kept.ci) == place {
            return Some(kept);
        }
        rest = others;
    }
    None
}

/// The methods and cases, in the order in which uses are told.
const WAYS: [(By, bool); 22] = [
    (By::Int, false),
    (By::Int, true),
    (By::Ip, false),
    (By::Ip, true),
    (By::Bin, false),
    (By::Bin, true),
    (By::Len, false),
    (By::Len, true),
    (By::Str, false),
    (By::Str, true),
    (By::Beg, false),
    (By::Beg, true),
    (By::End, false),
    (By::End, true),
    (By::Sub, false),
    (By::Sub, true),
    (By::Dir, false),
    (By::Dir, true),
    (By::Dom, false),
    (By::Dom, true),
    (By::Reg, false),
    (By::Reg, true),
];

/// The use at a place in the order in which uses are told, by its parts: the method, the case and
/// the head. None exactly where there are no more uses than `place`.
pub fn use_in_order(uses: &[KeptUse], place: u32) -> Option<(By, bool, u32)>
    ensures { result ≡ option_map use_parts (slice_get (uses_in_order uses.now) place) }
{
    let mut left = place;
    let mut rest: &[(By, bool)] = &WAYS;
    while let [(by, ci), others @ ..] = rest {
        if let Some(kept) = use_with(uses, *by, *ci) {
            if left == 0 {
                return Some((kept.by, kept.ci, kept.head));
            }
            left -= 1;
        }
        rest = others;
    }
    None
}
