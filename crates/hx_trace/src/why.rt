ghost use Rattle.std.specs.Prelude.{◌≡◌, IfOk, length, map, slice_get};
ghost use Rattle.std.specs.Option.{option_copied};
ghost use Rattle.hx_trace.specs.Why.{reason_of, told_why};

use crate::explaining::Cause;
use hx_acl::Ground;
use hx_text::NoMemory;
use std::alloc::Global;
use std::marker::Model;

/// What a term of a condition holds by (HAProxy configuration manual 2.4, sections 7.1 and 7.2; the
/// numbers as in the management guide 2.4, section 9.3, `show acl`).
#[derive(Clone, Copy, Debug, PartialEq, Eq)]
pub enum Reason {
    /// the term is negated, and its ACL doesn't hold
    Not,
    /// the sample alone: by `found` or by `bool`, or as a predefined ACL says
    True,
    /// the entry of this number, which the sample finds in the reference of the number `id`
    Hit { id: u32, number: u64 },
}

/// The reasons of a request, in the order of the terms. Contracts see them as their list.
pub struct Reasons {
    reasons: Vec<Reason>,
}

// Written out, so that letting one go is one call in the proofs of callers.
impl Drop for Reasons {
    fn drop(self) {
        let Reasons { reasons: _reasons } = self;
    }
}

impl Model for Reasons {
    ghost use Rattle.std.specs.Prelude.{List};
    ghost use Rattle.hx_trace.specs.declared.why.Reason.{Reason};

    ghost Value = { List Reason };

    ghost view = { λ reasons. reasons.reasons.items };
}

/// Why a request has its verdict (HAProxy configuration manual 2.4, sections 4.2 and 7.2).
pub struct Why {
    /// the number of the line of the statement that decided, counted from 1, or 0 where none did
    pub line: u64,
    /// the first conjunction of its condition that held, counted from 1; 0 where it has none, where
    /// it is taken with `unless`, and where no statement decided
    pub conj: u32,
    /// what each term of that conjunction held by
    pub reasons: Reasons,
}

// Written out, so that letting one go is one call in the proofs of callers.
impl Drop for Why {
    fn drop(self) {
        let Why {
            line: _line,
            conj: _conj,
            reasons: _reasons,
        } = self;
    }
}

impl Reasons {
    /// How many reasons there are.
    pub fn len(&self) -> usize
        ensures { result ≡ length self.now }
    {
        self.reasons.len()
    }

    /// The reason at the position `i`, counted from 0. None exactly where there are no more than
    /// `i`.
    pub fn get(&self, i: usize) -> Option<&Reason>
        ensures { option_copied result ≡ slice_get self.now i }
    {
        self.reasons.get(i)
    }
}

/// What a term holds by, where `numbers` are those of the references that heads search.
fn reason_of(numbers: &[u32], ground: &Ground) -> Reason
    ensures { result ≡ reason_of numbers.now ground.now }
{
    match ground {
        Ground::Negated => Reason::Not,
        Ground::Sample => Reason::True,
        Ground::Entry { head, number } => Reason::Hit {
            id: numbers.get(*head as usize).copied().unwrap_or(0),
            number: *number,
        },
    }
}

/// What the terms of a conjunction hold by.
fn reasons_of(alloc: Global, numbers: &[u32], grounds: &[Ground]) -> Result<Reasons, NoMemory>
    ensures { IfOk result (λ reasons. reasons ≡ map (reason_of numbers.now) grounds.now) }
{
    let mut reasons = Vec::new(alloc);
    for ground in grounds {
        reasons.push(reason_of(numbers, ground))?;
    }
    Ok(Reasons { reasons })
}

/// What is told of a cause, where `numbers` are those of the references that heads search.
/// `NoMemory` where memory runs out. That is also the answer where the number of the conjunction
/// has no room in 32 bits, as no memory has room for a condition of so many.
pub(crate) fn told_why(alloc: Global, numbers: &[u32], cause: &Cause) -> Result<Why, NoMemory>
    ensures { IfOk result (λ why. why ≡ told_why numbers.now cause.now) }
{
    match &cause.held {
        Some(held) => {
            let Ok(conj) = u32::try_from(held.conj) else {
                return Err(NoMemory);
            };
            Ok(Why {
                line: cause.line,
                conj,
                reasons: reasons_of(alloc, numbers, held.grounds.as_slice())?,
            })
        }
        None => Ok(Why {
            line: cause.line,
            conj: 0,
            reasons: Reasons {
                reasons: Vec::new(alloc),
            },
        }),
    }
}
