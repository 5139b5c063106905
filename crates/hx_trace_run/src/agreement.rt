ghost use Rattle.std.specs.Prelude.{◌≡◌, ◌≤◌, [], length};
ghost use Rattle.hx_trace_run.specs.Comparing.{common_length, line_feeds};
ghost use Rattle.hx_trace_run.specs.AgreementView.{agreement_after, agreement_of, finding_at};

use std::marker::Model;

/// What is found of a trace and the text that it should be.
#[derive(Clone, Copy, PartialEq, Eq)]
pub enum Finding {
    /// they are the same
    Same,
    /// they differ, in this line first, counted from 1
    Differs { line: u64 },
}

/// A trace beside the text that it should be, of which the answers come one after the other.
/// Contracts see the trace, how many of its bytes the text so far has in common with it, and
/// whether there are more in the text.
#[derive(Drop)]
pub(crate) struct Agreement {
    trace: Vec<u8>,
    agreed: usize,
    differs: bool,
}

impl Model for Agreement {
    ghost use Rattle.std.specs.Prelude.{◌≤◌, length};
    ghost use Rattle.hx_trace_run.specs.AgreementView.{Agreement};

    ghost Value = { Agreement };

    ghost view = { λ agreement. record {
      trace = agreement.trace.items;
      agreed = agreement.agreed;
      differs = agreement.differs;
    } };

    ghost invariant = { λ agreement. agreement.agreed ≤ length agreement.trace.items };
}

impl Agreement {
    /// A trace beside the empty text.
    pub(crate) fn new(trace: Vec<u8>) -> Agreement
        ensures { result ≡ agreement_of trace.items [] }
    {
        Agreement {
            trace,
            agreed: 0,
            differs: false,
        }
    }

    /// The text goes on with this answer.
    pub(crate) fn go_on(&mut self, answer: &[u8])
        ensures { self.new ≡ agreement_after self.old answer.now }
    {
        if self.differs {
            return;
        }
        let (_, rest) = self.trace.split_at(self.agreed);
        let common = common_length(rest, answer);
        self.agreed += common;
        self.differs = common < answer.len();
    }

    /// What is found where the text ends here.
    pub(crate) fn finding(&self) -> Finding
        ensures { result ≡ finding_at self.now }
    {
        if self.differs || self.agreed < self.trace.len() {
            let agreed = &self.trace[..self.agreed];
            Finding::Differs {
                line: line_feeds(agreed) as u64 + 1,
            }
        } else {
            Finding::Same
        }
    }
}

/// How many bytes two texts have in common at their beginning.
fn common_length(text: &[u8], other: &[u8]) -> usize
    ensures common { result ≡ common_length text.now other.now }
    ensures within { result ≤ length text.now }
{
    let mut rest = text;
    let mut other_rest = other;
    let mut common = 0usize;
    while let [b, more @ ..] = rest {
        let [c, other_more @ ..] = other_rest else {
            return common;
        };
        if b != c {
            return common;
        }
        common += 1;
        rest = more;
        other_rest = other_more;
    }
    common
}

/// How many line feeds a text has.
fn line_feeds(text: &[u8]) -> usize
    ensures { result ≡ line_feeds text.now }
{
    let mut count = 0usize;
    for b in text {
        if *b == b'\n' {
            count += 1;
        }
    }
    count
}
