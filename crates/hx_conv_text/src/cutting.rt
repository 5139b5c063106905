ghost use Rattle.std.specs.Prelude.{◌≡◌};
ghost use Rattle.hx_sample.specs.Seen.{bytes_of};
ghost use Rattle.hx_conv_text.specs.Converters.{is_lent};
ghost use Rattle.hx_conv_text.specs.Scanning.{bytes_at, LiesWithin};

use hx_sample::Bytes;
use hx_text::Octets;

/// The bytes in the span. Lent bytes stay where they are, and owned ones keep their memory.
pub(crate) fn cut<'a>(text: Bytes<'a>, span: (usize, usize)) -> Bytes<'a>
    requires { LiesWithin (bytes_of text) span }
    ensures value { bytes_of result ≡ bytes_at (bytes_of text.entry) span }
    ensures lent { is_lent result ≡ is_lent text.entry }
{
    match text {
        Bytes::Lent(text) => Bytes::Lent(&text[span.0..span.1]),
        Bytes::Own(text) => Bytes::Own(cut_owned(text, span)),
    }
}

#[tactic(auto, using(crate::proofs::SpanLemmas::moved))]
fn cut_owned(text: Octets, span: (usize, usize)) -> Octets
    requires { LiesWithin text span }
    ensures { result ≡ bytes_at text span }
{
    let mut bytes = text.into_vec();
    bytes.copy_within(span.0..span.1, 0);
    bytes.truncate(span.1 - span.0);
    Octets::from_vec(bytes)
}
