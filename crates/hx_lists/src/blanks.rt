ghost use Rattle.std.specs.Prelude.{◌≡◌, ◌≤◌, drop, length};
ghost use Rattle.std.specs.List.{prefix_len, suffix_len};
ghost use Rattle.hx_base.specs.Bytes.{is_blank};
ghost use Rattle.hx_lists.specs.Blanks.{first_blanks, last_blanks, trim_blanks};

fn is_blank(byte: u8) -> bool
    ensures { result ≡ is_blank byte }
{
    byte == b' ' || byte == b'\t'
}

#[tactic(auto, using(std::proofs::lemmas::Grind::common_steps, crate::proofs::EndLemmas::ends))]
fn leading_blanks(bytes: &[u8]) -> usize
    ensures value { result ≡ prefix_len is_blank bytes.now }
    ensures within { result ≤ length bytes.now }
{
    bytes.iter().take_while(|b| is_blank(**b)).count()
}

#[tactic(auto, using(std::proofs::lemmas::Grind::common_steps, crate::proofs::EndLemmas::ends))]
fn trailing_blanks(bytes: &[u8]) -> usize
    ensures value { result ≡ suffix_len is_blank bytes.now }
    ensures within { result ≤ length bytes.now }
{
    bytes.iter().rev().take_while(|b| is_blank(**b)).count()
}

/// The bytes without the spaces and tabs that they begin with.
pub(crate) fn without_first_blanks(bytes: &[u8]) -> &[u8]
    ensures { result.now ≡ drop (prefix_len is_blank bytes.now) bytes.now }
{
    &bytes[leading_blanks(bytes)..]
}

/// The bytes without the spaces and tabs at both ends.
pub(crate) fn trim_blanks(bytes: &[u8]) -> &[u8]
    ensures { result.now ≡ trim_blanks bytes.now }
{
    let rest = without_first_blanks(bytes);
    &rest[..rest.len() - trailing_blanks(rest)]
}

/// The bytes in three parts: the spaces and tabs that they begin with, what stands between, and the
/// spaces and tabs that they end with (RFC 9110, section 5.6.3). Where they are spaces and tabs
/// alone, the first part is all of them.
#[tactic(auto, using(crate::proofs::EndLemmas::last_blanks_are))]
pub fn cut_blanks(bytes: &[u8]) -> (&[u8], &[u8], &[u8])
    ensures first { result.0.now ≡ first_blanks bytes.now }
    ensures between { result.1.now ≡ trim_blanks bytes.now }
    ensures last { result.2.now ≡ last_blanks bytes.now }
{
    let (first, rest) = bytes.split_at(leading_blanks(bytes));
    let (between, last) = rest.split_at(rest.len() - trailing_blanks(rest));
    (first, between, last)
}
