ghost use Rattle.std.specs.Prelude.{◌≡◌, ◌+◌, ◌≤◌, eqb, IsTrue, [], ◌∷◌, take, length, option_map, unwrap_or, IfSome};
ghost use Rattle.hx_base.specs.Pairs.{pairs_of, value_at};
ghost use Rattle.hx_words.specs.Variable.{variable_of, variable_name, variable_name_length, is_name_byte, plain_name, braced_name};
ghost use Rattle.std.specs.List.{prefix_len, starts_with};

use crate::quoting::first;

/// Reads the bytes after a `$` in double quotes: how many of them name a variable, and its value.
#[tactic(auto, unfolding(crate::specs::Variable::variable_of))]
pub(crate) fn variable<'a>(env: &'a [(Vec<u8>, Vec<u8>)], after: &[u8]) -> Option<(usize, &'a [u8])>
    ensures value { option_map (λ found. (found.0, found.1.now)) result
        ≡ variable_of (pairs_of env.now) after.now }
    ensures within { IfSome result (λ found. found.0 ≤ length after.now) }
{
    let (taken, name) = name_after_dollar(after)?;
    Some((taken, lookup(env, name)))
}

/// The value of the first pair of the name, nothing where there is none.
fn lookup<'a>(env: &'a [(Vec<u8>, Vec<u8>)], name: &[u8]) -> &'a [u8]
    ensures { result.now ≡ unwrap_or (value_at (pairs_of env.now) name.now) [] }
{
    for (known, value) in env {
        if known.as_slice() == name {
            return value.as_slice();
        }
    }
    &[]
}

/// The name that `$` is followed by, and how many bytes spell it, braces included.
fn name_after_dollar(after: &[u8]) -> Option<(usize, &[u8])>
    ensures value { option_map (λ found. (found.0, found.1.now)) result ≡ variable_name after.now }
    ensures within { IfSome result (λ found. found.0 ≤ length after.now) }
{
    let (byte, rest) = first(after)?;
    if byte == b'{' {
        braced(rest)
    } else {
        plain(after)
    }
}

fn plain(bytes: &[u8]) -> Option<(usize, &[u8])>
    ensures value { option_map (λ found. (found.0, found.1.now)) result ≡ plain_name bytes.now }
    ensures within { IfSome result (λ found. found.0 ≤ length bytes.now) }
{
    let len = variable_name_len(bytes);
    if len == 0 {
        return None;
    }
    Some((len, &bytes[..len]))
}

fn braced(bytes: &[u8]) -> Option<(usize, &[u8])>
    ensures value { option_map (λ found. (found.0, found.1.now)) result ≡ braced_name bytes.now }
    ensures within { IfSome result (λ found. found.0 ≤ 1 + length bytes.now) }
{
    let len = variable_name_len(bytes);
    if len == 0 || !starts_with(&bytes[len..], b'}') {
        return None;
    }
    Some((len + 2, &bytes[..len]))
}

/// How long the name is that the bytes begin with, 0 where they begin with none.
fn variable_name_len(bytes: &[u8]) -> usize
    ensures value { result ≡ variable_name_length bytes.now }
    ensures within { result ≤ length bytes.now }
{
    match first(bytes) {
        None => 0,
        Some((byte, _)) if byte.is_ascii_digit() => 0,
        Some(_) => name_bytes(bytes),
    }
}

fn name_bytes(bytes: &[u8]) -> usize
    ensures value { result ≡ prefix_len is_name_byte bytes.now }
    ensures within { result ≤ length bytes.now }
{
    bytes.iter().take_while(|b| is_name(**b)).count()
}

fn is_name(byte: u8) -> bool
    ensures { result ≡ is_name_byte byte }
{
    byte.is_ascii_alphanumeric() || byte == b'_'
}

/// Whether the bytes begin with this one.
pub(crate) fn starts_with(bytes: &[u8], byte: u8) -> bool
    ensures value { result ≡ starts_with eqb bytes.now (byte ∷ []) }
    ensures within { IsTrue result → 1 ≤ length bytes.now }
{
    match first(bytes) {
        None => false,
        Some((found, _)) => found == byte,
    }
}
