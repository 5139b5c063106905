ghost use Rattle.std.specs.Prelude.{◌≡◌, ℕ, List, [], ◌∷◌, drop, true, IfSome, IfNone};
ghost use Rattle.std.specs.Iterator.{YieldsFirstBy, item_count};
ghost use Rattle.std.specs.Option.{option_copied, option_map_or};
ghost use Rattle.std.specs.Str.{str_eq_ignore_ascii_case};
ghost use Rattle.hx_fetch.specs.Names.{header_lines};
ghost use Rattle.hx_fetch.specs.Views.{lines_under};

use hx_http::Message;
use std::marker::Model;

/// Most lines write a name as it is asked for, which is known at once.
#[inline(always)]
#[tactic(auto, using(crate::proofs::ListLemmas::same_whatever_case))]
pub(crate) fn is_header_name(line_name: &[u8], name: Option<&[u8]>) -> bool
    ensures { result ≡ option_map_or (str_eq_ignore_ascii_case line_name.now)
        (option_copied name.entry) true }
{
    match name {
        Some(name) => line_name == name || line_name.eq_ignore_ascii_case(name),
        None => true,
    }
}

/// The lines of a header that are left to give, each as what follows the name; all lines where no
/// name is given. Contracts see it as their list.
#[derive(Drop)]
pub(crate) struct Lines<'f, 'w> {
    message: &'w Message,
    name: Option<&'f [u8]>,
    at: usize,
}

impl<'f, 'w> Model for Lines<'f, 'w> {
    ghost Value = { List (List ℕ) };

    ghost view = { λ lines.
        lines_under (option_copied lines.name) (drop lines.at lines.message.now.headers) };
}

impl<'f, 'w> Lines<'f, 'w> {
    pub(crate) fn new(message: &'w Message, name: Option<&'f [u8]>) -> Lines<'f, 'w>
        ensures { result ≡ header_lines (option_copied name.entry) message.now }
    {
        Lines {
            message,
            name,
            at: 0,
        }
    }

    /// No lines.
    pub(crate) fn none(message: &'w Message) -> Lines<'f, 'w>
        ensures { result ≡ [] }
    {
        Lines {
            message,
            name: None,
            at: message.len(),
        }
    }
}

impl<'f, 'w> Iterator for Lines<'f, 'w> {
    type Item = &'w [u8];

    ghost next_gives = { YieldsFirstBy (λ line. line.now) (λ left. left) };

    ghost remaining = { item_count (λ left. left) };

    fn next(&mut self) -> Option<&'w [u8]> {
        let (line, after) = next_line(self.message, self.name, self.at)?;
        self.at = after;
        Some(line)
    }
}

/// The first line of the name from position `start` on, and the position after it.
#[tactic(auto, using(crate::proofs::ListLemmas::drop_at))]
fn next_line<'w>(
    message: &'w Message,
    name: Option<&[u8]>,
    start: usize,
) -> Option<(&'w [u8], usize)>
    ensures none { IfNone result
        (lines_under (option_copied name.entry) (drop start message.now.headers) ≡ []) }
    ensures some { IfSome result (λ found.
        lines_under (option_copied name.entry) (drop start message.now.headers)
        ≡ found.0.now
        ∷ lines_under (option_copied name.entry) (drop found.1 message.now.headers)) }
{
    for at in start..message.len() {
        if let Some((line_name, line)) = message.header(at) {
            if is_header_name(line_name, name) {
                return Some((line, at + 1));
            }
        }
    }
    None
}
