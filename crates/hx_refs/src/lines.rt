ghost use Rattle.std.specs.Prelude.{◌≡◌, ◌≤◌, ◌==◌, ◌||◌, [], ◌∷◌, ◌++◌, length, IfOk, OnOk, OnErr, option_to_list, not, if◌then◌else◌};
ghost use Rattle.std.specs.List.{prefix_len, suffix_len};
ghost use Rattle.hx_base.specs.Bytes.{ascii, is_blank};
ghost use Rattle.hx_refs.specs.FileLines.{after_blanks, before_line_end, key_alone, key_and_value};
ghost use Rattle.hx_refs.specs.FileLines.{key_end, line_pair, text_pairs};

use crate::pairs::Pairs;
use hx_text::{NoMemory, cut_at};
use std::alloc::Global;

fn is_blank(byte: u8) -> bool
    ensures { result ≡ is_blank byte }
{
    byte == b' ' || byte == b'\t'
}

fn is_lost_at_end(byte: u8) -> bool
    ensures { result ≡ (is_blank byte || byte == ascii "\r") }
{
    is_blank(byte) || byte == b'\r'
}

#[tactic(auto, using(std::proofs::lemmas::Grind::common_steps, crate::proofs::LineLemmas::ends))]
fn leading_blanks(text: &[u8]) -> usize
    ensures value { result ≡ prefix_len is_blank text.now }
    ensures within { result ≤ length text.now }
{
    text.iter().take_while(|b| is_blank(**b)).count()
}

#[tactic(auto, using(std::proofs::lemmas::Grind::common_steps, crate::proofs::LineLemmas::ends))]
fn trailing_bytes(text: &[u8]) -> usize
    ensures value { result ≡ suffix_len (λ b. is_blank b || b == ascii "\r") text.now }
    ensures within { result ≤ length text.now }
{
    text.iter()
        .rev()
        .take_while(|b| is_lost_at_end(**b))
        .count()
}

#[tactic(auto, using(std::proofs::lemmas::Grind::common_steps, crate::proofs::LineLemmas::ends))]
fn key_length(text: &[u8]) -> usize
    ensures value { result ≡ key_end text.now }
    ensures within { result ≤ length text.now }
{
    text.iter().take_while(|b| !is_blank(**b)).count()
}

fn after_blanks(text: &[u8]) -> &[u8]
    ensures { result.now ≡ after_blanks text.now }
{
    &text[leading_blanks(text)..]
}

fn before_line_end(text: &[u8]) -> &[u8]
    ensures { result.now ≡ before_line_end text.now }
{
    &text[..text.len() - trailing_bytes(text)]
}

impl Pairs {
    /// The keys and values of the lines of a file of patterns or of a map, in their order.
    /// `two_column` says whether a line has a value after its key: the key is then what stands
    /// before the first blank, and the value, which may be empty, what follows the blanks after it;
    /// else the whole line is the key. Blanks at the start of a line and blanks and carriage
    /// returns at its end are lost. Lines that begin with `#` or are empty give nothing.
    ///
    /// HAProxy configuration manual 2.4, sections 7.1 (flag `-f`) and 7.3.1 (`map`).
    #[tactic(auto, using(crate::proofs::LineLemmas::line_moves))]
    pub fn of_text(alloc: Global, text: &[u8], two_column: bool) -> Result<Pairs, NoMemory>
        ensures { IfOk result (λ pairs. pairs ≡ text_pairs two_column text.now) }
    {
        let mut pairs = Pairs::new(alloc);
        let mut rest = text;
        while let Some((line, after)) = cut_at(b'\n', rest) {
            pairs.push_line(line, two_column)?;
            rest = after;
        }
        pairs.push_line(rest, two_column)?;
        Ok(pairs)
    }

    /// Appends what one line gives, as `of_text` reads it. `NoMemory` where memory runs out; the
    /// list stays as it was then.
    pub fn push_line(&mut self, line: &[u8], two_column: bool) -> Result<(), NoMemory>
        ensures ok { OnOk result
            (self.new ≡ self.old ++ option_to_list (line_pair two_column line.now)) }
        ensures err { OnErr result (self.new ≡ self.old) }
    {
        if line.first() == Some(&b'#') {
            return Ok(());
        }
        let text = before_line_end(after_blanks(line));
        if text.is_empty() {
            return Ok(());
        }
        self.push_columns(text, two_column)
    }

    fn push_columns(&mut self, text: &[u8], two_column: bool) -> Result<(), NoMemory>
        ensures ok { OnOk result (self.new ≡ self.old
            ++ (if two_column then key_and_value text.now else key_alone text.now) ∷ []) }
        ensures err { OnErr result (self.new ≡ self.old) }
    {
        if two_column {
            let (key, rest) = text.split_at(key_length(text));
            self.push(key, after_blanks(rest))
        } else {
            self.push(text, b"")
        }
    }
}
