ghost use Rattle.std.specs.Prelude.{◌≡◌, IfOk};
ghost use Rattle.hx_base.specs.Pairs.{pairs_of};
ghost use Rattle.hx_config.specs.Lines.{line_at, lines_of};

use crate::titles::is_title;
use hx_lint::first_text;
use hx_text::{NoMemory, Octets};
use hx_words::{WordFault, Words, split};
use std::alloc::Global;
use std::marker::Model;

/// A line of a file. Contracts see its number, its section, its text and its words.
#[derive(Drop)]
pub(crate) struct Line<'f> {
    number: u64,
    section: u64,
    text: &'f [u8],
    words: Option<Words>,
}

impl<'f> Model for Line<'f> {
    ghost use Rattle.std.specs.Prelude.{[], unwrap_or};
    ghost use Rattle.hx_config.specs.Lines.{Line};

    ghost Value = { Line };

    ghost view = { λ line. record {
      number = line.number;
      section = line.section;
      text = line.text.now;
      words = unwrap_or line.words [];
    } };
}

impl<'f> Line<'f> {
    pub(crate) fn number(&self) -> u64
        ensures { result ≡ self.now.number }
    {
        self.number
    }

    /// The number of the title above it, or its own where it is a title; 0 above the first.
    pub(crate) fn section(&self) -> u64
        ensures { result ≡ self.now.section }
    {
        self.section
    }

    pub(crate) fn text(&self) -> &'f [u8]
        ensures { result.now ≡ self.now.text }
    {
        self.text
    }

    pub(crate) fn words(&self) -> &[Octets]
        ensures { result.now ≡ self.now.words }
    {
        match &self.words {
            Some(words) => words.as_slice(),
            None => &[],
        }
    }
}

/// The lines of a file, with their words under this environment.
#[tactic(auto, unfolding(crate::specs::Lines::lines_of))]
pub(crate) fn lines_of<'f>(
    alloc: Global,
    env: &[(Vec<u8>, Vec<u8>)],
    file: &'f [u8],
) -> Result<Vec<Line<'f>>, NoMemory>
    ensures { IfOk result (λ lines. lines.items ≡ lines_of (pairs_of env.now) file.now) }
{
    let mut lines = Vec::new(alloc);
    let mut number = 0u64;
    let mut section = 0u64;
    let mut rest = Some(file);
    'lines: while let Some(left) = rest {
        let (text, after) = first_text(left);
        number += 1;
        let line = line_at(alloc, env, number, section, text)?;
        section = line.section();
        lines.push(line)?;
        rest = after;
    }
    Ok(lines)
}

/// A line with its words, below a line of the section `above`.
#[tactic(auto, unfolding(crate::specs::Lines::line_at))]
fn line_at<'f>(
    alloc: Global,
    env: &[(Vec<u8>, Vec<u8>)],
    number: u64,
    above: u64,
    text: &'f [u8],
) -> Result<Line<'f>, NoMemory>
    ensures { IfOk result (λ line. line ≡ line_at (pairs_of env.now) number above text.now) }
{
    match split(alloc, env, text) {
        Ok(words) => Ok(Line {
            number,
            section: if is_title(words.as_slice()) {
                number
            } else {
                above
            },
            text,
            words: Some(words),
        }),
        Err(WordFault::NoMemory) => Err(NoMemory),
        Err(_) => Ok(Line {
            number,
            section: above,
            text,
            words: None,
        }),
    }
}
