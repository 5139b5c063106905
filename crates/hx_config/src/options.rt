ghost use Rattle.std.specs.Prelude.{◌≡◌};
ghost use Rattle.std.specs.Option.{option_copied};
ghost use Rattle.hx_config.specs.Options.{after_options, begins_condition, value_of};
ghost use Rattle.hx_config.specs.Tables.{pairs_in};

use crate::table::value_at;
use crate::titles::word_at;
use hx_text::Octets;

/// A row of a table of options: the name, and a letter for each argument.
pub(crate) type OptionRow = (&'static [u8], &'static [u8]);

/// Whether a word begins a condition.
fn begins_condition(word: &[u8]) -> bool
    ensures { result ≡ begins_condition word.now }
{
    word == b"if".as_slice() || word == b"unless".as_slice()
}

/// What follows the options of a table at the beginning of these words: nothing, or a condition.
/// None where a word is no option, or an argument is missing.
pub(crate) fn after_options<'w>(table: &[OptionRow], words: &'w [Octets]) -> Option<&'w [Octets]>
    ensures { option_copied result
        ≡ after_options (pairs_in table.now) 0 words.now }
{
    let mut skip = 0usize;
    let mut rest = words;
    while let [word, others @ ..] = rest {
        if skip > 0 {
            skip -= 1;
        } else {
            if begins_condition(word.as_slice()) {
                return Some(rest);
            }
            let Some(arguments) = value_at(table, word.as_slice()) else {
                return None;
            };
            skip = arguments.len();
        }
        rest = others;
    }
    if skip > 0 { None } else { Some(rest) }
}

/// The first argument of the last option of this name.
pub(crate) fn value_of<'w>(
    table: &[OptionRow],
    name: &[u8],
    words: &'w [Octets],
) -> Option<&'w [u8]>
    ensures { option_copied result
        ≡ value_of (pairs_in table.now) name.now words.now }
{
    let mut found = None;
    let mut skip = 0usize;
    let mut rest = words;
    while let [word, others @ ..] = rest {
        if skip > 0 {
            skip -= 1;
        } else {
            if begins_condition(word.as_slice()) {
                return found;
            }
            if word.as_slice() == name {
                found = Some(word_at(others, 0));
            }
            let Some(arguments) = value_at(table, word.as_slice()) else {
                return found;
            };
            skip = arguments.len();
        }
        rest = others;
    }
    found
}
