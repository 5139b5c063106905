ghost use Rattle.std.specs.Prelude.{◌≡◌, ◌≢◌, ℕ, Bool, List, IfOk, IsOk};
ghost use Rattle.hx_text.specs.declared.kinds.By.TheVariants as by;
ghost use Rattle.hx_sample.specs.Keys.{folded, hits, hits_text, is_found_in, key_expression};
ghost use Rattle.hx_sample.specs.Seen.{bytes_of, value_of};
ghost use Rattle.hx_match.specs.Read.{by_of, by_of_text, IsKeyExpression, IsRead, IsTextRead};

use crate::components::{Delims, has_component};
use crate::form::{Form, TextForm};
use crate::networks::has_address;
use crate::pattern::Pattern;
use crate::texts::{begins, ends, equals, has_part, has_part_folded};
use hx_regex::RegularExpression;
use hx_sample::Sample;
use hx_text::NoMemory;
use std::alloc::Global;

/// Whether the pattern hits the sample, by the method and the case that it was read for. A sample
/// of another type than the method looks at isn't hit. No sample is copied; `NoMemory` comes by
/// `Reg` alone, where memory runs out.
pub fn hits(alloc: Global, pattern: &Pattern, sample: &Sample<'_>) -> Result<bool, NoMemory>
    ensures value { IfOk result (λ hit. hit
        ≡ hits pattern.now.by pattern.now.ci pattern.now.text (value_of sample.now)) }
    ensures free { pattern.now.by ≢ by.Reg → IsOk result }
{
    match &pattern.form {
        Form::Int(bounds) => match sample {
            Sample::Int(n) => Ok(bounds.contains(*n)),
            _ => Ok(false),
        },
        Form::Len(bounds) => match sample {
            Sample::Str(text) => Ok(bounds.contains(text.as_slice().len() as i64)),
            _ => Ok(false),
        },
        Form::Ip(net) => match sample {
            Sample::Ip(ip) => Ok(has_address(*net, *ip)),
            _ => Ok(false),
        },
        Form::Bin(same) => match sample {
            Sample::Bin(bytes) => Ok(bytes.as_slice() == same.as_slice()),
            _ => Ok(false),
        },
        Form::Text(form) => match sample {
            Sample::Str(text) => Ok(form.hits(
                pattern.ci,
                pattern.text.as_slice(),
                text.as_slice(),
            )),
            _ => Ok(false),
        },
        Form::Reg(re) => match sample {
            Sample::Str(text) => finds(alloc, re, text.as_slice()),
            _ => Ok(false),
        },
    }
}

impl TextForm {
    /// Whether the key hits the text.
    fn hits(&self, ci: bool, key: &[u8], text: &[u8]) -> bool
        requires { IsTextRead ci key.now self.now }
        ensures { result
            ≡ hits_text (by_of_text self.now) (folded ci key.now) (folded ci text.now) }
    {
        match self {
            TextForm::Str => equals(ci, text, key),
            TextForm::Beg => begins(ci, text, key),
            TextForm::End => ends(ci, text, key),
            TextForm::Sub(finder) => has_part(text, finder),
            TextForm::SubFolded(needle) => has_part_folded(text, needle),
            TextForm::Dir(part) => has_component(Delims::Path, ci, text, part),
            TextForm::Dom(part) => has_component(Delims::Domain, ci, text, part),
        }
    }
}

/// Whether the expression matches somewhere in the text.
fn finds(alloc: Global, re: &RegularExpression, text: &[u8]) -> Result<bool, NoMemory>
    ensures { (ci : Bool) (key : List ℕ) → IsKeyExpression ci key re.now →
        IfOk result (λ hit. hit ≡ is_found_in (key_expression ci key) text.now) }
{
    let hit = re.is_match(alloc, text)?;
    Ok(hit)
}
