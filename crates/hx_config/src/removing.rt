ghost use Rattle.std.specs.Prelude.{◌≡◌, option_map, IfOk};
ghost use Rattle.hx_config.specs.Removing.{removal_said};

use crate::words::{push, push_all};
use hx_text::{NoMemory, Octets};
use std::alloc::Global;

/// What stands for `http-request del-header` with these words after it, where they ask for the
/// whole name.
pub(crate) fn removal_said(alloc: Global, words: &[Octets]) -> Result<Option<Vec<Octets>>, NoMemory>
    ensures { IfOk result
        (λ found. option_map (λ words. words.items) found ≡ removal_said words.now) }
{
    match words {
        [name, flag, method, condition @ ..]
            if flag.as_slice() == b"-m".as_slice() && method.as_slice() == b"str".as_slice() => {
            let mut out = Vec::new(alloc);
            push(alloc, &mut out, b"http-request")?;
            push(alloc, &mut out, b"del-header")?;
            push(alloc, &mut out, name.as_slice())?;
            push_all(alloc, &mut out, condition)?;
            Ok(Some(out))
        }
        _ => Ok(None),
    }
}
