//! Match methods as calls name them.

ghost use Rattle.std.specs.Prelude.{◌≢◌, true, IfOk};
ghost use Rattle.hx_refs.specs.Uses.{KeepsToCase};

use hx_cases_base::CaseFault;
use hx_text::By;

/// The match method of patterns that is named so.
pub fn method(text: &[u8]) -> Result<By, CaseFault>
    ensures found { IfOk result (λ by. by ≢ By.Found) }
    ensures bool { IfOk result (λ by. by ≢ By.Bool) }
{
    match text {
        b"int" => Ok(By::Int),
        b"len" => Ok(By::Len),
        b"ip" => Ok(By::Ip),
        b"bin" => Ok(By::Bin),
        _ => method_of_texts(text),
    }
}

/// The match method of texts that is named so.
fn method_of_texts(text: &[u8]) -> Result<By, CaseFault>
    ensures found { IfOk result (λ by. by ≢ By.Found) }
    ensures bool { IfOk result (λ by. by ≢ By.Bool) }
    ensures case { IfOk result (λ by. KeepsToCase by true) }
{
    match text {
        b"str" => Ok(By::Str),
        b"beg" => Ok(By::Beg),
        b"end" => Ok(By::End),
        b"sub" => Ok(By::Sub),
        b"dir" => Ok(By::Dir),
        b"dom" => Ok(By::Dom),
        b"reg" => Ok(By::Reg),
        _ => Err(CaseFault::BadArguments),
    }
}

/// A use of a reference: a method, and whether case is ignored, as it is with `-i` behind the
/// method.
pub fn way(text: &[u8]) -> Result<(By, bool), CaseFault>
    ensures found { IfOk result (λ way. way.0 ≢ By.Found) }
    ensures bool { IfOk result (λ way. way.0 ≢ By.Bool) }
    ensures case { IfOk result (λ way. KeepsToCase way.0 way.1) }
{
    match text {
        [name @ .., b'-', b'i'] => Ok((method_of_texts(name)?, true)),
        name => Ok((method(name)?, false)),
    }
}
