ghost use Rattle.std.specs.Prelude.{◌≡◌, IfOk, None, Some};
ghost use Rattle.hx_sample.specs.Seen.{occurrence_value};
ghost use Rattle.hx_expr.specs.Built.{default_text, default_value};
ghost use Rattle.hx_expr.specs.Values.{mapped_value};

use hx_sample::{Bytes, Sample};
use hx_text::{Ip, NoMemory, Octets, Out, read_i64, read_ip};
use std::alloc::Global;

/// The text that a map gives where it finds nothing, and what that text is as the type of the map's
/// values, read once.
pub(crate) enum MapDefault {
    Nothing,
    Str(Octets),
    Int(Octets, Option<i64>),
    Ip(Octets, Option<Ip>),
}

// Written out, so that letting one go is one call in the proofs of callers.
impl Drop for MapDefault {
    fn drop(self) {
        match self {
            MapDefault::Nothing => (),
            MapDefault::Str(_it) => (),
            MapDefault::Int(_first, _second) => (),
            MapDefault::Ip(_first, _second) => (),
        }
    }
}

/// The default of a map whose values are of the type `out`.
pub(crate) fn read_default(
    alloc: Global,
    out: Out,
    text: &Option<Octets>,
) -> Result<MapDefault, NoMemory>
    ensures text { IfOk result (λ default. default_text default ≡ text.now) }
    ensures read { IfOk result (λ default.
        default_value default ≡ mapped_value out text.now None) }
{
    match text {
        Some(text) => read_text(alloc, out, text),
        None => Ok(MapDefault::Nothing),
    }
}

fn read_text(alloc: Global, out: Out, text: &Octets) -> Result<MapDefault, NoMemory>
    ensures text { IfOk result (λ default. default_text default ≡ Some text.now) }
    ensures read { IfOk result (λ default.
        default_value default ≡ mapped_value out (Some text.now) None) }
{
    let copy = Octets::copy(alloc, text.as_slice())?;
    match out {
        Out::Str => Ok(MapDefault::Str(copy)),
        Out::Int => Ok(MapDefault::Int(copy, read_i64(text.as_slice()))),
        Out::Ip => Ok(MapDefault::Ip(copy, read_ip(text.as_slice()))),
    }
}

impl MapDefault {
    /// What the map gives where it finds nothing. A text is copied, since a value may outlive the
    /// plan.
    pub(crate) fn value<'w>(&self, alloc: Global) -> Result<Option<Sample<'w>>, NoMemory>
        ensures { IfOk result (λ value. occurrence_value value ≡ default_value self.now) }
    {
        match self {
            MapDefault::Nothing => Ok(None),
            MapDefault::Str(text) => {
                let text = Octets::copy(alloc, text.as_slice())?;
                Ok(Some(Sample::Str(Bytes::Own(text))))
            }
            MapDefault::Int(_, number) => match number {
                Some(number) => Ok(Some(Sample::Int(*number))),
                None => Ok(None),
            },
            MapDefault::Ip(_, address) => match address {
                Some(address) => Ok(Some(Sample::Ip(*address))),
                None => Ok(None),
            },
        }
    }
}
