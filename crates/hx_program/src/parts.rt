ghost use Rattle.std.specs.Prelude.{◌≡◌, ◌≤◌, ◌⊎◌, ◌++◌, OnOk, IsErrOf};
ghost use Rattle.std.specs.Io.KnownBytes.{Appends};
ghost use Rattle.hx_outside.specs.Count.{Rose};
ghost use Rattle.hx_outside.specs.Prefixes.{AppendsPrefix};
ghost use Rattle.hx_program.specs.Parts.{all_of};

use hx_outside::{Sink, SinkFault, write_all};

/// A text in its parts, of which the last may be empty. So it needs no memory of its own.
pub type Parts<'t> = [&'t [u8]; 13];

/// A text of three parts.
pub fn three_parts<'t>(first: &'t [u8], second: &'t [u8], third: &'t [u8]) -> Parts<'t>
    ensures { all_of result ≡ first.now ++ (second.now ++ third.now) }
{
    [
        first, second, third, b"", b"", b"", b"", b"", b"", b"", b"", b"", b"",
    ]
}

/// Writes the parts of a text, one after the other.
///
/// `Failed` only where the count of faults of `out` rose, and `NoMemory` where memory ran out: a
/// prefix of the text was then written.
pub fn write_parts<K: Sink>(out: &mut K, parts: &[&[u8]]) -> Result<(), SinkFault>
    ensures ok { OnOk result (Appends (K.written out.old) (K.written out.new) (all_of parts.now)) }
    ensures prefix { AppendsPrefix (K.written out.old) (K.written out.new) (all_of parts.now) }
    ensures later { K.faults out.old ≤ K.faults out.new }
    ensures failed { IsErrOf result SinkFault.Failed → Rose (K.faults out.old) (K.faults out.new) }
{
    for part in parts {
        write_all(out, part)?;
    }
    Ok(())
}

/// Writes what a program says of itself, in its parts, and answers the exit status: 0 where the
/// whole text was written, and else 6, after a prefix of it.
pub fn say<K: Sink>(out: &mut K, parts: &[&[u8]]) -> u8
    ensures status { (result ≡ 0) ⊎ (result ≡ 6) }
    ensures whole { result ≡ 0
        → Appends (K.written out.old) (K.written out.new) (all_of parts.now) }
    ensures prefix { AppendsPrefix (K.written out.old) (K.written out.new) (all_of parts.now) }
{
    match write_parts(out, parts) {
        Ok(()) => 0,
        Err(_) => 6,
    }
}
