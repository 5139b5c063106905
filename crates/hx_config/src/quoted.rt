ghost use Rattle.std.specs.Prelude.{◌≡◌, ◌++◌, OnOk};
ghost use Rattle.hx_config.specs.Quoted.{quoted, quoted_byte};

use hx_text::NoMemory;

/// Appends a text as an argument in double quotes.
pub(crate) fn push_quoted(out: &mut Vec<u8>, text: &[u8]) -> Result<(), NoMemory>
    ensures { OnOk result (out.new.items ≡ out.old.items ++ quoted text.now) }
{
    out.push(b'"')?;
    let mut rest = text;
    while let [byte, others @ ..] = rest {
        push_quoted_byte(out, *byte)?;
        rest = others;
    }
    out.push(b'"')?;
    Ok(())
}

/// Appends a byte as it stands between double quotes.
pub(crate) fn push_quoted_byte(out: &mut Vec<u8>, byte: u8) -> Result<(), NoMemory>
    ensures { OnOk result (out.new.items ≡ out.old.items ++ quoted_byte byte) }
{
    if byte == b'\\' || byte == b'"' {
        out.push(b'\\')?;
    }
    out.push(byte)?;
    Ok(())
}
