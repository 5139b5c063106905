//! The texts of faults, as their `Display` prints them.

use hx_cases_base::CaseFault;
use hx_expr::PlanFault;
use hx_outside::{PatFault, ReFault};
use hx_spell::SpellFault;
use std::fmt::Write;

/// `texts TYPE`: the text of each variant of that type, in the order of its declaration.
pub fn texts_case(out: &mut String, args: &[Vec<u8>]) -> Result<(), CaseFault> {
    let [name] = args else {
        return Err(CaseFault::BadArguments);
    };
    match name.as_slice() {
        b"ReFault" => regex_texts(out),
        b"PatFault" => pattern_texts(out),
        b"SpellFault" => spell_texts(out),
        b"PlanFault" => plan_texts(out),
        _ => Err(CaseFault::BadArguments),
    }
}

fn regex_texts(out: &mut String) -> Result<(), CaseFault> {
    for fault in [ReFault::BadRegex, ReFault::TooLarge, ReFault::NoMemory] {
        write!(out, "[{fault}]")?;
    }
    Ok(())
}

fn pattern_texts(out: &mut String) -> Result<(), CaseFault> {
    for fault in [
        PatFault::BadInt,
        PatFault::BadRange,
        PatFault::BadAddress,
        PatFault::BadHex,
        PatFault::BadRegex,
        PatFault::TooLarge,
        PatFault::NotUtf8,
        PatFault::NoMemory,
    ] {
        write!(out, "[{fault}]")?;
    }
    Ok(())
}

fn spell_texts(out: &mut String) -> Result<(), CaseFault> {
    for fault in [SpellFault::Code(9), SpellFault::NoMemory] {
        write!(out, "[{fault}]")?;
    }
    Ok(())
}

fn plan_texts(out: &mut String) -> Result<(), CaseFault> {
    for fault in [
        PlanFault::BadType,
        PlanFault::BadPattern,
        PlanFault::TooLarge,
        PlanFault::NoMemory,
    ] {
        write!(out, "[{fault}]")?;
    }
    Ok(())
}
