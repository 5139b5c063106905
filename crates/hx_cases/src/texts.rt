//! The texts of faults, as their `Display` prints them.

use hx_cases_base::CaseFault;
use hx_http::{EditFault, HeadFault};
use hx_outside::{Failed, FileFault, ReadFault, SinkFault};
use hx_record::RecordFault;
use hx_text::NoMemory;
use hx_words::{ArgFault, WordFault};
use std::fmt::Write;

/// `texts TYPE`: the text of each variant of that type, in the order of its declaration.
pub fn texts_case(out: &mut String, args: &[Vec<u8>]) -> Result<(), CaseFault> {
    let [name] = args else {
        return Err(CaseFault::BadArguments);
    };
    match name.as_slice() {
        b"NoMemory" => Ok(write!(out, "[{}]", NoMemory)?),
        b"Failed" => Ok(write!(out, "[{}]", Failed)?),
        b"SinkFault" => sink_texts(out),
        b"FileFault" => file_texts(out),
        b"ReadFault" => read_texts(out),
        b"HeadFault" => head_texts(out),
        b"EditFault" => edit_texts(out),
        b"RecordFault" => record_texts(out),
        b"WordFault" => word_texts(out),
        b"ArgFault" => arg_texts(out),
        _ => Err(CaseFault::BadArguments),
    }
}

fn sink_texts(out: &mut String) -> Result<(), CaseFault> {
    for fault in [SinkFault::Failed, SinkFault::NoMemory] {
        write!(out, "[{fault}]")?;
    }
    Ok(())
}

fn file_texts(out: &mut String) -> Result<(), CaseFault> {
    for fault in [FileFault::Failed, FileFault::NoMemory] {
        write!(out, "[{fault}]")?;
    }
    Ok(())
}

fn read_texts(out: &mut String) -> Result<(), CaseFault> {
    for fault in [ReadFault::Failed, ReadFault::TooLong, ReadFault::NoMemory] {
        write!(out, "[{fault}]")?;
    }
    Ok(())
}

fn head_texts(out: &mut String) -> Result<(), CaseFault> {
    for fault in [
        HeadFault::NotAHead,
        HeadFault::TooManyHeaders,
        HeadFault::NoMemory,
    ] {
        write!(out, "[{fault}]")?;
    }
    Ok(())
}

fn edit_texts(out: &mut String) -> Result<(), CaseFault> {
    for fault in [
        EditFault::BadBytes,
        EditFault::TooMany,
        EditFault::NoPath,
        EditFault::NoMemory,
    ] {
        write!(out, "[{fault}]")?;
    }
    Ok(())
}

fn record_texts(out: &mut String) -> Result<(), CaseFault> {
    for fault in [
        RecordFault::Bad { offset: 7, code: 5 },
        RecordFault::Failed,
        RecordFault::NoMemory,
    ] {
        write!(out, "[{fault}]")?;
    }
    Ok(())
}

fn word_texts(out: &mut String) -> Result<(), CaseFault> {
    for fault in [
        WordFault::OpenQuote,
        WordFault::BadEscape,
        WordFault::BadVariable,
        WordFault::TooManyWords,
        WordFault::NoMemory,
    ] {
        write!(out, "[{fault}]")?;
    }
    Ok(())
}

fn arg_texts(out: &mut String) -> Result<(), CaseFault> {
    for fault in [
        ArgFault::Unclosed,
        ArgFault::AfterClose,
        ArgFault::BadEscape,
        ArgFault::OpenQuote,
        ArgFault::NoMemory,
    ] {
        write!(out, "[{fault}]")?;
    }
    Ok(())
}
