//! Calls of hx_lists.

use hx_cases_base::{CaseFault, byte, show, show_pair};
use hx_lists::{cookies, hdr_values, params};

/// `hdr_values LINE`
pub fn hdr_values_case(out: &mut String, args: &[Vec<u8>]) -> Result<(), CaseFault> {
    let [line] = args else {
        return Err(CaseFault::BadArguments);
    };
    for value in hdr_values(line.as_slice()) {
        show(out, value)?;
    }
    Ok(())
}

/// `cookies LINE`
pub fn cookies_case(out: &mut String, args: &[Vec<u8>]) -> Result<(), CaseFault> {
    let [line] = args else {
        return Err(CaseFault::BadArguments);
    };
    for (name, value) in cookies(line.as_slice()) {
        show_pair(out, name, value)?;
    }
    Ok(())
}

/// `params TARGET DELIM`, where an empty DELIM is none
pub fn params_case(out: &mut String, args: &[Vec<u8>]) -> Result<(), CaseFault> {
    let [target, delim] = args else {
        return Err(CaseFault::BadArguments);
    };
    for (name, value) in params(target.as_slice(), byte(delim.as_slice())?) {
        show_pair(out, name, value)?;
    }
    Ok(())
}
