//! Calls of hx_text.

use hx_cases_base::{
    CaseFault, address, byte, number, show, show_address, show_option, signed, variable,
};
use hx_text::{
    Ip, Net, Octets, cut_at, map4to6, print_i64, print_ip, read_i64, read_ip, read_net,
    read_number, six_to_four, without_cr,
};
use std::alloc::Global;
use std::cmp::Ordering;
use std::fmt::Write;

/// `read_i64 TEXT`
pub fn read_i64_case(out: &mut String, args: &[Vec<u8>]) -> Result<(), CaseFault> {
    let [text] = args else {
        return Err(CaseFault::BadArguments);
    };
    match read_i64(text.as_slice()) {
        Some(n) => write!(out, "{n}")?,
        None => out.push_str("none")?,
    }
    Ok(())
}

/// `print_i64 N`: the length, and the array, which is dots before.
pub fn print_i64_case(out: &mut String, args: &[Vec<u8>]) -> Result<(), CaseFault> {
    let [text] = args else {
        return Err(CaseFault::BadArguments);
    };
    let mut room = [b'.'; 20];
    let len = print_i64(signed(text.as_slice())?, &mut room);
    write!(out, "{len} ")?;
    show(out, room.as_slice())
}

/// `read_number TEXT MOST`
pub fn read_number_case(out: &mut String, args: &[Vec<u8>]) -> Result<(), CaseFault> {
    let [text, most] = args else {
        return Err(CaseFault::BadArguments);
    };
    match read_number(text.as_slice(), number(most.as_slice())?) {
        Some(n) => write!(out, "{n}")?,
        None => out.push_str("none")?,
    }
    Ok(())
}

/// `read_ip TEXT`
pub fn read_ip_case(out: &mut String, args: &[Vec<u8>]) -> Result<(), CaseFault> {
    let [text] = args else {
        return Err(CaseFault::BadArguments);
    };
    match read_ip(text.as_slice()) {
        Some(ip) => show_address(out, ip),
        None => Ok(out.push_str("none")?),
    }
}

/// `print_ip ADDRESS`: the length, and the array, which is `_` before.
pub fn print_ip_case(out: &mut String, args: &[Vec<u8>]) -> Result<(), CaseFault> {
    let [text] = args else {
        return Err(CaseFault::BadArguments);
    };
    let mut room = [b'_'; 39];
    let len = print_ip(address(text.as_slice())?, &mut room);
    write!(out, "{len} ")?;
    show(out, room.as_slice())
}

/// `read_net TEXT`
pub fn read_net_case(out: &mut String, args: &[Vec<u8>]) -> Result<(), CaseFault> {
    let [text] = args else {
        return Err(CaseFault::BadArguments);
    };
    match read_net(text.as_slice()) {
        Some(Net::Plain { ip, bits }) => {
            show_address(out, ip)?;
            write!(out, " {bits}")?;
        }
        Some(Net::Masked { ip, mask }) => write!(out, "masked {ip:08x} {mask:08x}")?,
        None => out.push_str("none")?,
    }
    Ok(())
}

/// `map4to6 ADDRESS` of an IPv4 address
pub fn map4to6_case(out: &mut String, args: &[Vec<u8>]) -> Result<(), CaseFault> {
    let [text] = args else {
        return Err(CaseFault::BadArguments);
    };
    match address(text.as_slice())? {
        Ip::V4(a) => show_address(out, Ip::V6(map4to6(a))),
        Ip::V6(_) => Err(CaseFault::BadArguments),
    }
}

/// `six_to_four ADDRESS` of an IPv6 address
pub fn six_to_four_case(out: &mut String, args: &[Vec<u8>]) -> Result<(), CaseFault> {
    let [text] = args else {
        return Err(CaseFault::BadArguments);
    };
    let Ip::V6(a) = address(text.as_slice())? else {
        return Err(CaseFault::BadArguments);
    };
    match six_to_four(a) {
        Some(four) => show_address(out, Ip::V4(four)),
        None => Ok(out.push_str("none")?),
    }
}

/// `cut_at BYTE TEXT`
pub fn cut_at_case(out: &mut String, args: &[Vec<u8>]) -> Result<(), CaseFault> {
    let [at, text] = args else {
        return Err(CaseFault::BadArguments);
    };
    let at = byte(at.as_slice())?.ok_or(CaseFault::BadArguments)?;
    match cut_at(at, text.as_slice()) {
        Some((before, after)) => {
            show(out, before)?;
            show(out, after)
        }
        None => show_option(out, None),
    }
}

/// `without_cr TEXT`
pub fn without_cr_case(out: &mut String, args: &[Vec<u8>]) -> Result<(), CaseFault> {
    let [text] = args else {
        return Err(CaseFault::BadArguments);
    };
    show(out, without_cr(text.as_slice()))
}

/// `push_all TEXT ..`: a copy of the first, with the others appended.
pub fn push_all_case(alloc: Global, out: &mut String, args: &[Vec<u8>]) -> Result<(), CaseFault> {
    let [first, others @ ..] = args else {
        return Err(CaseFault::BadArguments);
    };
    let mut octets = Octets::copy(alloc, first.as_slice())?;
    for other in others {
        octets.push_all(other.as_slice())?;
    }
    show(out, octets.into_vec().as_slice())
}

fn order_text(order: Ordering) -> &'static str {
    match order {
        Ordering::Less => "less",
        Ordering::Equal => "equal",
        Ordering::Greater => "greater",
    }
}

/// `compare TEXT TEXT`
pub fn compare_case(alloc: Global, out: &mut String, args: &[Vec<u8>]) -> Result<(), CaseFault> {
    let [left, right] = args else {
        return Err(CaseFault::BadArguments);
    };
    let left = Octets::copy(alloc, left.as_slice())?;
    let right = Octets::from_vec(Vec::from_slice(alloc, right.as_slice())?);
    out.push_str(order_text(left.cmp(&right)))?;
    if left == right {
        out.push_str(" same")?;
    }
    Ok(())
}

/// `compare_names SCOPE.NAME SCOPE.NAME`
pub fn compare_names_case(
    alloc: Global,
    out: &mut String,
    args: &[Vec<u8>],
) -> Result<(), CaseFault> {
    let [left, right] = args else {
        return Err(CaseFault::BadArguments);
    };
    let left = variable(alloc, left.as_slice())?;
    let right = variable(alloc, right.as_slice())?;
    Ok(out.push_str(order_text(left.cmp(&right)))?)
}
