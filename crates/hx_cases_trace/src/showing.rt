use hx_cases_base::{CaseFault, show};
use hx_expr::PlanFault;
use hx_load::LoadFault;
use hx_rules::Verdict;
use hx_trace::{Reason, Why};
use std::fmt::Write;

/// Writes a verdict: `pass`, `pass BACKEND`, `deny CODE`, `redirect CODE LOCATION` or `error`.
pub fn show_verdict(out: &mut String, verdict: &Verdict) -> Result<(), CaseFault> {
    match verdict {
        Verdict::Pass { backend: None } => out.push_str("pass")?,
        Verdict::Pass {
            backend: Some(name),
        } => {
            out.push_str("pass ")?;
            show(out, name.as_slice())?;
        }
        Verdict::Deny { code } => write!(out, "deny {code}")?,
        Verdict::Redirect { code, location } => {
            write!(out, "redirect {code} ")?;
            show(out, location.as_slice())?;
        }
        Verdict::Error => out.push_str("error")?,
    }
    Ok(())
}

/// Writes the line, the conjunction and each reason, with a blank before each reason.
pub fn show_why(out: &mut String, why: &Why) -> Result<(), CaseFault> {
    let (line, conj) = (why.line, why.conj);
    write!(out, "{line} {conj}")?;
    for i in 0..why.reasons.len() {
        if let Some(reason) = why.reasons.get(i) {
            show_reason(out, reason)?;
        }
    }
    Ok(())
}

/// Writes `not`, `true`, or the number of the reference and that of the entry.
fn show_reason(out: &mut String, reason: &Reason) -> Result<(), CaseFault> {
    match reason {
        Reason::Not => out.push_str(" not")?,
        Reason::True => out.push_str(" true")?,
        Reason::Hit { id, number } => write!(out, " #{id}/{number}")?,
    }
    Ok(())
}

/// Writes why nothing is loaded.
pub fn show_load_fault(out: &mut String, fault: LoadFault) -> Result<(), CaseFault> {
    match fault {
        LoadFault::Refused { line, code } => write!(out, "refused {line} {code}")?,
        LoadFault::Failed => out.push_str("failed")?,
        LoadFault::TooLarge => out.push_str("too large")?,
        LoadFault::NoMemory => return Err(CaseFault::NoMemory),
    }
    Ok(())
}

/// Writes why no statements are explained.
pub fn show_plan_fault(out: &mut String, fault: PlanFault) -> Result<(), CaseFault> {
    match fault {
        PlanFault::BadType => out.push_str("bad type")?,
        PlanFault::BadPattern => out.push_str("bad pattern")?,
        PlanFault::TooLarge => out.push_str("statements too large")?,
        PlanFault::NoMemory => return Err(CaseFault::NoMemory),
    }
    Ok(())
}
