use hx_text::VarName;

/// The operand of an arithmetic or bitwise converter (HAProxy configuration manual 2.4, section
/// 7.3.1, `add`): a number, or the variable whose value, cast to an integer, is the number.
pub enum Val {
    /// a number as it is written
    Number(i64),
    /// the variable of this name
    Var(VarName),
}

// Written out, so that letting one go is one call in the proofs of callers.
impl Drop for Val {
    fn drop(self) {
        match self {
            Val::Number(_it) => (),
            Val::Var(_it) => (),
        }
    }
}
