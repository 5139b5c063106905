/// Which entries of a version a call speaks of: those with a key, or the one with a number.
#[derive(Clone, Copy)]
pub enum Choice<'a> {
    Key(&'a [u8]),
    Number(u64),
}
