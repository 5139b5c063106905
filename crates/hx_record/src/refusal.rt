ghost use Rattle.std.specs.Prelude.{◌≡◌};
ghost use Rattle.hx_record.specs.RefusalCode.{code_of};

/// Why the bytes of a record are refused.
#[derive(Clone, Copy, PartialEq, Eq)]
pub enum RecordRefusal {
    /// An unknown first word, a wrong number of words, no address where one is needed, or a byte
    /// other than LF after a request.
    BadLine,
    /// No number where one is needed, or one above its limit.
    BadNumber,
    /// The record ends before the bytes of a request do.
    CutRequest,
    /// The byte at the limit is there, and is needed.
    TooLong,
    /// More than 65,536 bytes before an LF.
    LineTooLong,
}

impl RecordRefusal {
    /// The code of the refusal, as `RecordFault` has it.
    pub fn code(self) -> u32
        ensures { result ≡ code_of self }
    {
        match self {
            RecordRefusal::BadLine => 1,
            RecordRefusal::BadNumber => 2,
            RecordRefusal::CutRequest => 3,
            RecordRefusal::TooLong => 4,
            RecordRefusal::LineTooLong => 5,
        }
    }
}
