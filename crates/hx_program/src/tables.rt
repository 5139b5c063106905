ghost use Rattle.std.specs.Prelude.{◌≡◌, map};
ghost use Rattle.hx_program.specs.Tables.{meaning_of, status_text};

/// A code of a refusal: as it is written, its name, and its reason.
pub type Row = (&'static [u8], &'static [u8], &'static [u8]);

/// The name and the reason of any other code.
const UNKNOWN_CODE: (&[u8], &[u8]) = (b"Unknown", b"unknown code");

/// The name and the reason of a code, by the first of the rows that begins with it; without a row,
/// those of an unknown one.
pub fn meaning_of<'t>(mut rows: &'static [Row], code: &'t [u8]) -> (&'t [u8], &'t [u8])
    ensures { (result.0.now, result.1.now)
        ≡ meaning_of (map (λ row. (row.0.now, row.1.now, row.2.now)) rows.entry.now) code.now }
{
    while let [row, rest @ ..] = rows {
        if row.0 == code {
            return (row.1, row.2);
        }
        rows = rest;
    }
    UNKNOWN_CODE
}

/// What is said of a run that ends with a status, by the first of the rows that begins with it;
/// without a row, `other`.
pub fn text_of_status<'t>(
    mut rows: &'static [(u8, &'static [u8])],
    status: u8,
    other: &'t [u8],
) -> &'t [u8]
    ensures { result.now
        ≡ status_text other.now (map (λ row. (row.0, row.1.now)) rows.entry.now) status }
{
    while let [row, rest @ ..] = rows {
        if row.0 == status {
            return row.1;
        }
        rows = rest;
    }
    other
}
