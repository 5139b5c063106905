ghost use Rattle.std.specs.Prelude.{◌≡◌, map};
ghost use Rattle.hx_calls.specs.Tables.{entry_at};

/// What stands in the first row of a table that has this name.
pub fn lookup<T: Copy>(mut table: &[(&[u8], T)], name: &[u8]) -> Option<T>
    ensures { result ≡ entry_at (map (λ row. (row.0.now, row.1)) table.entry.now) name.now }
{
    while let [row, rest @ ..] = table {
        if row.0 == name {
            return Some(row.1);
        }
        table = rest;
    }
    None
}
