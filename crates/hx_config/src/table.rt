ghost use Rattle.std.specs.Prelude.{◌≡◌};
ghost use Rattle.std.specs.Option.{option_copied};
ghost use Rattle.hx_base.specs.Pairs.{entry_at};
ghost use Rattle.hx_config.specs.Tables.{pairs_in};

/// What stands in the first row of a table that has this name.
pub(crate) fn value_at<'t>(table: &[(&[u8], &'t [u8])], name: &[u8]) -> Option<&'t [u8]>
    ensures { option_copied result
        ≡ entry_at (pairs_in table.now) name.now }
{
    let mut rest = table;
    while let [row, others @ ..] = rest {
        if row.0 == name {
            return Some(row.1);
        }
        rest = others;
    }
    None
}
