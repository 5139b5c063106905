ghost use Rattle.std.specs.Prelude.{◌≡◌};
ghost use Rattle.hx_cli.specs.Effects.{adding, looking};

use hx_refs::Side;

/// The side on which a command looks at a reference.
pub(crate) fn looking(is_map: bool) -> Side
    ensures { result ≡ looking is_map }
{
    if is_map { Side::Map } else { Side::Acl }
}

/// The side on which a command adds to a reference.
pub(crate) fn adding(is_map: bool) -> Side
    ensures { result ≡ adding is_map }
{
    if is_map { Side::Map } else { Side::AclWrite }
}
