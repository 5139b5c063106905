ghost use Rattle.std.specs.Prelude.{◌≡◌, IfOk};
ghost use Rattle.hx_base.specs.Pairs.{pairs_of};
ghost use Rattle.hx_gen.specs.Files.{files_of};
ghost use Rattle.hx_gen.specs.Record.{record_text};
ghost use Rattle.hx_gen.specs.Sizes.{IsSize};

use crate::files::files_of;
use crate::record::record_text;
use hx_text::NoMemory;
use std::alloc::Global;

/// All that a run is given: files, each with its name, and the bytes of a record.
#[derive(Drop)]
pub struct GeneratedInput {
    pub files: Vec<(Vec<u8>, Vec<u8>)>,
    pub record_bytes: Vec<u8>,
}

/// The generated input of this size, from 1 to `GREATEST_SIZE`. It is the same whenever it is made:
/// the configuration, under the name that `config_name` answers, a map, two lists, and a record of
/// so many requests, with commands that change the map.
pub fn generated_input(alloc: Global, size: u64) -> Result<GeneratedInput, NoMemory>
    requires { IsSize size }
    ensures files { IfOk result (λ input. pairs_of input.files.items ≡ files_of size) }
    ensures record_bytes { IfOk result (λ input. input.record_bytes.items ≡ record_text size) }
{
    Ok(GeneratedInput {
        files: files_of(alloc, size)?,
        record_bytes: record_text(alloc, size)?,
    })
}
