ghost use Rattle.std.specs.Prelude.{◌≡◌, ◌≤◌, ◌⊎◌, IfOk, IsErrOf, IsSomeAnd};
ghost use Rattle.hx_core.specs.World.{FitRules};
ghost use Rattle.hx_outside.specs.Count.{Rose};
ghost use Rattle.hx_outside.specs.Log.{HoldsSince};
ghost use Rattle.hx_replay.specs.Configs.{ConfigJudgesLast, IsConfigFile, LoadsConfig, config_setting};
ghost use Rattle.hx_replay.specs.ConfigFiles.{ReadsToLoad};

use hx_load::{LoadFault, load};
use hx_outside::{FileFault, Files, ReMaker};
use hx_refs::{Limits, Refs};
use hx_rules::Program;
use std::alloc::Global;

/// A configuration that was loaded: its rules, and the references in which these look values up and
/// which they change.
pub type LoadedConfig = (Program, Refs);

/// Reads the file `name` as a configuration, and loads it under the environment `env`, with the
/// files that it names. The references have the heads and the lists that the rules name.
///
/// `Refused` exactly where the configuration is refused, with the line and the code of its first
/// fault. `Failed` only where the files' count of failures rose; the last name that failed is then
/// `name`, or that of a file to which the configuration comes with no fault before it. `TooLarge`
/// only where the maker's count of texts that were too large rose; the last such text is then one
/// that the configuration or a file of its patterns has read as an expression. `NoMemory` where
/// memory runs out.
pub fn load_config<F: Files, M: ReMaker>(
    alloc: Global,
    env: &[(Vec<u8>, Vec<u8>)],
    files: &mut F,
    name: &[u8],
    maker: &mut M,
) -> Result<LoadedConfig, LoadFault>
    ensures loads { LoadsConfig (config_setting env.now (F.held files.old) name.now) result }
    ensures fit { IfOk result (λ loaded. FitRules loaded.1.content loaded.0) }
    ensures failed { IsErrOf result LoadFault.Failed
        → Rose (F.faults files.old) (F.faults files.new)
        × IsSomeAnd (F.last files.new)
        (IsConfigFile (config_setting env.now (F.held files.old) name.now)) }
    ensures too_large { IsErrOf result LoadFault.TooLarge
        → Rose (M.state maker.old).too_large (M.state maker.new).too_large
        × ConfigJudgesLast (config_setting env.now (F.held files.old) name.now)
        (M.state maker.new).large }
    ensures uncounted { ¬ (IsErrOf result LoadFault.TooLarge)
        → ((M.state maker.new).too_large ≡ (M.state maker.old).too_large)
        × ((M.state maker.new).large ≡ (M.state maker.old).large) }
    ensures held { F.held files.new ≡ F.held files.old }
    ensures named { (F.last files.new ≡ F.last files.old)
        ⊎ IsSomeAnd (F.last files.new)
        (IsConfigFile (config_setting env.now (F.held files.old) name.now)) }
    ensures later { F.faults files.old ≤ F.faults files.new }
    ensures files_read { HoldsSince (F.log files.old) (F.log files.new)
        (ReadsToLoad (config_setting env.now (F.held files.old) name.now) (F.last files.new)
        result) }
{
    match files.read(alloc, name) {
        Ok(config) => load(alloc, config.as_slice(), env, files, maker, Limits::usual()),
        Err(FileFault::Failed) => Err(LoadFault::Failed),
        Err(FileFault::NoMemory) => Err(LoadFault::NoMemory),
    }
}
