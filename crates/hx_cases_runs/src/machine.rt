use hx_outside::{FailMaker, LogFiles, MemFiles, MemSink, MemSource};
use hx_program::KnownFiles;
use hx_replay::RecentRecord;

/// What a program finds: its words and variables, files, a record on standard input, standard
/// output, and a maker of expressions.
#[derive(Drop)]
pub struct Machine {
    pub words: Vec<Vec<u8>>,
    pub env: Vec<(Vec<u8>, Vec<u8>)>,
    pub files: KnownFiles<LogFiles<MemFiles>>,
    pub record: RecentRecord<MemSource>,
    pub out: MemSink,
    pub maker: FailMaker,
}
