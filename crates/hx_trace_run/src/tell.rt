ghost use Rattle.hx_replay.specs.Explanation.{TellsSome};
ghost use Rattle.hx_trace_run.specs.Explanation.{explanation};

use crate::explain::{explain, given_name};
use hx_outside::{Files, Sink};
use hx_program::KnownFiles;
use hx_replay::{KnownConfig, Place, RecentRecord, Told, place_of};
use hx_run::Ended;
use hx_run::explain::ending_of;
use std::alloc::Global;

/// Writes to `err` why a run of these words, over these files and this record, ended so: its fault
/// and, as far as that is known, its place. `large` is the last regular expression that was too
/// large.
pub fn tell<K: Sink, F: Files + Drop, S>(
    alloc: Global,
    err: &mut K,
    ended: Ended,
    words: &[Vec<u8>],
    env: &[(Vec<u8>, Vec<u8>)],
    files: KnownFiles<F>,
    record: &RecentRecord<S>,
    large: &[u8],
)
    ensures { TellsSome (explanation ended.status ended.fault) (K.written err.old)
        (K.written err.new) }
{
    let name = given_name(words);
    let (mut files, text, last) = files.into_parts();
    let config = KnownConfig::new(name, text.as_deref(), last.as_deref());
    let ending = ending_of(ended);
    let requests = ended.requests;
    let Place { text, reason } = place_of(
        alloc, ending, &config, env, &mut files, record, requests,
    );
    let file = last.as_deref().unwrap_or(name);
    let told = Told::new(name, &text, reason, file, large);
    let _ = explain(err, ended, &told);
}
