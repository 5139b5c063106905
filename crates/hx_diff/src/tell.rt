ghost use Rattle.hx_replay.specs.Explanation.{TellsSome};
ghost use Rattle.hx_diff.specs.Explanation.{explanation};

use crate::explain::{ending_of, explain, given_name};
use crate::run::Ended;
use crate::run_fault::Side;
use hx_outside::{Files, Sink};
use hx_program::KnownFiles;
use hx_replay::{KnownConfig, Place, RecentRecord, Told, place_of};
use std::alloc::Global;

/// Writes to `err` why a run of these words, over these files and this record, ended so: its fault
/// and, as far as that is known, its place, in the configuration that was read last. `large` is the
/// last regular expression that was too large.
pub fn tell<K: Sink, F: Files + Drop, S>(
    alloc: Global,
    err: &mut K,
    ended: Ended,
    words: &[Vec<u8>],
    env: &[(Vec<u8>, Vec<u8>)],
    files: KnownFiles<F>,
    record: &RecentRecord<S>,
    large: &[u8],
)
    ensures { TellsSome (explanation ended.status ended.fault) (K.written err.old)
        (K.written err.new) }
{
    let side = ended.reached.side;
    let name = given_name(side, words);
    let (mut files, old_text, last) = files.into_parts();
    let text = match side {
        Side::Old => old_text,
        Side::New => files.read(alloc, name).ok(),
    };
    let config = KnownConfig::new(name, text.as_deref(), file_after(name, last.as_deref()));
    let ending = ending_of(ended);
    let requests = ended.reached.requests;
    let Place { text, reason } = place_of(
        alloc, ending, &config, env, &mut files, record, requests,
    );
    let file = last.as_deref().unwrap_or(name);
    let told = Told::new(name, &text, reason, file, large);
    let _ = explain(err, ended, &told);
}

/// The file that was read last after the configuration of this name, if one was.
fn file_after<'t>(name: &[u8], last: Option<&'t [u8]>) -> Option<&'t [u8]> {
    match last {
        Some(file) => { if file == name { None } else { Some(file) } }
        None => None,
    }
}
