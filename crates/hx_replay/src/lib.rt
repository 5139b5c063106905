//! What programs share that replay a record through a configuration: the replay itself, over
//! whatever answers the events, a record whose last bytes are kept, and what a person is told of a
//! run that ended: the reason by its code, and the place of the fault.
//!
//! A program says what answers an event by an impl of `Answerer`, and what that means by its
//! `Behavior`. `specs/Replay.antt` says what a record is answered under a behavior.
//!
//! ```
//! let mut engine = CountedEngine::new(alloc, rules, refs); // hxeval's answerer
//! replay(alloc, &mut engine, &mut record, &mut out, &mut maker)?;
//! ```
//!
//! ```
//! fn tell<K: Sink, F: Files, S>(
//!     alloc: Global,
//!     err: &mut K,
//!     config: &KnownConfig<'_>,
//!     (line, code): (u64, u32),
//!     files: &mut F,
//!     record: &RecentRecord<S>,
//! ) {
//!     let ending = Ending::ConfigRefused { line, code };
//!     let place = place_of(alloc, ending, config, &[], files, record, 0);
//!     let told = Told {
//!         name: config.name,
//!         place: &place.text,
//!         reason: place.reason,
//!         file: b"",
//!         large: b"",
//!     };
//!     let _ = explain(err, b"hxeval", ending, b"", &told);
//! }
//! ```
#![tactic(auto)]

mod answerer;
mod answers;
mod config_load;
mod counting;
mod ending;
mod explanation;
mod file_place;
mod judged_word;
mod line_place;
mod place;
mod recent_record;
mod record_place;
mod record_replay;
mod refused_word;
mod replay_fault;
mod spelling;
mod unknown_call;

pub use answerer::Answerer;
pub use answers::Answers;
pub use config_load::{LoadedConfig, load_config};
pub use counting::count_request;
pub use ending::Ending;
pub use explanation::{Told, explain};
pub use place::{KnownConfig, Place, place_of};
pub use recent_record::RecentRecord;
pub use record_replay::replay;
pub use replay_fault::ReplayFault;
