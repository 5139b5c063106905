//! How the texts in a configuration's words spell expressions, criteria and formats, and what the
//! lines so far bring.
//!
//! ```
//! let mut known = Knowledge::new(alloc);
//! let ExprRead { expr, .. } = expr_of(&mut known, alloc, 1, None, b"req.hdr(host),lower")?;
//! let Criterion { expr, by } = criterion_of(&mut known, alloc, 2, b"path_beg")?;
//! let format = format_of(&mut known, alloc, 3, b"/%[path,map(pages.map)]")?;
//! let tables = known.into_tables();
//! ```
//!
//! A text spells calls (`next_call` of hx_words), of which the first writes a fetch and the others
//! converters: `WritesExpr`, `WritesCriterion` and `WritesFormat` are the relations between what is
//! read and its text, and `expr_of`, `criterion_of` and `format_of` the same as functions with the
//! codes of other texts. The converters of maps bring references and heads, which `Knowledge` keeps
//! beside those of ACLs and the names of these.
#![tactic(auto)]

mod arguments;
mod convs;
mod criteria;
mod derived_table;
mod expression;
mod fault;
mod fetches;
mod formats;
mod forms;
mod known;
pub mod laws;
pub mod lookup;
mod map_table;
mod table_specs;
mod values;
mod variables;

pub use arguments::{bare, counted, required};
pub use convs::ConvName;
pub use criteria::{Criterion, criterion_of};
pub use expression::{ExprRead, expr_of};
pub use fault::{
    BAD_ARGUMENT, BAD_CONDITION, BAD_NAME, MISPLACED, SpellFault, UNKNOWN_ACL, UNSUPPORTED,
    form_fault,
};
pub use fetches::FetchName;
pub use formats::format_of;
pub use forms::{Form, Variable};
pub use known::{Knowledge, Lengths};
pub use table_specs::{HeadSpec, MapOutput, TableSpec, TableSpecs};
pub use values::{header, is_among, width};
