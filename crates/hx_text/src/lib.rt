//! Owned bytes, and the numbers, addresses and networks that the texts of configurations and
//! records write. Each reader answers exactly the value that its grammar gives, and none exactly
//! outside it.
//!
//! ```
//! fn is_private(text: &[u8]) -> bool {
//!     match read_ip(text) {
//!         Some(Ip::V4(address)) => address >> 24 == 10,
//!         _ => false,
//!     }
//! }
//! ```
#![tactic(auto)]

mod address;
mod cut;
mod fault;
mod kinds;
pub mod laws;
mod mapping;
mod methods;
mod names;
mod network;
mod numbers;
mod octets;
mod printing;
mod values;

pub use address::{Ip, read_ip};
pub use cut::{cut_at, without_cr};
pub use fault::NoMemory;
pub use kinds::{By, Kind, Out};
pub use mapping::{map4to6, six_to_four};
pub use names::{Scope, VarName};
pub use network::{Net, read_net};
pub use numbers::{print_i64, read_i64, read_number};
pub use octets::Octets;
pub use printing::print_ip;
pub use values::has_bad_value_byte;
