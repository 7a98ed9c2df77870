//! The certificate of a driver: what a TOML document says, or the first thing that is wrong with it.
#![tactic(auto)]

mod apart;
mod cert;
mod fault;
mod forms;
mod laws;
mod lists;
mod parts;
mod reading;
mod words;
mod writing;

pub use cert::{Cert, CertEntry, CertSpan, Class, Node, OwnRegion, RegKind, StackPart};
pub use fault::{CertFault, Part};
pub use laws::{certs_keep_forms, certs_read_back, items_read_back};
pub use reading::read_cert;
pub use writing::cert_text;
