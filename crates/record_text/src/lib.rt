//! The lines that a run prints: each has one text, and that text is read back as it.
#![tactic(auto)]

mod cause;
mod console;
mod hex_bytes;
mod image_line;
mod image_reading;
mod image_writing;
mod line;
mod reading;
mod service;
mod writing;

pub use cause::Cause;
pub use hex_bytes::bytes_of;
pub use image_line::{ImageFault, ImageLine, RelocKind};
pub use image_reading::read_image_line;
pub use image_writing::{push_decimal, push_image_line, push_place};
pub use line::Line;
pub use reading::read_line;
pub use record_names::{
    Fault, Part, Rule, fault_of, fault_text, faults_read_back, part_of, parts_read_back, rule_of,
    rules_read_back,
};
pub use service::{service_name, service_slot, services_read_back};
pub use writing::line_text;
