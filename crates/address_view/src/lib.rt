//! Guest addresses as windows into memory: loads, stores and byte ranges through them.
#![tactic(auto)]

mod access;
mod code;
mod frames;
mod laws;
mod ranges;
mod run;
mod store;
mod view;
mod viewed;

pub use access::{load_through, number_slowly, refused};
pub use code::CodePage;
pub use frames::{ByteRange, lacks_after, lacks_cleared};
pub use laws::{
    bytes_behind_a_store, code_stays, one_address, others_stay, places_decide, ranges_are_marked,
    ranges_pass, ranges_suffice, seen_and_shown, seen_elsewhere, stores_follow,
    touched_pages_suffice,
};
pub use ranges::{
    allowed, is_seen, load_bytes, put_bytes, put_touched, seen_part, store_bytes, touch_bytes,
};
pub use view::{View, Window};
pub use viewed::Viewed;
