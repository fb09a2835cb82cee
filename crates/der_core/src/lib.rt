//! Values of the Distinguished Encoding Rules (ITU-T X.690), read and written, and the token frame of RFC 2743 section 3.1.
#![tactic(auto)]

mod fields;
mod integers;
mod reader;
mod refusal;
mod times;
mod token_frame;
mod values;
mod writer;

pub use fields::{Element, field, optional, put_field, put_optional};
pub use reader::Reader;
pub use refusal::{DerRefusal, DerWhy};
pub use token_frame::{frame, unframe};
pub use writer::Writer;
