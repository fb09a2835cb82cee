//! The messages of ONC RPC version 2 (RFC 5531) and the records in which they stand in a stream.
#![tactic(auto)]

mod auth;
mod call;
pub mod numbers;
mod opaque;
mod record;
mod reply;
mod reply_reading;
mod xdr_reader;
mod xdr_writer;

pub use auth::Auth;
pub use call::{Call, CallRefusal, read_call, write_call, write_header};
pub use opaque::opaque_alone;
pub use record::{RecordRefusal, next_record, write_record};
pub use reply::{Reply, put_accepted, write_reply};
pub use reply_reading::{ReplyRefusal, read_reply};
pub use xdr_reader::{XdrReader, XdrRefusal, XdrWhy};
pub use xdr_writer::XdrWriter;
