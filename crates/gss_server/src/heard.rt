//! A call that was heard.

ghost use Rattle.std.specs.Prelude.{◌≤◌, length};

use rpc_msgs::Call;
use sec_base::Moment;

/// A call that was read, the octets of its record, and with what it is answered.
#[derive(Drop)]
pub(crate) struct Heard<'a> {
    pub bytes: &'a [u8],
    pub call: Call<'a>,
    pub now: Moment,
    pub draws: [u8; 82],
    pub width: u32,
    ghost within: { call.header ≤ length bytes.now },
}
