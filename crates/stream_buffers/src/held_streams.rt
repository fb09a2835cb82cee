//! Standard streams that were closed before the program began.

ghost use Rattle.std.specs.Prelude.{◌≡◌, pos, int_lt, ◌<ℤ◌, IfSome};
ghost use Rattle.std.specs.Fd.{file_raw_fd};
ghost use Rattle.stream_buffers.specs.HeldStreams.{number_above, AreLow};

use std::fs::File;
use std::os::fd::AsRawFd;
use std::rt::Files;

/// The number of standard error, the last of the standard streams.
const LAST: i32 = 2;

/// The empty file.
const EMPTY: &str = "/dev/null";

/// The empty file in the place of each standard stream that was closed, and once more behind them. As long as it is held no file and no
/// connection takes such a place, so that nothing that is written to a stream goes there. The empty file is open for reading alone: a
/// write to it fails.
#[derive(Drop)]
pub struct HeldStreams {
    below: [Option<File>; 3],
    above: File,
}

/// Whether a file's number is past those of the standard streams.
fn is_above(file: &File) -> bool
    ensures { result ≡ int_lt (pos 2) (file_raw_fd file.now) }
{
    file.as_raw_fd() > LAST
}

impl HeldStreams {
    /// Opens the empty file until it has a number past those of the standard streams: the system gives each file the lowest number that
    /// is free. None where it can't be opened.
    pub fn hold<R: Files<File = File>>(rt: &R) -> Option<HeldStreams>
        ensures above { IfSome result (λ held. pos 2 <ℤ number_above held) }
        ensures below { IfSome result (λ held. AreLow held) }
    {
        let mut below = [None, None, None];
        for at in 0..4 {
            let file = std::fs::open(rt, EMPTY).ok()?;
            if is_above(&file) {
                return Some(HeldStreams { below, above: file });
            }
            if at < below.len() {
                below[at] = Some(file);
            }
        }
        None
    }
}
