//! Reads and writes of the system that are made again where a signal, a stop or a tracer broke them off.

ghost use Rattle.std.specs.Prelude.{◌≡◌, ◌<◌, ◌≤◌, ℕ, length, take, IfSome};
ghost use Rattle.std.specs.Io.KnownBytes.{Appends, Consumes, IsAtEnd};

use std::io::{ErrorKind, Read, Write};

/// Reads octets of a stream. A read that was broken off before any came is made again. None where it fails.
pub(crate) fn read_on<S: Read>(stream: &mut S, buf: &mut [u8]) -> Option<usize>
    ensures count { IfSome result (λ count. count ≤ length buf.old) }
    ensures given { IfSome result (λ count. Consumes (S.remaining stream.old)
        (S.remaining stream.new) (take count buf.new)) }
    ensures ended { IfSome result (λ count. count ≡ 0 → 0 < length buf.old
        → IsAtEnd (S.remaining stream.new)) }
{
    for _ in 0..u64::MAX {
        match stream.read(buf) {
            Ok(count) => return Some(count),
            Err(error) if error.kind() == ErrorKind::Interrupted => {}
            Err(_) => return None,
        }
    }
    None
}

/// Writes the first octets of `buf` to a stream. A write that was broken off before any was taken is made again. None where it fails, and
/// where it takes none of a buffer that isn't empty.
pub(crate) fn write_on<S: Write>(stream: &mut S, buf: &[u8]) -> Option<usize>
    ensures count { IfSome result (λ count. count ≤ length buf.now) }
    ensures some { IfSome result (λ count. 0 < length buf.now → 0 < count) }
    ensures taken { IfSome result (λ count. Appends (S.contents stream.old)
        (S.contents stream.new) (take count buf.now)) }
{
    for _ in 0..u64::MAX {
        match stream.write(buf) {
            Ok(count) if count > 0 || buf.is_empty() => return Some(count),
            Err(error) if error.kind() == ErrorKind::Interrupted => {}
            _ => return None,
        }
    }
    None
}

/// What a read or a write that waits for a time comes to.
#[derive(Clone, Copy)]
pub(crate) enum Moved {
    /// So many octets were read or taken.
    Octets(usize),
    /// None were in that time.
    None,
    /// It failed.
    Fault,
}

/// Reads octets of a stream whose reads wait for a time. A read that was broken off is made again.
pub(crate) fn read_in_time<S: Read>(stream: &mut S, buf: &mut [u8]) -> Moved
    ensures count { (count : ℕ) → result ≡ Moved.Octets count → count ≤ length buf.old }
    ensures given { (count : ℕ) → result ≡ Moved.Octets count → Consumes (S.remaining stream.old)
        (S.remaining stream.new) (take count buf.new) }
    ensures ended { result ≡ Moved.Octets 0 → 0 < length buf.old
        → IsAtEnd (S.remaining stream.new) }
{
    for _ in 0..u64::MAX {
        match stream.read(buf) {
            Ok(count) => return Moved::Octets(count),
            Err(error) => match error.kind() {
                ErrorKind::Interrupted => {}
                ErrorKind::WouldBlock => return Moved::None,
                _ => return Moved::Fault,
            },
        }
    }
    Moved::Fault
}

/// Writes the first octets of `buf` to a stream whose writes wait for a time. A write that was broken off is made again, and one that
/// takes none of a buffer that isn't empty fails.
pub(crate) fn write_in_time<S: Write>(stream: &mut S, buf: &[u8]) -> Moved
    ensures count { (count : ℕ) → result ≡ Moved.Octets count → count ≤ length buf.now }
    ensures some { (count : ℕ) → result ≡ Moved.Octets count → 0 < length buf.now → 0 < count }
    ensures taken { (count : ℕ) → result ≡ Moved.Octets count → Appends (S.contents stream.old)
        (S.contents stream.new) (take count buf.now) }
{
    for _ in 0..u64::MAX {
        match stream.write(buf) {
            Ok(count) if count > 0 || buf.is_empty() => return Moved::Octets(count),
            Ok(_) => return Moved::Fault,
            Err(error) => match error.kind() {
                ErrorKind::Interrupted => {}
                ErrorKind::WouldBlock => return Moved::None,
                _ => return Moved::Fault,
            },
        }
    }
    Moved::Fault
}
