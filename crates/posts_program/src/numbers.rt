//! The numbers of the program.

/// The program (this project's own, of the range that RFC 5531 section 8.3 leaves to users).
pub const PROGRAM: u32 = 0x2000_4753;
/// Its version.
pub const VERSION: u32 = 1;
/// Its procedures: an echo.
pub const ECHO: u32 = 1;
/// Its procedures: the caller's name.
pub const WHOAMI: u32 = 2;
/// Its procedures: a post.
pub const POST: u32 = 3;
/// Its procedures, the last: the count of posts.
pub const COUNT: u32 = 4;

/// The most octets of what is echoed or posted.
pub const MOST_POSTED: u32 = 65_536;
/// The count of posts stays here once it came so far.
pub const MOST_POSTS: u64 = 18_446_744_073_709_551_615;
