//! What a run of desks came to.

ghost use Rattle.std.specs.Prelude.{◌≡◌, None, IfSome, reverse};
ghost use Rattle.accept_core.specs.Legal.{Legal};
ghost use Rattle.accept_core.specs.Logs.{no_log};
ghost use Rattle.accept_book.specs.Booking.{with_setup};
ghost use Rattle.server_desks.specs.Courses.{IsLogOf};

use accept_book::{Book, Log};
use server_options::RunEnd;

/// What a run came to.
#[derive(Drop)]
pub struct Course {
    /// The end of its desks.
    pub end: RunEnd,
    /// The log of the book that they asked, which is empty and has no limits where there was none.
    pub log: Log,
}

/// The course of a run that ended so over this book, None where there was none.
pub fn course_of(end: RunEnd, book: Option<Book>) -> Course
    ensures end { result.end ≡ end }
    ensures log { IfSome book (λ asked. (setup : _) → IsLogOf (with_setup setup asked) result.log) }
    ensures legal { Legal result.log.width (reverse result.log.entries) }
    ensures empty { book ≡ None → result.log ≡ no_log }
{
    match book {
        Some(book) => Course {
            end,
            log: book.into_log(),
        },
        None => Course {
            end,
            log: Log::empty(),
        },
    }
}

/// The course of a run that has no memory to serve its desks.
pub fn starved() -> Course
    ensures end { result.end ≡ RunEnd.NoMemory }
    ensures log { result.log ≡ no_log }
{
    course_of(RunEnd::NoMemory, None)
}
