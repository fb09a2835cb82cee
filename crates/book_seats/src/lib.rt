//! Seats at one book and the program beside it, which lie behind a lock: desks on threads of their own ask them, and there is one history of all
//! that they asked.
#![tactic(auto)]

mod board;
mod hall;
mod laws;
mod opening;
mod seat;
mod shared;

pub use board::{Begins, Board, Room, Token};
pub use hall::{Clerk, Hall, Writer, open_hall};
pub use laws::{prove_acts_once, prove_desk_told, prove_desks_weigh};
pub use opening::open_board;
pub use seat::Seat;
pub use shared::{Admission, Shared};
