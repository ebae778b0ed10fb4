//! Sessions side by side over one pool and one board, on cords: each in a thread of its own, with a worker and a pass of the board.
//! What lies in the cells at the end is released, and no number is left.
#![tactic(auto)]

mod board_cord;
mod boarding;
mod chairs;
mod peeking;
mod running;
mod session;

pub use board_cord::{BoardCord, Peeker};
pub use boarding::{put, swap, take};
pub use chairs::{BoardChair, Chair};
pub use peeking::peek;
pub use running::{Ran, RunRefused, run_over, run_script};
pub use session::run_session;
