//! The board: 64 cells that sessions share, and the history of what they did to them.
#![tactic(auto)]

mod actions;
mod board;
mod cells;
mod item;
#[cfg(test)]
mod lending_tests;
mod passes;
mod rule;
mod start;
#[cfg(test)]
mod tests;
mod view;

pub use board::Board;
pub use cells::Cells;
pub use item::{BoardItem, Twin};
pub use passes::BoardPass;
pub use plain_cord::{Act, Entry};
pub use rule::BoardRule;
pub use view::BoardView;
