//! One session's names, and its commands that make sampled cords over the pool and the desk of records. What a command does and answers is
//! `cord_steps`' step; each cord that leaves the names is released.
//!
//! Not here yet: changes of cords, joins and questions.
#![tactic(auto)]

mod answer;
mod cord;
mod external;
mod lending;
mod making;
mod setting;
mod texts;

pub use answer::{Answer, done, refusal, told, unset};
pub use cord::SessionCord;
pub use external::set_external;
pub use lending::{let_go, put_back, take_out};
pub use making::{clear, copy, set_text, sub};
pub use setting::set_made;
