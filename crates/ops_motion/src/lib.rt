//! The operators that move, jump, halt, bang and comment.
#![tactic(auto)]

mod bang;
mod chain;
mod comment;
mod east;
mod halt;
mod jumper;
mod jymper;
mod mover;
mod north;
mod reach;
mod south;
mod way;
mod west;

pub use bang::Bang;
pub use comment::Comment;
pub use east::East;
pub use halt::Halt;
pub use jumper::Jumper;
pub use jymper::Jymper;
pub use north::North;
pub use reach::{chain_law, comment_law};
pub use south::South;
pub use west::West;
