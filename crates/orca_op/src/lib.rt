//! What an operator is: the bench that it works on, its deeds, and the laws that it proves.
#![tactic(auto)]

mod bangs;
mod bench;
mod cursor;
mod kind;
mod live;
mod operator;
mod span;
mod values;
mod walk;

pub use bangs::has_bang;
pub use bench::Bench;
pub use cursor::Cursor;
pub use kind::Kind;
pub use live::next_live;
pub use operator::Operator;
pub use span::Span;
pub use values::{rate_of, value_or};
pub use walk::{LiveRow, Walk};
