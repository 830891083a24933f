//! The operators that read and write across the grid, and the variables.
#![tactic(auto)]

mod generator;
mod konkat;
mod push;
mod query;
mod read_at;
mod span;
mod track;
mod variable;
mod write_at;

pub use generator::Generator;
pub use konkat::Konkat;
pub use push::Push;
pub use query::Query;
pub use read_at::ReadAt;
pub use track::Track;
pub use variable::Variable;
pub use write_at::WriteAt;
