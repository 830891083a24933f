//! A session: a piece that plays, is edited, and goes back in its history and forward again.
//!
//! A [`Session`] is a machine that obeys commands, seen as its opened grid and the list of what was
//! done since. It keeps the piece as it stands on a live board, so that no command folds the
//! history. It goes back by the patches of the newest entries, and by checkpoints.
#![tactic(auto)]

mod again;
mod keeping;
mod past;
mod session;

pub use session::Session;
