//! A browser as a player, without IO: what a connection asks for by its first bytes, and the
//! WebSocket of its keys, pictures and sound.
#![tactic(auto)]

pub mod answers;
pub mod hand;
pub mod head;
pub mod host;
pub mod incoming;
pub mod judge;
pub mod key;
pub mod limits;
pub mod line;
pub mod outgoing;
pub mod page;
pub mod rest;
