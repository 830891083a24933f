//! A performance: a piece that plays while it is edited by keys.
//!
//! [`Live`] is a [`Performer`](orca_course::Performer): it paints the first picture, and then does
//! what items bring. Keys go to the editor, its commands to the session, and a
//! due moment plays a frame. Each message is sent at once, and after each answer the picture is
//! painted. At the end every note ends, and the grid and the script of the commands are saved. If a
//! journal is kept, the commands of each answer are added to it before the picture.
#![tactic(auto, using(orca_course::proofs::WorldLemmas::called_still))]

mod clock;
mod journal;
mod keyboard;
mod laws;
mod live;
mod painting;
mod performance;
mod quiet;
mod saving;
mod setting;
mod unmarked;

pub use laws::{
    appending_law, cutting_law, hands_law, journal_law, painting_law, script_law, solo_law,
    telling_law,
};
pub use live::Live;
pub use quiet::Quiet;
pub use setting::Setting;
