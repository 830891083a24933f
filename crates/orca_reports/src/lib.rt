//! What is printed and saved of a run: a report for each of the words whose commands are a list. No
//! report gives a message.
#![tactic(auto, using(orca_course::proofs::WorldLemmas::called_still))]

mod events;
mod figures;
mod going;
mod laws;
mod listener;
mod make;
mod midi;
mod recorder;
mod recovery;
mod replay;
mod run;
mod smf;
mod state;
mod wav;

pub use events::EventsReport;
pub use laws::{saving_law, tick_law, wave_law};
pub use make::MakeReport;
pub use recovery::RecoveryReport;
pub use replay::ReplayReport;
pub use run::RunReport;
pub use smf::SmfReport;
pub use state::StateReport;
pub use wav::{WavReport, wave_bytes};
