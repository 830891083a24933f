//! What a run opens with: its ports, its files and its grid.

ghost use Rattle.std.specs.Prelude.{◌≡◌, ◌≤◌};
ghost use Rattle.orca_base.specs.declared.limits.TheConstants.{MAX_HISTORY};
ghost use Rattle.orca_course.specs.Worlds.{Calls, LeavesInbox};
ghost use Rattle.orca_player.specs.Outlines.{attach_acts, attach_act};
ghost use Rattle.orca_words.specs.RequestIn.{setup_in, text_in};

use orca_base::Port;
use orca_course::{Desk, NoMemory};
use orca_grid::Grid;
use orca_rig::House;
use orca_words::Setup;
use std::alloc::Global;

/// An opened grid, before the first command.
#[derive(Drop)]
pub(crate) struct Opening {
    /// Where a session takes its memory.
    pub(crate) alloc: Global,
    /// The grid.
    pub(crate) grid: Grid,
    /// The seed of the random operator.
    pub(crate) seed: u32,
    /// The most entries of the history.
    pub(crate) limit: u32,
    ghost some: { 1 ≤ limit },
    ghost few: { limit ≤ MAX_HISTORY },
}

/// Attaches the ports that have a name, in order: MIDI, UDP, OSC. An attach that fails is recorded,
/// and the run goes on.
pub(crate) fn attach_all<H: House>(desk: &mut Desk<H>, setup: &Setup<'_>) -> Result<(), NoMemory>
    ensures called { Calls (attach_acts (setup_in setup.now)) result desk.old desk.new }
    ensures inbox { LeavesInbox desk.old desk.new }
{
    attach(desk, Port::Midi, setup.midi)?;
    attach(desk, Port::Udp, setup.udp)?;
    attach(desk, Port::Osc, setup.osc)
}

/// Attaches a port to its name, if it has one.
#[tactic(auto, using(orca_course::proofs::WorldLemmas::called_still))]
pub(crate) fn attach<H: House>(
    desk: &mut Desk<H>,
    port: Port,
    name: Option<&str>,
) -> Result<(), NoMemory>
    ensures called { Calls (attach_act port (text_in name.entry)) result desk.old desk.new }
    ensures inbox { LeavesInbox desk.old desk.new }
{
    match name {
        None => Ok(()),
        Some(name) => desk.attach(port, name),
    }
}
