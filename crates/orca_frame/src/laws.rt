ghost use Rattle.orca_op.specs.Laws.{IsLawful};
ghost use Rattle.orca_op.specs.Rules.{rule};

use ops_grid::{Generator, Konkat, Push, Query, ReadAt, Track, Variable, WriteAt};
use ops_io::{ControlChange, Midi, Mono, OscMessage, PitchBend, UdpText};
use ops_math::{
    Add, Clock, Delay, IfEqual, Increment, Lerp, Lesser, Multiply, Random, Subtract, Uclid,
};
use ops_motion::{Bang, Comment, East, Halt, Jumper, Jymper, North, South, West};
use orca_op::Operator;

/// The operator table is lawful, since each operator proves the laws of its own rule. It does nothing.
pub fn table_laws()
    ensures { IsLawful rule }
{
    // Each call gives one law, and the proof cites it by the name that it has here.
    let add = Add.lawful();
    let subtract = Subtract.lawful();
    let clock = Clock.lawful();
    let delay = Delay.lawful();
    let east = East.lawful();
    let if_equal = IfEqual.lawful();
    let generator = Generator.lawful();
    let halt = Halt.lawful();
    let increment = Increment.lawful();
    let jumper = Jumper.lawful();
    let konkat = Konkat.lawful();
    let lesser = Lesser.lawful();
    let multiply = Multiply.lawful();
    let north = North.lawful();
    let read_at = ReadAt.lawful();
    let push = Push.lawful();
    let query = Query.lawful();
    let random = Random.lawful();
    let south = South.lawful();
    let track = Track.lawful();
    let uclid = Uclid.lawful();
    let variable = Variable.lawful();
    let west = West.lawful();
    let write_at = WriteAt.lawful();
    let jymper = Jymper.lawful();
    let lerp = Lerp.lawful();
    let bang = Bang.lawful();
    let comment = Comment.lawful();
    let midi = Midi.lawful();
    let mono = Mono.lawful();
    let control_change = ControlChange.lawful();
    let pitch_bend = PitchBend.lawful();
    let udp_text = UdpText.lawful();
    let osc_message = OscMessage.lawful();
}
