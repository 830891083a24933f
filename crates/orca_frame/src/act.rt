ghost use Rattle.std.specs.Prelude.{◌≡◌, ◌+◌, ◌*◌, ◌<◌, ◌≤◌, length, Some};
ghost use Rattle.orca_base.specs.declared.limits.TheConstants.{MAX_STEPS};
ghost use Rattle.orca_base.specs.Grids.{IsInside};
ghost use Rattle.orca_op.specs.Slate.{HasEventRoom, slate_after_all};
ghost use Rattle.orca_op.specs.Kinds.{kind_of};
ghost use Rattle.orca_op.specs.Rules.{rule};
ghost use Rattle.orca_op.specs.State.{state_glyph};

use ops_grid::{Generator, Konkat, Push, Query, ReadAt, Track, Variable, WriteAt};
use ops_io::{ControlChange, Midi, Mono, OscMessage, PitchBend, UdpText};
use ops_math::{
    Add, Clock, Delay, IfEqual, Increment, Lerp, Lesser, Multiply, Random, Subtract, Uclid,
};
use ops_motion::{Bang, Comment, East, Halt, Jumper, Jymper, North, South, West};
use orca_base::{Glyph, Now, Place, Steps};
use orca_op::{Bench, Kind, Operator};
use std::sync::ledger::Ledger;

/// Does the deeds of the operator that the glyph stands for, and nothing where it is none. It stands apart, so
/// that the walk of a row keeps its registers.
#[tactic(auto, unfolding(orca_op::specs::Rules::rule))]
#[inline(never)]
pub(crate) fn act<B: Bench, L: Ledger>(
    bench: &mut B,
    at: Place,
    glyph: Glyph,
    now: Now,
    steps: &mut Steps<L>,
)
    requires inside { IsInside (B.slate bench.old).scan.dims at }
    requires holds { glyph ≡ state_glyph (B.slate bench.old).scan at }
    requires room { HasEventRoom (B.slate bench.old) }
    ensures deeds { B.slate bench.new ≡ slate_after_all (B.slate bench.old)
        (rule glyph (B.slate bench.old).scan at now) }
    ensures steps { steps.new ≤ steps.old + MAX_STEPS }
    ensures later { steps.old ≤ steps.new }
{
    let Some(kind) = Kind::of(glyph) else {
        return;
    };
    match kind {
        Kind::Add => Add.act(bench, at, glyph, now, steps),
        Kind::Subtract => Subtract.act(bench, at, glyph, now, steps),
        Kind::Clock => Clock.act(bench, at, glyph, now, steps),
        Kind::Delay => Delay.act(bench, at, glyph, now, steps),
        Kind::East => East.act(bench, at, glyph, now, steps),
        Kind::IfEqual => IfEqual.act(bench, at, glyph, now, steps),
        Kind::Generator => Generator.act(bench, at, glyph, now, steps),
        Kind::Halt => Halt.act(bench, at, glyph, now, steps),
        Kind::Increment => Increment.act(bench, at, glyph, now, steps),
        Kind::Jumper => Jumper.act(bench, at, glyph, now, steps),
        Kind::Konkat => Konkat.act(bench, at, glyph, now, steps),
        Kind::Lesser => Lesser.act(bench, at, glyph, now, steps),
        Kind::Multiply => Multiply.act(bench, at, glyph, now, steps),
        Kind::North => North.act(bench, at, glyph, now, steps),
        Kind::ReadAt => ReadAt.act(bench, at, glyph, now, steps),
        Kind::Push => Push.act(bench, at, glyph, now, steps),
        Kind::Query => Query.act(bench, at, glyph, now, steps),
        Kind::Random => Random.act(bench, at, glyph, now, steps),
        Kind::South => South.act(bench, at, glyph, now, steps),
        Kind::Track => Track.act(bench, at, glyph, now, steps),
        Kind::Uclid => Uclid.act(bench, at, glyph, now, steps),
        Kind::Variable => Variable.act(bench, at, glyph, now, steps),
        Kind::West => West.act(bench, at, glyph, now, steps),
        Kind::WriteAt => WriteAt.act(bench, at, glyph, now, steps),
        Kind::Jymper => Jymper.act(bench, at, glyph, now, steps),
        Kind::Lerp => Lerp.act(bench, at, glyph, now, steps),
        Kind::Bang => Bang.act(bench, at, glyph, now, steps),
        Kind::Comment => Comment.act(bench, at, glyph, now, steps),
        Kind::Midi => Midi.act(bench, at, glyph, now, steps),
        Kind::Mono => Mono.act(bench, at, glyph, now, steps),
        Kind::ControlChange => ControlChange.act(bench, at, glyph, now, steps),
        Kind::PitchBend => PitchBend.act(bench, at, glyph, now, steps),
        Kind::UdpText => UdpText.act(bench, at, glyph, now, steps),
        Kind::OscMessage => OscMessage.act(bench, at, glyph, now, steps),
    }
}
