ghost use Rattle.std.specs.Prelude.{◌≡◌, ◌≤◌, [], if◌then◌else◌, IfOk, None, replicate};
ghost use Rattle.std.specs.Option.{option_map};
ghost use Rattle.orca_concert.specs.Stages.{standing_of};
ghost use Rattle.orca_live.specs.Starting.{live_at_start};
ghost use Rattle.orca_base.specs.declared.limits.TheConstants.{MAX_SCREEN_COLUMNS, MAX_SCREEN_ROWS, MIN_SCREEN_COLUMNS, MIN_SCREEN_ROWS};
ghost use Rattle.orca_live.specs.States.{is_full, live_state, residue_of, setting_in, status_line_at, until_at, word_at};
ghost use Rattle.orca_term.specs.Came.{came_to};
ghost use Rattle.orca_term.specs.Traffic.{nothing_sent};

use crate::{Quiet, Setting};
use orca_base::limits::MAX_HANDS;
use orca_base::{Command, Memory};
use orca_concert::Stage;
use orca_course::Losses;
use orca_edit::Machine;
use orca_jam::{Crew, LEADER};
use orca_term::{Came, Pacer, ScreenSize, StatusLine, View};
use std::alloc::Global;

/// Room for what is told to all hands.
const SEATS: usize = MAX_HANDS as usize;

/// All that a performance keeps. A contract outside sees its state (`live_state`), and no field.
#[derive(Drop)]
pub struct Live<'a, M> {
    /// How it plays, and where it is saved.
    pub(crate) setting: Setting<'a>,
    /// The session, and what is counted of it.
    pub(crate) stage: Stage<M, Quiet>,
    /// The hands: the keys and the editor of each, and whose each entry of the history is.
    pub(crate) crew: Crew,
    /// When the next frame is due.
    pub(crate) pacer: Pacer,
    /// What each hand is shown that has a picture, from the first one on.
    pub(crate) views: Vec<View>,
    /// The commands so far, if a script is saved at the end.
    pub(crate) given: Option<Vec<Command>>,
    /// The lines of commands that are not yet added to the journal, if one is kept.
    pub(crate) unwritten: Vec<u8>,
    /// Whether a command that a save of the grid would keep came after the last of them.
    pub(crate) loose: bool,
    /// The moment of the last answer of the inbox, in microseconds.
    pub(crate) at: u64,
    /// What the calls came to, as it was told last.
    pub(crate) came: Losses,
    /// What the last key of each hand came to.
    pub(crate) words: [Came; SEATS],
    /// Room for what is saved.
    pub(crate) text: Vec<u8>,
}

/// So many views of screens of this size, with room for all their pictures.
fn start_views(alloc: Global, screen: ScreenSize, count: u8) -> Result<Vec<View>, Memory>
    requires rows { (MIN_SCREEN_ROWS ≤ screen.rows) × (screen.rows ≤ MAX_SCREEN_ROWS) }
    requires columns { (MIN_SCREEN_COLUMNS ≤ screen.columns)
        × (screen.columns ≤ MAX_SCREEN_COLUMNS) }
    ensures { IfOk result (λ views. views.items
        ≡ replicate count (record { size = screen; last = None; bytes = [] })) }
{
    let mut views = Vec::with_capacity(alloc, usize::from(count))?;
    for _view in 0..count {
        views.push(View::start(alloc, screen.rows, screen.columns)?)?;
    }
    Ok(views)
}

impl<'a, M: Machine> Live<'a, M> {
    /// A performance of these hands, before its first picture, that starts at a moment in
    /// microseconds. [`Memory`] if the room for the pictures is refused.
    pub fn start(
        alloc: Global,
        stage: Stage<M, Quiet>,
        setting: Setting<'a>,
        crew: Crew,
        at: u64,
    ) -> Result<Live<'a, M>, Memory>
        requires { stage.report.sent ≡ nothing_sent }
        ensures state { IfOk result (λ live.
            live_state M.Machine.own live ≡ live_at_start (setting_in setting.entry) crew at
            (standing_of M.Machine.own stage)) }
        ensures residue { IfOk result (λ live.
            residue_of M.Machine.own live ≡ M.residue stage.machine) }
    {
        let views = start_views(alloc, setting.screen, crew.viewers())?;
        Ok(Live {
            setting,
            stage,
            crew,
            pacer: Pacer::start(at, setting.bpm),
            views,
            given: setting.script.map(|_| Vec::new(alloc)),
            unwritten: Vec::new(alloc),
            loose: false,
            at,
            came: Losses {
                midi: false,
                udp: false,
                osc: false,
                journal: false,
                unsaved: false,
                unstored: false,
            },
            words: [Came::Well; SEATS],
            text: Vec::new(alloc),
        })
    }

    /// The seed of the random operator, which the saved script carries.
    pub fn seed(&self) -> u32
        ensures { result ≡ (live_state M.Machine.own self.now).setting.seed }
    {
        self.setting.seed
    }

    /// The commands so far, if a script is saved at the end.
    pub fn given(&self) -> Option<&[Command]>
        ensures { option_map (λ commands. commands.now) result
            ≡ (live_state M.Machine.own self.now).given }
    {
        match &self.given {
            Some(commands) => Some(commands.as_slice()),
            None => None,
        }
    }

    /// Whether a command that a save of the grid would keep came after the last of them.
    pub fn is_loose(&self) -> bool
        ensures { result ≡ (live_state M.Machine.own self.now).loose }
    {
        self.loose
    }

    /// What the last key of a hand came to, or with plain keys the last command of anybody.
    fn word(&self, hand: u8) -> Came
        ensures { let s = live_state M.Machine.own self.now in
            result ≡ (if s.crew.full then word_at hand s else came_to s.standing.tally.refusal) }
    {
        if !self.crew.reads_full() {
            return Came::of(self.stage.tally.refusal);
        }
        match self.words.get(usize::from(hand)) {
            Some(came) => *came,
            None => Came::Well,
        }
    }

    /// What the status line of a hand tells besides its editor.
    pub(crate) fn line(&self, hand: u8) -> StatusLine
        ensures { result ≡ status_line_at hand (live_state M.Machine.own self.now) }
    {
        let full = self.crew.reads_full();
        StatusLine {
            tick: self.stage.machine.tick(),
            moments: self.stage.machine.moments(),
            sounding: self.stage.machine.notes().len() as u32,
            tempo: self.pacer.tempo(),
            no_midi: full && self.came.midi,
            no_udp: full && self.came.udp,
            no_osc: full && self.came.osc,
            no_journal: full && self.came.journal,
            away: self.crew.away(),
            unsaved: full && hand == LEADER && self.came.unsaved,
            warns: full,
            came: self.word(hand),
        }
    }

    /// The moment that a poll waits for.
    pub(crate) fn until_moment(&self) -> Option<u64>
        ensures { result ≡ until_at (live_state M.Machine.own self.now) }
    {
        if self.crew.leader().paused {
            return None;
        }
        Some(self.pacer.due_at())
    }

    /// Whether the history has as many entries as it may have.
    pub(crate) fn is_full(&self) -> bool
        ensures { result ≡ is_full (live_state M.Machine.own self.now) }
    {
        self.stage.machine.limit() <= self.stage.machine.moments()
    }
}
