//! What keys and the commands that they ask for do.

ghost use Rattle.std.specs.Prelude.{◌≡◌, ◌<◌, ℕ, [], ◌∷◌, ◌++◌, length, map, slice_index_or, slice_set, IfErr, None, OnOk, unwrap_or};
ghost use Rattle.std.specs.Option.{option_map};
ghost use Rattle.orca_base.specs.Areas.{IsArea};
ghost use Rattle.orca_course.specs.Courses.{each};
ghost use Rattle.orca_term.specs.Editing.{area_of};
ghost use Rattle.orca_term.specs.Pacing.{faster, retimed, slower};
ghost use Rattle.orca_term.specs.Picture.{screen_inside};
ghost use Rattle.orca_course.specs.Doing.{goes_of};
ghost use Rattle.orca_course.specs.Worlds.{Called};
ghost use Rattle.orca_live.specs.Performing.{byte_course, hand_course, keys_course, owning, press_course, struck_course, telling, wish_course, words_at_key, loosens};
ghost use Rattle.orca_live.specs.States.{LiveDid, Viewed, around_at, dims_at, editor_at, fitted, live_state, screen_at, unpainted, viewed_in};

use crate::Live;
use crate::journal::note;
use crate::saving::save_grid;
use orca_base::limits::MAX_BPM;
use orca_base::{Command, Look, Place, Port, Rule};
use orca_course::{Desk, NoMemory, Stop};
use orca_edit::Machine;
use orca_jam::{Crew, Denial};
use orca_rig::{Disk, House};
use orca_term::{Around, Came, Key, Pacer, ScreenSize, View, Wish};

/// Keeps a command for the script, if one is saved at the end.
fn keep(given: &mut Option<Vec<Command>>, command: &Command) -> Result<(), NoMemory>
    ensures kept { OnOk result (option_map (λ commands. commands.items) given.new
        ≡ option_map (λ commands. commands ++ command.now ∷ [])
        (option_map (λ commands. commands.items) given.old)) }
    ensures err { IfErr result (λ refused. refused ≡ NoMemory.Elsewhere) }
{
    if let Some(given) = given {
        given.push(*command)?;
    }
    Ok(())
}

/// Keeps whose the entries are after a command of a hand, unless a rule refused it, as far as there is
/// room.
fn own(crew: &mut Crew, who: u8, command: &Command, refused: Option<Rule>, moments: u32)
    ensures { crew.new ≡ owning who command.now refused moments crew.old }
{
    if refused.is_some() {
        return;
    }
    if crew.has_room(moments) {
        crew.took(who, command, moments);
    }
}

/// Whether a command is one that a save of the grid would keep, unless this rule refused it.
fn loosens(command: &Command, refused: Option<Rule>) -> bool
    ensures { result ≡ loosens command.now refused }
{
    refused.is_none()
        && !matches!(
            command,
            Command::Frame
                | Command::Reset
                | Command::Hush
                | Command::Copy { .. }
                | Command::Clip { .. }
        )
}

/// The last key of a hand, if it is one, came to this.
fn tell(words: &mut [Came], who: u8, came: Came)
    ensures { words.new ≡ slice_set words.old who came }
{
    if usize::from(who) < words.len() {
        words[usize::from(who)] = came;
    }
}

/// A key of a hand is struck: all is well so far, unless it is the key by which a terminal tells its size.
fn begin(words: &mut [Came], hand: u8, key: &Key)
    ensures { words.new ≡ words_at_key hand key.now words.old }
{
    match key {
        Key::Screen { .. } => {}
        _ => tell(words, hand, Came::Well),
    }
}

/// Does a command of a hand, or of nobody, and keeps it for the script and the journal.
#[tactic(auto, using(orca_course::proofs::DoingLemmas::goes_err, orca_course::proofs::DoingLemmas::does_nothing))]
pub(crate) fn do_command<M: Machine, H: House>(
    live: &mut Live<'_, M>,
    desk: &mut Desk<H>,
    who: u8,
    command: &Command,
) -> Result<(), NoMemory>
    ensures { LiveDid M.Machine.own (hand_course who command.now)
        live.old desk.old (goes_of result) live.new desk.new }
{
    keep(&mut live.given, command)?;
    note(live.setting.journal, command, &mut live.unwritten)?;
    live.stage.do_command(desk, 0, command)?;
    live.loose |= loosens(command, live.stage.tally.refusal);
    let moments = live.stage.machine.moments();
    own(
        &mut live.crew,
        who,
        command,
        live.stage.tally.refusal,
        moments,
    );
    tell(&mut live.words, who, Came::of(live.stage.tally.refusal));
    Ok(())
}

/// The pacer takes a tempo of so many beats a minute less, and of at least 1.
fn slow_down(pacer: &mut Pacer, beats: u16)
    ensures { pacer.new ≡ retimed (slower beats pacer.old.bpm) pacer.old }
{
    let bpm = pacer.tempo().saturating_sub(beats).max(1);
    pacer.retime(bpm);
}

/// The pacer takes a tempo of so many beats a minute more, and of at most [`MAX_BPM`].
fn speed_up(pacer: &mut Pacer, beats: u16)
    ensures { pacer.new ≡ retimed (faster beats pacer.old.bpm) pacer.old }
{
    let bpm = pacer.tempo().saturating_add(beats).min(MAX_BPM);
    pacer.retime(bpm);
}

/// From here on the terminal has this size, or the one that it had, and shows whatever it shows.
fn redraw(view: &mut View, size: Option<ScreenSize>)
    ensures { viewed_in view.new ≡ unpainted (screen_inside (unwrap_or size view.old.size)) }
{
    let size = size.unwrap_or(view.size());
    view.begin_anew(size);
}

/// The same of the terminal of a hand, if it is shown a picture.
fn redraw_for(views: &mut Vec<View>, hand: u8, size: Option<ScreenSize>)
    ensures { (other : Viewed) → let shown = map viewed_in views.old.items in
        let d = screen_inside (unwrap_or size (slice_index_or shown hand other).screen) in
        map viewed_in views.new.items ≡ slice_set shown hand (unpainted d) }
{
    if usize::from(hand) < views.as_slice().len() {
        redraw(&mut views[usize::from(hand)], size);
    }
}

/// Does what a key of a hand asks for, once its editor has changed.
#[tactic(auto, using(orca_course::proofs::WorldLemmas::called_still, orca_course::proofs::DoingLemmas::does_err, crate::proofs::DoneLemmas::does_paced), unfolding(crate::specs::Performing::wish_course))]
fn do_wish<M: Machine, H: House>(
    live: &mut Live<'_, M>,
    desk: &mut Desk<H>,
    hand: u8,
    wish: &Wish,
) -> Result<Option<Stop>, NoMemory>
    ensures { LiveDid M.Machine.own (wish_course hand wish.now)
        live.old desk.old result live.new desk.new }
{
    match wish {
        Wish::Nothing => Ok(None),
        Wish::Do(command) => {
            do_command(live, desk, hand, command)?;
            Ok(None)
        }
        Wish::Toggle => {
            if !live.crew.leader().paused {
                live.pacer = Pacer::start(live.at, live.pacer.tempo());
            }
            Ok(None)
        }
        Wish::Save => {
            tell(&mut live.words, hand, Came::Kept);
            let name = live.setting.key_name();
            save_grid(live, desk, name, Disk::NotAwaited)?;
            Ok(None)
        }
        Wish::Quit => Ok(Some(Stop::Left)),
        Wish::Slower(beats) => {
            slow_down(&mut live.pacer, *beats);
            Ok(None)
        }
        Wish::Faster(beats) => {
            speed_up(&mut live.pacer, *beats);
            Ok(None)
        }
        Wish::Redraw(size) => {
            redraw_for(&mut live.views, hand, *size);
            Ok(None)
        }
    }
}

/// Fits every editor to the grid.
pub(crate) fn fit<M: Machine>(live: &mut Live<'_, M>)
    ensures fitted { live_state M.Machine.own live.new
        ≡ fitted (live_state M.Machine.own live.old) }
    ensures machine { live.new.stage.machine ≡ live.old.stage.machine }
    ensures inside { let t = live_state M.Machine.own live.new in
        (hand : ℕ) → hand < length t.crew.players → IsArea (dims_at t) (area_of (editor_at hand t)) }
    ensures hands { length live.new.crew.players ≡ length live.old.crew.players }
    ensures views { live.new.views ≡ live.old.views }
{
    live.stage.machine.is_shown();
    let dims = Look::dims(&live.stage.machine);
    live.crew.fit(dims);
}

/// The screen that a hand is told: that of its terminal, if it is shown a picture, and else that of the
/// start.
fn screen<M: Machine>(live: &Live<'_, M>, hand: u8) -> ScreenSize
    ensures { result ≡ screen_at hand (live_state M.Machine.own live.now) }
{
    match live.views.get(usize::from(hand)) {
        Some(view) => view.size(),
        None => live.setting.screen,
    }
}

/// What a key of a hand is told, where the editors are fitted to the grid.
fn around<M: Machine>(live: &Live<'_, M>, hand: u8, key: &Key) -> Around
    requires hand { hand < length live.now.crew.players }
    requires inside { let s = live_state M.Machine.own live.now in
        IsArea (dims_at s) (area_of (editor_at hand s)) }
    ensures { result ≡ around_at hand key.now (live_state M.Machine.own live.now) }
{
    live.stage.machine.is_shown();
    let editor = live.crew.editor(hand);
    let at = Place {
        y: editor.y,
        x: editor.x,
    };
    Around {
        dims: Look::dims(&live.stage.machine),
        moments: live.stage.machine.moments(),
        glyph: Look::glyph_at(&live.stage.machine, at),
        screen: screen(live, hand),
        own: live.crew.own_for(key, hand, &live.stage.machine),
    }
}

/// Tells a hand why its key is denied.
fn deny<H: House>(desk: &mut Desk<H>, hand: u8, denial: Denial) -> Result<(), NoMemory>
    ensures { Called result (telling hand denial) desk.old desk.new }
{
    desk.send(Port::Fault, denial.line(hand).as_slice())
}

/// Does what a key of a hand does, where the editors are fitted to the grid.
#[tactic(auto, using(crate::proofs::DoneLemmas::struck_asked, crate::proofs::DoneLemmas::struck_denied))]
fn strike<M: Machine, H: House>(
    live: &mut Live<'_, M>,
    desk: &mut Desk<H>,
    hand: u8,
    key: Key,
) -> Result<Option<Stop>, NoMemory>
    requires hand { hand < length live.old.crew.players }
    requires inside { let s = live_state M.Machine.own live.old in
        IsArea (dims_at s) (area_of (editor_at hand s)) }
    ensures { LiveDid M.Machine.own (struck_course hand key)
        live.old desk.old result live.new desk.new }
{
    let around = around(live, hand, &key);
    match live.crew.ask(hand, key, &around) {
        Ok(wish) => do_wish(live, desk, hand, &wish),
        Err(denial) => {
            tell(&mut live.words, hand, Came::Denied(denial.rule()));
            deny(desk, hand, denial)?;
            Ok(None)
        }
    }
}

/// Does what a key of a hand does that was ended.
#[tactic(auto, using(crate::proofs::DoneLemmas::press_did))]
fn press<M: Machine, H: House>(
    live: &mut Live<'_, M>,
    desk: &mut Desk<H>,
    hand: u8,
    key: Key,
) -> Result<Option<Stop>, NoMemory>
    requires hand { hand < length live.old.crew.players }
    ensures { LiveDid M.Machine.own (press_course hand key) live.old desk.old result live.new desk.new }
{
    begin(&mut live.words, hand, &key);
    fit(live);
    strike(live, desk, hand, key)
}

/// Does what keys of a hand do that were ended, in their order. An end drops those after it.
pub(crate) fn press_all<M: Machine, H: House>(
    live: &mut Live<'_, M>,
    desk: &mut Desk<H>,
    hand: u8,
    keys: &[Key],
) -> Result<Option<Stop>, NoMemory>
    requires hand { hand < length live.old.crew.players }
    ensures { LiveDid M.Machine.own (keys_course hand keys.now)
        live.old desk.old result live.new desk.new }
{
    for key in keys {
        if let Some(stop) = press(live, desk, hand, *key)? {
            return Ok(Some(stop));
        }
    }
    Ok(None)
}

/// Reads a byte of a hand. What comes of a hand that there is not is dropped.
#[tactic(auto, using(orca_course::proofs::WorldLemmas::called_still, crate::proofs::DoneLemmas::read_did), unfolding(crate::specs::Performing::byte_course, crate::specs::Performing::item_course))]
pub(crate) fn do_byte<M: Machine, H: House>(
    live: &mut Live<'_, M>,
    desk: &mut Desk<H>,
    hand: u8,
    byte: u8,
) -> Result<Option<Stop>, NoMemory>
    ensures { LiveDid M.Machine.own (byte_course hand byte) live.old desk.old result live.new desk.new }
{
    if hand >= live.crew.hands() {
        return Ok(None);
    }
    let keys = live.crew.feed(hand, byte);
    press_all(live, desk, hand, keys.as_slice())
}
