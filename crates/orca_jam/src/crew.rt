//! The hands at a session.

ghost use Rattle.std.specs.Prelude.{◌≡◌, ◌+◌, ◌<◌, ◌≤◌, ◌++◌, ℕ, All, count_by, false, filter, length, map, nat_le, slice_get, IfOk, OnErr, OnOk};
ghost use Rattle.orca_base.specs.Areas.{IsArea};
ghost use Rattle.orca_base.specs.declared.limits.TheConstants.{MAX_HANDS};
ghost use Rattle.orca_jam.specs.Crews.{answer_to, away_in, crew_alone, crew_at_start, cursor_of, cursors_beside, denial_of, denied_by, fitted_crew, fitted_player, is_away, is_here, is_leaders as belongs_to_leader, may_leave, offered, player_at, says_away, struck_by, tells_nothing, took_by, turned_by, viewers_of, with_player};
ghost use Rattle.orca_jam.specs.Denials.{not_yours};
ghost use Rattle.orca_term.specs.Editing.{area_of};
ghost use Rattle.orca_term.specs.Keys.{Byte, Due, turn};
ghost use Rattle.orca_term.specs.declared.limits.TheConstants.{MAX_CURSORS};

use crate::owner::{follow, last_editor};
use crate::player::Player;
use crate::{Denial, Owner};
use orca_base::limits::MAX_HANDS;
use orca_base::{Command, Dims, Memory};
use orca_term::{Around, Cursors, Editor, Key, Strokes, Wish};
use std::alloc::Global;
use std::marker::Model;

/// The hand to which some keys belong: the first one.
pub const LEADER: u8 = 0;

/// Room for the players of all hands.
const SEATS: usize = MAX_HANDS as usize;

/// The hands at a session, 1 to [`MAX_HANDS`] of them, each with a reader of keys and an editor. A contract sees
/// these, which keys are read, whether each hand has a picture of its own, whose each entry of the history is,
/// and room for how many entries there is. A hand that plays alone may do all; of a session that hands share,
/// some keys belong to the first hand, nobody takes back the edit of another, and nobody does again what was
/// taken back.
#[derive(Drop)]
pub struct Crew {
    alone: bool,
    full: bool,
    views: bool,
    room: u32,
    hands: u8,
    players: [Player; SEATS],
    owners: Vec<Owner>,
}

impl Model for Crew {
    ghost use Rattle.orca_jam.specs.Crews.{CrewState};

    ghost Value = { CrewState };

    ghost use Rattle.orca_jam.specs.Seats.{IsCrew, seated_crew};

    ghost view = { seated_crew };

    ghost invariant = { IsCrew };
}

impl Crew {
    /// A hand that plays alone, with the full keys or with the plain ones. It takes no memory.
    pub fn alone(alloc: Global, full: bool) -> Crew
        ensures { result ≡ crew_alone full }
    {
        Crew {
            alone: true,
            full,
            views: false,
            room: 0,
            hands: 1,
            players: [Player::start(full); SEATS],
            owners: Vec::new(alloc),
        }
    }

    /// Hands that share a session, whose history may have `limit` entries, with the full keys or with the
    /// plain ones, and with a picture for each hand or for the first one alone. It takes room for the
    /// owners of all entries; no later call takes memory. [`Memory`] if the room is refused.
    pub fn start(
        alloc: Global,
        full: bool,
        views: bool,
        hands: u8,
        limit: u32,
    ) -> Result<Crew, Memory>
        requires some_hands { 1 ≤ hands }
        requires few_hands { hands ≤ MAX_HANDS }
        requires some { 1 ≤ limit }
        ensures { IfOk result (λ crew. crew ≡ crew_at_start full views hands limit) }
    {
        Ok(Crew {
            alone: false,
            full,
            views,
            room: limit,
            hands,
            players: [Player::start(full); SEATS],
            owners: Vec::with_capacity(alloc, limit as usize)?,
        })
    }

    /// The number of hands.
    pub fn hands(&self) -> u8
        ensures hands { result ≡ length self.now.players }
        ensures some { 1 ≤ result }
        ensures few { result ≤ MAX_HANDS }
    {
        self.hands
    }

    /// Whether the full keys are read.
    pub fn reads_full(&self) -> bool
        ensures { result ≡ self.now.full }
    {
        self.full
    }

    /// How many hands are shown a picture, from the first one on: all, or that one alone.
    pub fn viewers(&self) -> u8
        ensures { result ≡ viewers_of self.now }
    {
        if self.views { self.hands } else { 1 }
    }

    /// Reads a byte of a hand, and gives the keys that it ends.
    pub fn feed(&mut self, hand: u8, byte: u8) -> Strokes
        requires { hand < length self.old.players }
        ensures keys { result
            ≡ (turn self.old.full (player_at self.old hand).keys (Byte byte)).keys }
        ensures crew { self.new ≡ turned_by hand (Byte byte) self.old }
    {
        let mut player = self.player(hand);
        let keys = player.feed(self.full, byte);
        self.seat(hand, player);
        keys
    }

    /// Nothing came of a hand for a while: an ESC that stands alone is the escape key, and ESC and `O` are
    /// both keys.
    pub fn due(&mut self, hand: u8) -> Strokes
        requires { hand < length self.old.players }
        ensures keys { result ≡ (turn self.old.full (player_at self.old hand).keys Due).keys }
        ensures crew { self.new ≡ turned_by hand Due self.old }
    {
        let mut player = self.player(hand);
        let keys = player.keys.due();
        self.seat(hand, player);
        keys
    }

    /// Brings the cursor and the selection of every hand into a grid of this size.
    pub fn fit(&mut self, dims: Dims)
        ensures crew { self.new ≡ fitted_crew dims self.old }
        ensures inside { (hand : ℕ) → hand < length self.new.players
            → IsArea dims (area_of (player_at self.new hand).editor) }
    {
        fit_all(&mut self.players, dims);
    }

    /// The editor of a hand.
    pub fn editor(&self, hand: u8) -> &Editor
        requires { hand < length self.now.players }
        ensures { result.now ≡ (player_at self.now hand).editor }
    {
        &self.players[hand as usize].editor
    }

    /// The editor of the first hand.
    pub fn leader(&self) -> &Editor
        ensures { result.now ≡ (player_at self.now LEADER).editor }
    {
        &self.players[LEADER as usize].editor
    }

    /// The cursors of the other hands, which the picture of a hand shows where each hand has one.
    pub fn cursors_beside(&self, hand: u8) -> Cursors
        requires { hand < length self.now.players }
        ensures { result ≡ cursors_beside self.now hand }
    {
        let mut cursors = Cursors::none();
        if self.views {
            let players = &self.players[..self.hands as usize];
            push_cursors(&mut cursors, &players[..hand as usize]);
            push_cursors(&mut cursors, &players[hand as usize + 1..]);
        }
        cursors
    }

    /// The player of a hand.
    pub(crate) fn player(&self, hand: u8) -> Player
        requires { hand < length self.now.players }
        ensures { result ≡ player_at self.now hand }
    {
        self.players[hand as usize]
    }

    /// The player of a hand is this one.
    pub(crate) fn seat(&mut self, hand: u8, player: Player)
        requires { hand < length self.old.players }
        ensures { self.new ≡ with_player hand player self.old }
    {
        self.players[hand as usize] = player;
    }

    /// Whether a hand is away.
    pub fn is_away(&self, hand: u8) -> bool
        requires { hand < length self.now.players }
        ensures { result ≡ is_away self.now hand }
    {
        self.players[hand as usize].away
    }

    /// How many hands are away.
    pub fn away(&self) -> u8
        ensures { result ≡ away_in self.now }
    {
        count_away(&self.players[..self.hands as usize])
    }

    /// What a key of a hand asks for, with what it makes of that hand. A key that is denied closes the page
    /// of help, and changes nothing else: [`Denial::LeaderOnly`] if what it asks for belongs to the first
    /// hand, and else [`Denial::NotYours`] if it would take back the edit of another.
    pub fn ask(&mut self, hand: u8, key: Key, around: &Around) -> Result<Wish, Denial>
        requires hand { hand < length self.old.players }
        requires inside { IsArea around.now.dims (area_of (player_at self.old hand).editor) }
        ensures answer { result ≡ answer_to self.old hand key around.now }
        ensures denied { OnErr result (self.new ≡ denied_by hand key self.old) }
        ensures asked { OnOk result (self.new ≡ struck_by hand key around.now self.old) }
        ensures inside { IsArea around.now.dims (area_of (player_at self.new hand).editor) }
    {
        let player = self.player(hand);
        let mut struck = player;
        let wish = struck.strike(key, around);
        if let Some(denial) = self.denial(hand, &wish) {
            self.close_page(hand, &key);
            return Err(denial);
        }
        if self.says_away(hand, &key) {
            struck = player;
            struck.leave();
            self.seat(hand, struck);
            return Ok(Wish::Nothing);
        }
        self.seat(hand, struck);
        Ok(self.offered(wish))
    }

    /// Does to the page of help what a key does that is denied.
    fn close_page(&mut self, hand: u8, key: &Key)
        requires { hand < length self.old.players }
        ensures crew { self.new ≡ denied_by hand key.now self.old }
        ensures area { area_of (player_at self.new hand).editor
            ≡ area_of (player_at self.old hand).editor }
    {
        let mut player = self.player(hand);
        player.editor.turn_page(key);
        self.seat(hand, player);
    }

    /// Whether a key says that its hand is away: a hand that may go tells a terminal of no rows and no columns.
    fn says_away(&self, hand: u8, key: &Key) -> bool
        ensures { result ≡ says_away self.now hand key.now }
    {
        tells_nothing(key) && self.may_leave(hand)
    }

    /// Whether a hand may go away.
    fn may_leave(&self, hand: u8) -> bool
        ensures { result ≡ may_leave self.now hand }
    {
        self.views && hand != LEADER
    }

    /// Why a wish is denied to a hand, if it is.
    #[tactic(auto, unfolding(crate::specs::Crews::denial_of))]
    fn denial(&self, hand: u8, wish: &Wish) -> Option<Denial>
        ensures { result ≡ denial_of self.now hand wish.now }
    {
        if self.alone {
            return None;
        }
        if hand != LEADER && self.is_leaders(wish) {
            return Some(Denial::LeaderOnly);
        }
        if !matches!(wish, Wish::Do(Command::Undo)) {
            return None;
        }
        deny(hand, last_editor(&self.owners))
    }

    /// Whether a wish belongs to the first hand.
    fn is_leaders(&self, wish: &Wish) -> bool
        ensures { result ≡ belongs_to_leader self.now wish.now }
    {
        match wish {
            Wish::Toggle | Wish::Save | Wish::Quit => true,
            Wish::Slower(_) | Wish::Faster(_) => true,
            Wish::Redraw(_) => !self.views,
            Wish::Do(Command::Rewind { .. }) => true,
            Wish::Do(Command::Reset) => true,
            Wish::Do(Command::Resize { .. }) => true,
            Wish::Do(Command::Frame) => self.full,
            _ => false,
        }
    }

    /// What comes of a wish that isn't denied.
    fn offered(&self, wish: Wish) -> Wish
        ensures { result ≡ offered self.now wish }
    {
        if !self.alone && matches!(wish, Wish::Do(Command::Redo)) {
            return Wish::Nothing;
        }
        wish
    }

    /// Whether there is room for the owners of so many entries.
    pub fn has_room(&self, moments: u32) -> bool
        ensures { result ≡ nat_le moments self.now.room }
    {
        moments <= self.room
    }

    /// A command of a hand was accepted, or one that no hand asked for, and the history has so many entries
    /// then. Of a hand that plays alone nothing is kept.
    pub fn took(&mut self, hand: u8, command: &Command, moments: u32)
        requires room { self.old.alone ≡ false → moments ≤ self.old.room }
        ensures { self.new ≡ took_by hand command.now moments self.old }
    {
        if self.alone {
            return;
        }
        follow(&mut self.owners, hand, command, moments as usize);
    }

    /// Whose an entry of the history is; none exactly from the number of its entries on.
    pub fn owner(&self, index: u32) -> Option<Owner>
        ensures { result ≡ slice_get self.now.owners index }
    {
        self.owners.get(index as usize).copied()
    }
}

/// Brings the cursor and the selection of each player into a grid of this size.
fn fit_all(players: &mut [Player], dims: Dims)
    ensures players { players.new ≡ map (fitted_player dims) players.old }
    ensures inside { All (λ p. IsArea dims (area_of p.editor)) players.new }
{
    for player in players.iter_mut() {
        player.fit(dims);
    }
}

/// Whether a key tells a terminal of no rows and no columns.
fn tells_nothing(key: &Key) -> bool
    ensures { result ≡ tells_nothing key.now }
{
    match *key {
        Key::Screen { rows, columns } => rows == 0 && columns == 0,
        _ => false,
    }
}

/// Adds the cursors of those players at the end that are not away, where they fit.
fn push_cursors(cursors: &mut Cursors, players: &[Player])
    requires { length cursors.old + length players.now ≤ MAX_CURSORS }
    ensures cursors { cursors.new ≡ cursors.old ++ map cursor_of (filter is_here players.now) }
    ensures few { length cursors.new ≤ length cursors.old + length players.now }
{
    for player in players {
        if !player.away {
            cursors.push(player.cursor());
        }
    }
}

/// How many of the players are away.
fn count_away(players: &[Player]) -> u8
    requires { length players.now ≤ MAX_HANDS }
    ensures { result ≡ count_by (λ p. p.away) players.now }
{
    let mut count = 0;
    for player in players {
        if player.away {
            count += 1;
        }
    }
    count
}

/// Why an undo is denied to a hand, where the last edit is the one of this hand, if there is an edit.
fn deny(hand: u8, last: Option<u8>) -> Option<Denial>
    ensures { result ≡ not_yours hand last }
{
    match last {
        None => None,
        Some(other) => {
            if other == hand {
                return None;
            }
            Some(Denial::NotYours { hand: other })
        }
    }
}
