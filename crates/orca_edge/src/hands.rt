//! The streams of the hands, the turns over them, and the waits between the turns.

ghost use Rattle.std.specs.Prelude.{◌≡◌, ◌≢◌, ◌≤◌, ◌<◌, ◌+◌, ◌++◌, ◌∷◌, [], ℕ, Bool, min, nat_le, true, false, None, if◌then◌else◌, IfOk, IfSome, IsNone, OnOk, length, slice_index_or, slice_set};
ghost use Rattle.std.specs.List.{list_any};
ghost use Rattle.std.specs.Option.{option_map_or};
ghost use Rattle.std.specs.Io.KnownBytes.{Consumes};
ghost use Rattle.orca_base.specs.declared.limits.TheConstants.{ARRIVAL_BYTES};
ghost use Rattle.orca_rig.specs.Arrived.{MayAnswer};
ghost use Rattle.orca_rig.specs.Outside.{last_count};
ghost use Rattle.orca_edge.specs.Heard.{IsPieceOf, IsPiece, IsFree, piece_bytes, came_bytes, turn_bytes, is_moment, AreHeard, IsHandTurn, IsNext, IsNextAfter, TellsRead, state_after, hand_turn, is_open, is_broken, is_first_broken, is_over, last_turn};

use crate::moments::{FOREVER, Wait, Watch, has_come, milliseconds, wait_of};
use crate::whole::{TRIES, status_of};
use libc::net::{POLLIN, poll};
use libc::types::pollfd;
use orca_base::limits::{ARRIVAL_BYTES, MAX_HANDS};
use orca_rig::Answer;
use std::alloc::{AllocError, AllocFailed, Global};
use std::io::{ErrorKind, Read};
use std::os::fd::RawFd;
use std::rt::Clock;
use std::time::Duration;
use std::{io, thread};

/// The number of no descriptor, about which the system tells nothing.
pub(crate) const NONE: RawFd = -1;

/// The most descriptors that the system is asked about: two for each hand, and that of the door.
const MOST_ASKED: usize = 2 * MAX_HANDS as usize + 1;

/// What the system is asked about a hand: nothing about one that is not open.
const NOT_ASKED: pollfd = pollfd {
    fd: NONE,
    events: POLLIN,
    revents: 0,
};

/// A stream whose bytes can be waited for.
pub(crate) trait Wakes {
    /// The descriptors that have something when the stream has: one, and perhaps another.
    fn wakers(&self) -> (RawFd, RawFd);
}

/// A stream that may have somewhere to show something.
pub(crate) trait Shows {
    /// Shows these bytes there, as far as that takes them at once.
    fn show(&mut self, bytes: &[u8]);
}

/// Who sits where a stream is heard.
pub(crate) trait Sits {
    /// Nobody does, and the next who comes may.
    ghost free: { Self → Bool };

    /// The end of the stream is the end for all.
    ghost leads: { Self → Bool };

    /// Whether the seat is free.
    fn is_free(&self) -> bool
        ensures { result ≡ free self.now };

    /// Whether the end of the stream is the end for all.
    fn leads(&self) -> bool
        ensures { result ≡ leads self.now };

    /// Whether it may still turn out that whoever sits there is no player, or somebody may still
    /// come.
    fn is_awaited(&self) -> bool;
}

/// The hands, hand 0 first.
#[derive(Drop)]
pub(crate) struct Hands<S> {
    hands: Vec<Hand<S>>,
    /// The hand that is read next.
    next: u8,
    /// How often a hand was read in the wait that was begun last.
    reads: u64,
}

/// What a hand is heard over, and how that stands.
#[derive(Drop)]
pub(crate) struct Hand<S> {
    stream: S,
    state: State,
}

/// How the stream of a hand stands.
#[derive(Clone, Copy)]
pub(crate) enum State {
    Open,
    /// It has come to its end.
    Ended,
    /// A read of it failed.
    Broken,
}

impl State {
    fn is_open(self) -> bool
        ensures { result ≡ is_open self }
    {
        matches!(self, State::Open)
    }

    fn is_broken(self) -> bool
        ensures { result ≡ is_broken self }
    {
        matches!(self, State::Broken)
    }
}

/// What a read of a stream gave.
#[derive(Clone, Copy)]
pub(crate) enum Piece {
    /// So many bytes, 1 to [`ARRIVAL_BYTES`].
    Bytes(u8),
    /// Nothing yet.
    Nothing,
    /// Nothing, since a signal came: the next read may give something.
    Interrupted,
    /// The end.
    End,
    /// A failure.
    Broken,
}

/// What one turn gave.
#[derive(Clone, Copy)]
pub(crate) enum Glance {
    /// The answer of the poll.
    Answered(Answer),
    /// The hand that was read has nothing yet.
    Nothing,
    /// The hands have to be read again.
    Again,
}

/// What a read gave, by its result.
fn piece_of(read: io::Result<usize>) -> Piece
    requires { IfOk read (λ count. count ≤ ARRIVAL_BYTES) }
    ensures { IsPieceOf read result }
{
    match read {
        Ok(0) => Piece::End,
        Ok(count) => Piece::Bytes(count as u8),
        Err(error) => match error.kind() {
            ErrorKind::WouldBlock => Piece::Nothing,
            ErrorKind::Interrupted => Piece::Interrupted,
            _ => Piece::Broken,
        },
    }
}

/// The moment that the first round of turns has before bytes: none where the last answer was one.
fn first_due(was_due: bool, until: Option<u64>) -> Option<u64>
    ensures { result ≡ if was_due then None else until }
{
    if was_due { None } else { until }
}

/// The hand after this one, in a round of so many.
fn hand_after(hand: u8, count: usize) -> u8
    ensures { IsNext hand result count }
{
    match hand.checked_add(1) {
        Some(next) if usize::from(next) < count => next,
        _ => 0,
    }
}

impl<S: Read> Hand<S> {
    /// Reads what has come, where the stream is open. It does not wait.
    fn hear(&mut self, bytes: &mut [u8; ARRIVAL_BYTES]) -> Piece
        ensures piece { IsPiece result }
        ensures state { self.new.state ≡ state_after self.old.state result }
        ensures ended { self.old.state ≡ State.Ended → result ≡ Piece.End }
        ensures broken { self.old.state ≡ State.Broken → result ≡ Piece.Broken }
        ensures heard { Consumes (S.remaining self.old.stream) (S.remaining self.new.stream)
            (piece_bytes result bytes.new) }
    {
        match self.state {
            State::Open => {
                let piece = piece_of(self.stream.read(bytes));
                match piece {
                    Piece::End => self.state = State::Ended,
                    Piece::Broken => self.state = State::Broken,
                    Piece::Bytes(_) | Piece::Nothing | Piece::Interrupted => {}
                }
                piece
            }
            State::Ended => Piece::End,
            State::Broken => Piece::Broken,
        }
    }
}

impl<S: Read + Sits> Hands<S> {
    /// No hand yet, and room for so many.
    pub(crate) fn new(alloc: Global, count: u8) -> Result<Hands<S>, AllocError>
        ensures { IfOk result (λ hands. hands.hands.items ≡ []) }
    {
        Ok(Hands {
            hands: Vec::with_capacity(alloc, usize::from(count))?,
            next: 0,
            reads: 0,
        })
    }

    /// Adds the next hand.
    pub(crate) fn add(&mut self, stream: S) -> Result<(), AllocFailed<Hand<S>>>
        ensures { OnOk result (self.new.hands.items ≡ self.old.hands.items
            ++ (record { stream = stream; state = State.Open }) ∷ []) }
    {
        let state = State::Open;
        self.hands.push(Hand { stream, state })
    }

    /// The lowest seat that is free.
    pub(crate) fn free(&self) -> Option<u8>
        ensures { IfSome result (IsFree S.free self.now.hands.items) }
    {
        for number in 0..MAX_HANDS {
            if let Some(hand) = self.hands.get(usize::from(number)) {
                if hand.stream.is_free() {
                    return Some(number);
                }
            }
        }
        None
    }

    /// Gives a free seat to what this stream is heard over. The others stay as they are.
    pub(crate) fn seat(&mut self, number: u8, stream: S)
    where
        S: Drop,
        requires { IsFree S.free self.old.hands.items number }
        ensures seated { self.new.hands.items ≡ slice_set self.old.hands.items number
            (record { stream = stream; state = State.Open }) }
        ensures turns { (self.new.next ≡ self.old.next) × (self.new.reads ≡ self.old.reads) }
    {
        let state = State::Open;
        self.hands[usize::from(number)] = Hand { stream, state };
    }

    /// Whether a seat is free, or may still turn out to be.
    pub(crate) fn is_awaited(&self) -> bool {
        self.hands.iter().any(|hand| hand.stream.is_awaited())
    }

    /// How many hands there are.
    pub(crate) fn len(&self) -> usize
        ensures { result ≡ length self.now.hands.items }
    {
        self.hands.len()
    }

    /// One turn: the moment `due`, where it has come, and otherwise what the next hand brings. What
    /// a read brought is answered in that turn.
    pub(crate) fn turn(
        &mut self,
        due: Option<u64>,
        now: u64,
        bytes: &mut [u8; ARRIVAL_BYTES],
    ) -> Glance
        ensures turn { IsHandTurn due now result }
        ensures due { option_map_or (λ moment. nat_le moment now) due false ≡ true
            → result ≡ Glance.Answered (Answer.Due now) }
        ensures told { option_map_or (λ moment. nat_le moment now) due false ≡ false
            → TellsRead S.leads self.old.hands.items self.new.hands.items self.old.next now
            result }
        ensures next { option_map_or (λ moment. nat_le moment now) due false ≡ false
            → IsNext self.old.next self.new.next (length self.old.hands.items) }
        ensures waits { option_map_or (λ moment. nat_le moment now) due false ≡ true
            → self.new.next ≡ self.old.next }
        ensures read { option_map_or (λ moment. nat_le moment now) due false ≡ false
            → self.new.reads ≡ min (self.old.reads + 1) last_count }
        ensures unread { option_map_or (λ moment. nat_le moment now) due false ≡ true
            → self.new.reads ≡ self.old.reads }
        ensures heard { AreHeard S.remaining self.old.hands.items self.new.hands.items
            (λ hand. turn_bytes hand result bytes.new) }
    {
        if has_come(due, now) {
            return Glance::Answered(Answer::Due { at: now });
        }
        self.reads = self.reads.saturating_add(1);
        let number = self.next;
        self.next = hand_after(number, self.hands.len());
        let Some(hand) = self.hands.get_mut(usize::from(number)) else {
            return Glance::Answered(Answer::Failed);
        };
        let piece = hand.hear(bytes);
        self.turn_of(piece, number, now)
    }

    /// The turn in which this hand gave the piece.
    fn turn_of(&self, piece: Piece, hand: u8, now: u64) -> Glance
        ensures { result ≡ hand_turn S.leads piece hand now self.now.hands.items }
    {
        match piece {
            Piece::Bytes(count) => Glance::Answered(Answer::Bytes {
                hand,
                count,
                at: now,
            }),
            Piece::Nothing => Glance::Nothing,
            Piece::Interrupted => Glance::Again,
            Piece::End | Piece::Broken => self.last_turn(),
        }
    }

    /// What a turn gives whose hand brings nothing any more: the last answer, once no hand is open,
    /// or one has ended whose end is that of all.
    fn last_turn(&self) -> Glance
        ensures { result ≡ last_turn S.leads self.now.hands.items }
    {
        if self.is_open() && !self.is_over() {
            Glance::Nothing
        } else if self.is_broken() {
            Glance::Answered(Answer::Failed)
        } else {
            Glance::Answered(Answer::End)
        }
    }

    /// Whether a hand is open.
    fn is_open(&self) -> bool
        ensures { result ≡ list_any (λ hand. is_open hand.state) self.now.hands.items }
    {
        self.hands.iter().any(|hand| hand.state.is_open())
    }

    /// Whether a hand is not open any more whose end is that of all.
    fn is_over(&self) -> bool
        ensures { result ≡ is_over S.leads self.now.hands.items }
    {
        self.hands
            .iter()
            .any(|hand| hand.stream.leads() && !hand.state.is_open())
    }

    /// Whether hand 0 has broken.
    fn is_broken(&self) -> bool
        ensures { result ≡ is_first_broken self.now.hands.items }
    {
        match self.hands.first() {
            Some(hand) => hand.state.is_broken(),
            None => false,
        }
    }
}

impl<S: Shows> Hands<S> {
    /// Shows these bytes to a hand, if that is open.
    pub(crate) fn tell(&mut self, hand: u8, bytes: &[u8])
        ensures count { length self.new.hands.items ≡ length self.old.hands.items }
        ensures others { (other : ℕ) (any : Hand S) → other ≢ hand
            → slice_index_or self.new.hands.items other any
            ≡ slice_index_or self.old.hands.items other any }
        ensures state { (other : ℕ) (any : Hand S)
            → (slice_index_or self.new.hands.items other any).state
            ≡ (slice_index_or self.old.hands.items other any).state }
        ensures closed { (any : Hand S)
            → is_open (slice_index_or self.old.hands.items hand any).state ≡ false
            → self.new.hands.items ≡ self.old.hands.items }
        ensures turns { (self.new.next ≡ self.old.next) × (self.new.reads ≡ self.old.reads) }
    {
        if let Some(hand) = self.hands.get_mut(usize::from(hand)) {
            if hand.state.is_open() {
                hand.stream.show(bytes);
            }
        }
    }
}

impl<S: Read + Sits + Wakes> Hands<S> {
    /// Waits for bytes or for the moment, or until somebody is at the door while a seat is free: then
    /// it answers nothing. Bytes go before the moment where the last answer was a moment.
    pub(crate) fn wait<C: Clock>(
        &mut self,
        clock: &Watch<'_, C>,
        was_due: bool,
        until: Option<u64>,
        door: RawFd,
        bytes: &mut [u8; ARRIVAL_BYTES],
    ) -> Option<Answer>
        ensures answer { IfSome result (MayAnswer until clock.now.last) }
        // A moment follows a moment only once as many reads as there are hands found nothing.
        ensures patient { was_due ≡ true → option_map_or is_moment result false ≡ true
            → length self.old.hands.items ≤ self.new.reads }
        ensures next { IfSome result (λ answer.
            IsNextAfter answer self.new.next (length self.old.hands.items)) }
        ensures heard { AreHeard S.remaining self.old.hands.items self.new.hands.items
            (λ hand. came_bytes hand result bytes.new) }
    {
        self.reads = 0;
        let mut due = first_due(was_due, until);
        let mut unread = self.len();
        for _ in 0..TRIES {
            let Ok(now) = clock.moment() else {
                return Some(Answer::Failed);
            };
            match self.turn(due, now, bytes) {
                Glance::Answered(answer) => return Some(answer),
                Glance::Again => unread = self.len(),
                Glance::Nothing => unread = unread.saturating_sub(1),
            }
            // A wait for events comes only after a round in which no hand had anything.
            if unread == 0 {
                match self.rest(clock.rt, wait_of(until, now), door) {
                    Ok(false) => {}
                    Ok(true) => return None,
                    Err(_) => return Some(Answer::Failed),
                }
                due = until;
                unread = self.len();
            }
        }
        Some(Answer::Failed)
    }

    /// Waits for events, or sleeps, or goes on at once. A signal ends a wait. It answers whether
    /// somebody is at the door while a seat is free.
    fn rest<C: Clock>(&self, rt: &C, wait: Wait, door: RawFd) -> io::Result<bool> {
        let limit = match wait {
            Wait::Look => return Ok(false),
            Wait::Sleep(pause) => {
                thread::sleep(rt, Duration::from_micros(pause));
                return Ok(false);
            }
            Wait::Events(limit) => milliseconds(limit),
            Wait::Forever => FOREVER,
        };
        let mut asked = self.asked();
        if self.free().is_some() {
            asked[MOST_ASKED - 1].fd = door;
        }
        match status_of(poll(&mut asked, limit)) {
            Ok(()) => Ok(asked[MOST_ASKED - 1].revents != 0),
            Err(error) if error.kind() == ErrorKind::Interrupted => Ok(false),
            Err(error) => Err(error),
        }
    }

    /// What the system is asked: to wait for bytes of the hands that are open.
    fn asked(&self) -> [pollfd; MOST_ASKED] {
        let mut asked = [NOT_ASKED; MOST_ASKED];
        let (first, second) = asked.split_at_mut(usize::from(MAX_HANDS));
        for ((one, other), hand) in first
            .iter_mut()
            .zip(second.iter_mut())
            .zip(self.hands.iter())
        {
            if hand.state.is_open() {
                (one.fd, other.fd) = hand.stream.wakers();
            }
        }
        asked
    }
}
