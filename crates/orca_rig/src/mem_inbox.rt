ghost use Rattle.std.specs.Prelude.{◌≡◌, ◌≢◌, ◌≤◌, ◌↔◌, ℕ, ◌+◌, ◌<◌, ◌^◌, min, [], ◌∷◌, ◌++◌, true, false, length, is_some, if◌then◌else◌, slice_get, vec_len, vec_capacity, Some, None, IsTrue, IsNone, IfOk, OnOk, OnErr, IsErrOf};
ghost use Rattle.std.specs.Option.{option_map, option_to_list};
ghost use Rattle.orca_rig.specs.Outside.{Rose, last_count, wants_after};
ghost use Rattle.orca_rig.specs.Arrived.{empty_log, hands_of, count_of, after_listen, after_poll, after_tell, arrived, moment_after, is_ending, MayAnswer};
ghost use Rattle.orca_rig.specs.InMemory.{is_to_fail};
ghost use Rattle.orca_rig.specs.Schedule.{Schedule, is_in_order, is_arrival, are_arrivals, awaited, first_turn, served_after, served, calls_of, IsAnsweredInOrder};
ghost use Rattle.orca_base.specs.declared.limits.TheConstants.{ARRIVAL_BYTES, MAX_HANDS};
ghost use Rattle.orca_rig.specs.KeptPolls.{poll_of, told_of};

use crate::{Answer, Inbox, MemAnswer, Misses, Outs, OutsideFault};
use orca_base::limits::ARRIVAL_BYTES;
use orca_base::{Memory, Wire};
use std::alloc::AllocError;
use std::collections::VecDeque;
use std::marker::Model;

/// A poll, as it is kept.
#[derive(Clone, Copy, Debug, PartialEq, Eq)]
struct Polled {
    until: Option<u64>,
    sent: u64,
    answer: Answer,
    bytes: Wire,
}

/// What a hand was told, as it is kept, with the number of polls before.
#[derive(Drop)]
struct Telling {
    hand: u8,
    bytes: Vec<u8>,
    polls: usize,
}

/// An inbox in memory: it gives the answers that it was made with, and fails where it is told to.
#[derive(Drop)]
pub struct MemInbox {
    last: u64,
    answers: VecDeque<MemAnswer>,
    to_fail: Vec<u64>,
    name: Option<String>,
    hands: Option<u8>,
    start: Option<u64>,
    polls: Vec<Polled>,
    told: Vec<Telling>,
    listened: bool,
    ended: bool,
    misses: Misses,
}

impl Model for MemInbox {
    ghost use Rattle.orca_rig.specs.Schedule.{Schedule};

    ghost Value = { Schedule };

    ghost use Rattle.orca_rig.specs.KeptPolls.{schedule_of, IsKeptInbox};

    ghost view = { schedule_of };

    ghost invariant = { IsKeptInbox };
}

impl MemInbox {
    /// An inbox at which nobody listened. `start` is the moment that `listen_hands` answers, and
    /// `answers` are those of the polls, in order: a [`MemAnswer::Due`] is passed over where no
    /// moment is waited for, and where it is below that moment, and a poll after the last of them
    /// answers [`Answer::End`]. `fail` lists the calls that are to fail, by their numbers, counted
    /// from 1 over `listen_hands` and the polls. A poll that fails passes nothing over.
    pub fn new(start: u64, answers: Vec<MemAnswer>, fail: Vec<u64>) -> Result<MemInbox, Memory>
        // No moment is below an earlier one, the start being the first.
        requires order { IsTrue (is_in_order start answers.items) }
        // Each arrival has 1 to 64 bytes.
        requires arrivals { IsTrue (are_arrivals answers.items) }
        ensures { IfOk result (λ inbox. inbox ≡ (record {
          last = start;
          answers = answers.items;
          fail = fail.items;
          log = empty_log;
          listened = false;
          ended = false;
          faults = 0;
          wants = 0;
        })) }
    {
        let alloc = *answers.allocator();
        let polls = Vec::with_capacity(alloc, answers.len() + 1)?;
        Ok(MemInbox {
            last: start,
            answers: VecDeque::from(answers),
            to_fail: fail,
            name: None,
            hands: None,
            start: None,
            polls,
            told: Vec::new(alloc),
            listened: false,
            ended: false,
            misses: Misses::none(),
        })
    }

    /// What a hand was told, counted from 0; none exactly from their number on.
    pub fn told_at(&self, index: u64) -> Option<(u8, &[u8])>
        ensures told { option_map (λ told. record { hand = told.0; bytes = told.1.now }) result
            ≡ slice_get self.now.log.told index }
        ensures none { IsNone result ↔ (length self.now.log.told ≤ index) }
    {
        let telling = self.told.get(index as usize)?;
        Some((telling.hand, telling.bytes.as_slice()))
    }

    /// How many sends there were before the poll that came after a hand was told something, counted from 0;
    /// none if no poll came. The log keeps polls and what was told apart, so no clause says more.
    pub fn sent_by(&self, index: u64) -> Option<u64>
        ensures { length self.now.log.told ≤ index → IsNone result }
    {
        let telling = self.told.get(index as usize)?;
        let poll = self.polls.get(telling.polls)?;
        Some(poll.sent)
    }

    /// Keeps what it was asked to listen for, and answers the moment of the start.
    fn keep_listen(&mut self, name: &str, hands: u8) -> Result<u64, OutsideFault>
        ensures kept { self.new ≡ record self.old {
          log = after_listen result name.now hands self.old.log;
        } }
        ensures moment { IfOk result (λ at. at ≡ self.old.last) }
        ensures listed { IsErrOf result OutsideFault.Failed
            → IsTrue (is_to_fail self.old.fail (calls_of self.old.log)) }
        ensures not_listed { OnOk result (is_to_fail self.old.fail (calls_of self.old.log)
            ≡ false) }
    {
        let fails = is_to_fail(&self.to_fail, &self.name, &self.polls);
        self.name = Some(String::from_str(*self.polls.allocator(), name)?);
        self.hands = Some(hands);
        if fails {
            self.start = None;
            return Err(OutsideFault::Failed);
        }
        self.start = Some(self.last);
        Ok(self.last)
    }

    /// Keeps what a hand is told. Nothing is counted.
    fn keep_told(&mut self, hand: u8, bytes: &[u8]) -> Result<(), AllocError>
        ensures { self.new ≡ record self.old {
          log = after_tell result (record { hand = hand; bytes = bytes.now }) self.old.log;
        } }
    {
        self.told.reserve(1)?;
        let bytes = bytes.to_vec(*self.told.allocator())?;
        self.told.push_reserved(Telling {
            hand,
            bytes,
            polls: self.polls.len(),
        });
        Ok(())
    }
}

/// Answers what comes next, and puts the bytes of an arrival at the front of the buffer.
fn answer_next(
    fails: bool,
    answers: &mut VecDeque<MemAnswer>,
    until: Option<u64>,
    bytes: &mut [u8; ARRIVAL_BYTES],
) -> Answer
    requires { are_arrivals answers.old.items ≡ true }
    ensures turn { record { answer = result; answers = answers.new.items; bytes = bytes.new }
        ≡ served_after fails until answers.old.items bytes.old }
    ensures in_order { (last : ℕ) → is_in_order last answers.old.items ≡ true
        → IsAnsweredInOrder until last answers.old.items result answers.new.items }
    ensures failed { IsTrue fails ↔ (result ≡ Answer.Failed) }
    ensures few { count_of result ≤ ARRIVAL_BYTES }
{
    if fails {
        return Answer::Failed;
    }
    match take_awaited(answers, until) {
        Some(answer) => give(&answer, bytes),
        None => Answer::End,
    }
}

/// Takes the next answer that is not passed over.
fn take_awaited(answers: &mut VecDeque<MemAnswer>, until: Option<u64>) -> Option<MemAnswer>
    ensures taken { awaited until answers.old.items ≡ option_to_list result ++ answers.new.items }
    ensures none { IsNone result → answers.new.items ≡ [] }
{
    while let Some(answer) = answers.pop_front() {
        if !answer.is_passed_over(until) {
            return Some(answer);
        }
    }
    None
}

/// Gives an answer, and puts the bytes of an arrival at the front of the buffer.
fn give(answer: &MemAnswer, bytes: &mut [u8; ARRIVAL_BYTES]) -> Answer
    requires { is_arrival answer.now ≡ true }
    ensures answer { result ≡ (first_turn (answer.now ∷ []) bytes.old).answer }
    ensures bytes { bytes.new ≡ (first_turn (answer.now ∷ []) bytes.old).bytes }
{
    match answer {
        MemAnswer::Due { at } => Answer::Due { at: *at },
        MemAnswer::Bytes {
            hand,
            bytes: came,
            at,
        } => {
            let came = came.as_slice();
            bytes[..came.len()].copy_from_slice(came);
            Answer::Bytes {
                hand: *hand,
                count: came.len() as u8,
                at: *at,
            }
        }
    }
}

/// Whether the next call is to fail.
fn is_to_fail(to_fail: &[u64], name: &Option<String>, polls: &[Polled]) -> bool
    requires { length polls.now < 2 ^ 63 }
    ensures { result
        ≡ is_to_fail to_fail.now ((if is_some name.now then 1 else 0) + length polls.now) }
{
    let number = u64::from(name.is_some()) + polls.len() as u64 + 1;
    to_fail.contains(&number)
}

/// How many bytes came with an answer.
fn count_of(answer: Answer) -> usize
    ensures { result ≡ count_of answer }
{
    match answer {
        Answer::Bytes { count, .. } => count as usize,
        Answer::Due { .. } | Answer::End | Answer::Failed => 0,
    }
}

/// The last moment, after an answer.
fn moment_after(answer: Answer, last: u64) -> u64
    ensures { result ≡ moment_after answer last }
{
    match answer {
        Answer::Bytes { at, .. } | Answer::Due { at } => at,
        Answer::End | Answer::Failed => last,
    }
}

/// Whether it is the last answer.
fn is_ending(answer: Answer) -> bool
    ensures { result ≡ is_ending answer }
{
    matches!(answer, Answer::End | Answer::Failed)
}

/// A poll, as it is kept.
fn poll_to_keep<O: Outs>(
    outs: &O,
    until: Option<u64>,
    answer: Answer,
    bytes: &[u8; ARRIVAL_BYTES],
) -> Polled
    requires { count_of answer ≤ ARRIVAL_BYTES }
    ensures { poll_of result
        ≡ record {
          until = until;
          sent = O.sent outs.now;
          answer = answer;
          bytes = arrived answer bytes.now;
        } }
{
    let mut came = Wire::empty();
    came.extend(&bytes[..count_of(answer)]);
    Polled {
        until,
        sent: outs.sent(),
        answer,
        bytes: came,
    }
}

impl Inbox for MemInbox {
    ghost log = { λ i. Some i.log };

    ghost last = { λ i. i.last };

    ghost listened = { λ i. i.listened };

    ghost hand_count = { λ i. hands_of i.log };

    ghost ended = { λ i. i.ended };

    ghost faults = { λ i. i.faults };

    ghost wants = { λ i. i.wants };

    fn listen_hands(&mut self, name: &str, hands: u8) -> Result<u64, OutsideFault>
        requires fresh { self.old.listened ≡ false }
        requires some { 1 ≤ hands }
        requires few { hands ≤ MAX_HANDS }
        ensures log { Some self.new.log
            ≡ Some (after_listen result name.now hands self.old.log) }
        ensures moment { IfOk result (λ at. at ≡ self.old.last) }
        ensures last { self.new.last ≡ self.old.last }
        ensures hand_count { OnOk result (hands_of self.new.log ≡ hands) }
        ensures listened { self.new.listened ≡ true }
        ensures ended { self.new.ended ≡ self.old.ended }
        ensures count { self.old.faults ≤ self.new.faults }
        ensures failed { IsErrOf result OutsideFault.Failed → Rose self.old.faults self.new.faults }
        ensures steady { OnOk result (self.new.faults ≡ self.old.faults) }
        ensures steady_memory { IsErrOf result OutsideFault.Memory
            → self.new.faults ≡ self.old.faults }
        ensures wants { self.new.wants ≡ wants_after result self.old.wants }

        ensures answers { self.new.answers ≡ self.old.answers }
        ensures fail { self.new.fail ≡ self.old.fail }
        ensures listed { IsErrOf result OutsideFault.Failed
            → IsTrue (is_to_fail self.old.fail (calls_of self.old.log)) }
        ensures not_listed { OnOk result (is_to_fail self.old.fail (calls_of self.old.log)
            ≡ false) }
        ensures counted { IsErrOf result OutsideFault.Failed
            → self.new.faults ≡ min (self.old.faults + 1) last_count }
        ensures quiet { self.old.fail ≡ [] → self.new.faults ≡ self.old.faults }
    {
        self.listened = true;
        let answer = self.keep_listen(name, hands);
        self.misses.count(answer)
    }

    fn poll<O: Outs>(
        &mut self,
        outs: &O,
        until: Option<u64>,
        bytes: &mut [u8; ARRIVAL_BYTES],
    ) -> Answer
        requires { self.old.ended ≡ false }
        ensures answer { MayAnswer until self.old.last result }
        ensures log { Some self.new.log ≡ Some (after_poll (record {
          until = until;
          sent = O.sent outs.now;
          answer = result;
          bytes = arrived result bytes.new;
        }) self.old.log) }
        ensures last { self.new.last ≡ moment_after result self.old.last }
        ensures listened { self.new.listened ≡ self.old.listened }
        ensures hand_count { hands_of self.new.log ≡ hands_of self.old.log }
        ensures ended { self.new.ended ≡ is_ending result }
        ensures count { self.old.faults ≤ self.new.faults }
        ensures failed { result ≡ Answer.Failed → Rose self.old.faults self.new.faults }
        ensures steady { result ≢ Answer.Failed → self.new.faults ≡ self.old.faults }
        ensures wants { self.new.wants ≡ self.old.wants }

        ensures turn { result ≡ (served self.old until bytes.old).answer }
        ensures answers { self.new.answers ≡ (served self.old until bytes.old).answers }
        ensures bytes { bytes.new ≡ (served self.old until bytes.old).bytes }
        ensures fail { self.new.fail ≡ self.old.fail }
        ensures counted { result ≡ Answer.Failed
            → self.new.faults ≡ min (self.old.faults + 1) last_count }
        ensures quiet { self.old.fail ≡ [] → self.new.faults ≡ self.old.faults }
    {
        let fails = is_to_fail(&self.to_fail, &self.name, &self.polls);
        let answer = answer_next(fails, &mut self.answers, until, bytes);
        if fails {
            self.misses.faults = self.misses.faults.saturating_add(1);
        }
        self.last = moment_after(answer, self.last);
        self.ended = is_ending(answer);
        self.polls
            .push_reserved(poll_to_keep(outs, until, answer, bytes));
        answer
    }

    fn tell(&mut self, hand: u8, bytes: &[u8]) -> Result<(), Memory>
        requires heard { self.old.listened ≡ true }
        requires seated { hand < hands_of self.old.log }
        ensures told { self.new ≡ record self.old {
          log = after_tell result (record { hand = hand; bytes = bytes.now }) self.old.log;
          wants = self.new.wants;
        } }
        ensures taken { OnOk result (self.new.wants ≡ self.old.wants) }
        ensures refused { OnErr result (self.new.wants ≡ min (self.old.wants + 1) last_count) }
    {
        if self.keep_told(hand, bytes).is_err() {
            self.misses.wants = self.misses.wants.saturating_add(1);
            return Err(Memory);
        }
        Ok(())
    }
}
