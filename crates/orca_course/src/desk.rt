//! All that stands outside of a run, as one value.

ghost use Rattle.std.specs.Prelude.{◌≡◌, ◌≢◌, ◌≤◌, [], ◌∷◌, length, false, true, Err, IfSome};
ghost use Rattle.orca_edit.specs.Machines.{Acts, preview_of};
ghost use Rattle.orca_edit.specs.Obeying.{piece_of};
ghost use Rattle.orca_edit.specs.Prices.{charge, kept_after, preview_price};
ghost use Rattle.orca_base.specs.declared.limits.TheConstants.{MAX_ROOM_BYTES};
ghost use Rattle.orca_rig.specs.Arrived.{arrived};
ghost use Rattle.orca_base.specs.declared.limits.TheConstants.{MAX_HANDS};
ghost use Rattle.orca_course.specs.Acts.{Act, given};
ghost use Rattle.orca_course.specs.Acts.Act.{Append, Attach, Begin, Give, Listen, Load, Remove, Save, Tell};
ghost use Rattle.orca_course.specs.Answered.{losses_of, done_in};
ghost use Rattle.orca_course.specs.Told.{IsLogOf, Records, Tells, asked_in, attached_in};
ghost use Rattle.orca_course.specs.Worlds.{Called, IsSeated, LeavesInbox, Made, Polled, Sated, claim_answer, file_failed, has_ended, has_failed, has_listened, listen_moment, loaded_text, owing, settled, settled_with};

use crate::notes::Notes;
use crate::polling::arrived;
use crate::{Losses, NoMemory};
use orca_base::limits::ARRIVAL_BYTES;
use orca_base::{Command, Fault, Port, Reply, Steps};
use orca_edit::Machine;
use orca_notes::Messages;
use orca_rig::{Answer, Claim, Disk, Files, House, Inbox, Outs, OutsideFault};
use orca_trace::Kind;
use std::alloc::Global;
use std::marker::{Model, PhantomData};
use std::sync::ledger::Ledger;

/// The ports, the files, the inbox and the counter of steps of a run. It notes each call of theirs, so a contract sees all calls, also of objects that
/// tell none; and what the objects tell is what their calls came to.
#[derive(Drop)]
pub struct Desk<H: House> {
    files: H::Files,
    outs: H::Outs,
    inbox: H::Inbox,
    steps: Steps<H::Ledger>,
    notes: Notes,
}

impl<H: House> Model for Desk<H> {
    ghost use Rattle.std.specs.Coded.{codes};
    ghost use Rattle.orca_course.specs.Told.{AreWanted, Records, Tells};
    ghost use Rattle.orca_course.specs.Worlds.{World};
    ghost use Rattle.orca_rig.specs.Outside.{contents_code};

    ghost Value = { World };

    ghost coded = { Prim.hlevel (codes, contents_code) };

    ghost view = { λ d. record {
      calls = d.notes;
      contents = H.Files.contents d.files;
      faults = record {
        ports = H.Outs.faults d.outs;
        files = H.Files.faults d.files;
        inbox = H.Inbox.faults d.inbox;
      };
      paid = d.steps;
    } };

    ghost invariant = { λ d.
        Tells (H.Outs.handed d.outs) (H.Outs.attached d.outs) (H.Files.asked d.files)
        (H.Inbox.log d.inbox) d.notes
        × AreWanted (H.Outs.wants d.outs) (H.Files.wants d.files) (H.Inbox.wants d.inbox)
        d.notes
        × Records (H.Inbox.listened d.inbox) (H.Inbox.ended d.inbox)
        (H.Inbox.hand_count d.inbox) d.notes };
}

/// A house of any types that fit.
pub struct Rooms<F, O, I, L> {
    of: PhantomData<(F, O, I, L)>,
}

impl<F: Files, O: Outs, I: Inbox, L: Ledger> House for Rooms<F, O, I, L> {
    type Files = F;

    type Outs = O;

    type Inbox = I;

    type Ledger = L;
}

/// A desk of these, which nobody has called before, as far as they tell.
#[tactic(auto, unfolding(crate::specs::Answered::seats_of))]
pub fn desk_of<F: Files, O: Outs, I: Inbox, L: Ledger>(
    files: F,
    outs: O,
    inbox: I,
    steps: Steps<L>,
) -> Desk<Rooms<F, O, I, L>>
    requires untold { Tells (O.handed outs) (O.attached outs) (F.asked files) (I.log inbox) [] }
    requires ports { O.wants outs ≡ 0 }
    requires files { F.wants files ≡ 0 }
    requires inbox { I.wants inbox ≡ 0 }
    requires fresh { I.listened inbox ≡ false }
    requires open { I.ended inbox ≡ false }
    ensures { result ≡ record {
      calls = [];
      contents = F.contents files;
      faults = record {
        ports = O.faults outs;
        files = F.faults files;
        inbox = I.faults inbox;
      };
      paid = steps;
    } }
{
    Desk {
        files,
        outs,
        inbox,
        steps,
        notes: Notes::new(),
    }
}

/// What an answer comes to: a failure is recorded, and the run goes on; memory was refused here.
fn settle(answer: Result<(), OutsideFault>, refused: NoMemory) -> Result<(), NoMemory>
    ensures { result ≡ settled refused answer }
{
    match answer {
        Ok(()) => Ok(()),
        Err(OutsideFault::Failed) => Ok(()),
        Err(OutsideFault::Memory) => Err(refused),
    }
}

/// And of one that gives something: nothing, where it failed.
fn settle_with<T>(answer: Result<T, OutsideFault>) -> Result<Option<T>, NoMemory>
    ensures { result ≡ settled_with answer }
{
    match answer {
        Ok(given) => Ok(Some(given)),
        Err(OutsideFault::Failed) => Ok(None),
        Err(OutsideFault::Memory) => Err(NoMemory::Elsewhere),
    }
}

#[tactic(auto, using(crate::proofs::ToldLemmas::call_laws))]
impl<H: House> Desk<H> {
    /// The files.
    pub fn files(&self) -> &H::Files
        ensures contents { H.Files.contents result.now ≡ self.now.contents }
        ensures asked { IfSome (H.Files.asked result.now)
            (λ told. told ≡ asked_in (done_in self.now.calls)) }
        ensures faults { H.Files.faults result.now ≡ self.now.faults.files }
    {
        &self.files
    }

    /// The ports.
    pub fn outs(&self) -> &H::Outs
        ensures handed { IfSome (H.Outs.handed result.now)
            (λ told. told ≡ given (done_in self.now.calls)) }
        ensures attached { IfSome (H.Outs.attached result.now)
            (λ told. told ≡ attached_in (done_in self.now.calls)) }
        ensures faults { H.Outs.faults result.now ≡ self.now.faults.ports }
    {
        &self.outs
    }

    /// The inbox.
    pub fn inbox(&self) -> &H::Inbox
        ensures log { IfSome (H.Inbox.log result.now) (IsLogOf (done_in self.now.calls)) }
        ensures faults { H.Inbox.faults result.now ≡ self.now.faults.inbox }
    {
        &self.inbox
    }

    /// Whether a port has failed.
    pub fn has_failed(&self) -> bool
        ensures { result ≡ has_failed self.now }
    {
        self.notes.has_failed()
    }

    /// Whether the files have failed at a call.
    pub fn file_failed(&self) -> bool
        ensures { result ≡ file_failed self.now }
    {
        self.notes.file_failed()
    }

    /// What the calls so far came to.
    pub fn losses(&self) -> Losses
        ensures { result ≡ losses_of self.now.calls }
    {
        self.notes.losses()
    }

    /// Connects a port to a name. A failure is recorded, and the run goes on.
    pub fn attach(&mut self, port: Port, name: &str) -> Result<(), NoMemory>
        ensures called { Called result (Attach (record { port = port; name = name.now }))
            self.old self.new }
        ensures inbox { LeavesInbox self.old self.new }
    {
        let answer = self.outs.attach(port, name);
        self.notes
            .note(&Kind::Attach(port, answer), name.as_bytes(), &[]);
        settle(answer, NoMemory::Elsewhere)
    }

    /// Sends the bytes to a port, as one piece. A failure is recorded, and nothing is sent again.
    pub fn send(&mut self, port: Port, bytes: &[u8]) -> Result<(), NoMemory>
        ensures called { Called result (Give (record { port = port; bytes = bytes.now }))
            self.old self.new }
        ensures in_send { result ≢ Err NoMemory.Elsewhere }
    {
        let answer = self.outs.send(port, bytes);
        self.notes.note(&Kind::Give(port, answer), &[], bytes);
        settle(answer, NoMemory::InSend)
    }

    /// The bytes of the file of that name, which has at most `most`, and no more than a room may
    /// have; none if its load fails, which is recorded.
    pub fn load(
        &mut self,
        alloc: Global,
        name: &str,
        most: u32,
    ) -> Result<Option<Vec<u8>>, NoMemory>
        requires { most ≤ MAX_ROOM_BYTES }
        ensures called { Called result (Load name.now (loaded_text result)) self.old self.new }
        ensures short { IfSome (loaded_text result) (λ text. length text ≤ most) }
        ensures inbox { LeavesInbox self.old self.new }
    {
        let mut text = Vec::new(alloc);
        let answer = self.files.load(name, most, &mut text);
        self.notes.note(&Kind::Load(answer), name.as_bytes(), &text);
        match answer {
            Ok(()) => Ok(Some(text)),
            Err(OutsideFault::Failed) => Ok(None),
            Err(OutsideFault::Memory) => Err(NoMemory::Elsewhere),
        }
    }

    /// Saves the bytes under a name. A failure is recorded, and the run goes on.
    pub fn save(&mut self, name: &str, bytes: &[u8], disk: Disk) -> Result<(), NoMemory>
        ensures { Called result (Save name.now bytes.now) self.old self.new }
    {
        let answer = self.files.save(name, bytes, disk);
        self.notes.note(&Kind::Save(answer), name.as_bytes(), bytes);
        settle(answer, NoMemory::Elsewhere)
    }

    /// Begins a file of a name with the bytes, to be added to. A failure is recorded, and the run
    /// goes on.
    pub fn begin(&mut self, name: &str, bytes: &[u8]) -> Result<(), NoMemory>
        ensures { Called result (Begin name.now bytes.now) self.old self.new }
    {
        let answer = self.files.begin(name, bytes);
        self.notes
            .note(&Kind::Begin(answer), name.as_bytes(), bytes);
        settle(answer, NoMemory::Elsewhere)
    }

    /// Adds the bytes to the file of a name. A failure is recorded, and the run goes on.
    pub fn append(&mut self, name: &str, bytes: &[u8]) -> Result<(), NoMemory>
        ensures { Called result (Append name.now bytes.now) self.old self.new }
    {
        let answer = self.files.append(name, bytes);
        self.notes
            .note(&Kind::Append(answer), name.as_bytes(), bytes);
        settle(answer, NoMemory::Elsewhere)
    }

    /// Claims the file of a name with the bytes, to be added to, and says whether it was made; none if
    /// that fails, which is recorded.
    pub fn claim(&mut self, name: &str, bytes: &[u8]) -> Result<Option<Claim>, NoMemory>
        ensures called { Called result (Act.Claim name.now bytes.now (claim_answer result))
            self.old self.new }
        ensures inbox { LeavesInbox self.old self.new }
    {
        let answer = self.files.claim(name, bytes);
        self.notes
            .note(&Kind::Claim(answer), name.as_bytes(), bytes);
        settle_with(answer)
    }

    /// Takes away the file of a name, which was claimed. A failure is recorded, and the run goes on.
    pub fn remove(&mut self, name: &str) -> Result<(), NoMemory>
        ensures { Called result (Remove name.now) self.old self.new }
    {
        let answer = self.files.remove(name);
        self.notes.note(&Kind::Remove(answer), name.as_bytes(), &[]);
        settle(answer, NoMemory::Elsewhere)
    }

    /// Gives the bytes to a hand, to be seen where its keys come from. A hand that has left gets
    /// nothing, which is no failure.
    pub fn tell(&mut self, hand: u8, bytes: &[u8]) -> Result<(), NoMemory>
        requires heard { has_listened self.old ≡ true }
        requires seated { IsSeated hand self.old }
        ensures { Called result (Tell hand bytes.now) self.old self.new }
    {
        match self.inbox.tell(hand, bytes) {
            Ok(()) => {
                self.notes.note(&Kind::Tell(hand, Ok(())), &[], bytes);
                Ok(())
            }
            Err(_) => {
                let refused = Kind::Tell(hand, Err(OutsideFault::Memory));
                self.notes.note(&refused, &[], bytes);
                Err(NoMemory::Elsewhere)
            }
        }
    }

    /// Waits for so many players at a name, and answers the moment of the start, in microseconds;
    /// none if the inbox fails.
    pub fn listen(&mut self, name: &str, hands: u8) -> Result<Option<u64>, NoMemory>
        requires fresh { has_listened self.old ≡ false }
        requires some { 1 ≤ hands }
        requires few { hands ≤ MAX_HANDS }
        ensures called { Called result (Listen name.now hands (listen_moment result)) self.old self.new }
        ensures open { has_ended self.new ≡ has_ended self.old }
    {
        let answer = self.inbox.listen_hands(name, hands);
        self.notes
            .note(&Kind::Listen(hands, answer), name.as_bytes(), &[]);
        settle_with(answer)
    }

    /// Waits for what comes next: bytes, which it puts at the front of `bytes`, or the moment
    /// `until`, where there is one.
    pub fn poll(&mut self, until: Option<u64>, bytes: &mut [u8; ARRIVAL_BYTES]) -> Answer
        requires { has_ended self.old ≡ false }
        ensures { Polled until result (arrived result bytes.new) self.old self.new }
    {
        let answer = self.inbox.poll(&self.outs, until, bytes);
        self.notes
            .note(&Kind::Await(until, answer), &[], arrived(answer, bytes));
        answer
    }

    /// Does a command of a session.
    pub fn act<M: Machine>(
        &mut self,
        machine: &mut M,
        command: &Command,
        messages: &mut Messages,
    ) -> Result<Reply, Fault>
        requires { messages.old ≡ [] }
        ensures acts { Acts (M.machine machine.old) command.now result (M.machine machine.new)
            messages.new }
        ensures kept { M.kept machine.new
            ≡ kept_after (M.machine machine.old) (M.kept machine.old) command.now result }
        ensures made { Made []
            (charge result (M.machine machine.old) (M.kept machine.old) command.now)
            (owing (M.residue machine.old) self.old) (owing (M.residue machine.new) self.new) }
        ensures sated { Sated self.old self.new }
    {
        machine.act(command, messages, &mut self.steps)
    }

    /// Leaves the marks of a scan of a session's piece as it stands, to be seen until the next call
    /// that takes the session by `&mut`.
    pub fn preview<M: Machine>(&mut self, machine: &mut M)
        ensures machine { M.machine machine.new ≡ M.machine machine.old }
        ensures kept { M.kept machine.new ≡ M.kept machine.old }
        ensures marks { M.marks machine.new ≡ preview_of (piece_of (M.machine machine.old)) }
        ensures made { Made [] (preview_price (piece_of (M.machine machine.old)))
            (owing (M.residue machine.old) self.old) (owing (M.residue machine.new) self.new) }
        ensures sated { Sated self.old self.new }
    {
        machine.preview_marks(&mut self.steps);
    }
}
