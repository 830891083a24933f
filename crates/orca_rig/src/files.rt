ghost use Rattle.std.specs.Prelude.{◌≡◌, ◌≤◌, ℕ, Bool, true, false, List, Option, Some, length, OnOk, OnErr, IfSome, IsErrOf};
ghost use Rattle.std.specs.FinMap.{get};
ghost use Rattle.std.specs.Result.{result_ok};
ghost use Rattle.orca_rig.specs.Outside.{Contents, Ask, Rose, after_call, wants_after};
ghost use Rattle.orca_rig.specs.Outside.Ask.{Append, Begin, Load, Remove, Save};
ghost use Rattle.orca_rig.specs.Saved.{HasRoom, Holds, IsAppended, IsClaimed, IsFound, IsHeldAfter, IsRemoved, IsSaved, spoilt_after};

use crate::OutsideFault;

/// Whether a save waits until the disk has the bytes. No clause speaks of it: it decides alone what
/// a machine has after its power was cut.
#[derive(Clone, Copy, Debug, PartialEq, Eq)]
pub enum Disk {
    /// It waits.
    Awaited,
    /// It does not wait: the disk has them some time later.
    NotAwaited,
}

/// What a [`claim`](Files::claim) found.
#[derive(Clone, Copy, Debug, PartialEq, Eq)]
pub enum Claim {
    /// No file of that name was there. Now there is one with the bytes, and this program holds it
    /// as long as it lives.
    Made,
    /// A file is there, and no program holds it.
    Left,
    /// A file is there, and a program holds it.
    Held,
}

/// A store of files, by name.
pub trait Files: Drop {
    /// What the files hold, where it is told.
    ghost contents: { Self → Option Contents };

    /// The calls so far that did not answer [`OutsideFault::Memory`], in order, where they are
    /// told.
    ghost asked: { Self → Option (List Ask) };

    /// How often the store has failed.
    ghost faults: { Self → ℕ };

    /// How often memory was refused to a call.
    ghost wants: { Self → ℕ };

    /// Whether a [`save`](Files::save), a [`begin`](Files::begin), an [`append`](Files::append) or
    /// a [`claim`](Files::claim) of the file of that name has failed.
    ghost spoilt: { Self → List ℕ → Bool };

    /// Whether a program holds the file of that name, this one or another, where that is told. It
    /// says nothing of a name that no file has.
    ghost held: { Self → Option Holds };

    /// Makes `into` exactly the bytes of the file of that name, which has at most `most` bytes.
    /// After an error `into` is as before.
    fn load(&mut self, name: &str, most: u32, into: &mut Vec<u8>) -> Result<(), OutsideFault>
        ensures loaded { OnOk result (IfSome (contents self.old)
            (λ files. get files name.now ≡ Some into.new.items)) }
        ensures short { OnOk result (length into.new.items ≤ most) }
        ensures untouched { OnErr result (into.new.items ≡ into.old.items) }
        ensures contents { contents self.new ≡ contents self.old }
        ensures spoilt { spoilt self.new ≡ spoilt self.old }
        ensures held { held self.new ≡ held self.old }
        ensures asked { asked self.new ≡ after_call result (Load name.now) (asked self.old) }

        ensures count { faults self.old ≤ faults self.new }
        ensures failed { IsErrOf result OutsideFault.Failed
            → Rose (faults self.old) (faults self.new) }
        ensures steady { OnOk result (faults self.new ≡ faults self.old) }
        ensures steady_memory { IsErrOf result OutsideFault.Memory
            → faults self.new ≡ faults self.old }
        ensures wants { wants self.new ≡ wants_after result (wants self.old) };

    /// Makes the file of that name hold exactly these bytes, whether or not there was one. After
    /// [`OutsideFault::Failed`] that file may hold any bytes or be missing, and the others are as
    /// before; after [`OutsideFault::Memory`] all are as before. Once a save, a begin, an append or
    /// a claim of a file has failed, no later append adds to that file, not even after a save that
    /// went well.
    fn save(&mut self, name: &str, bytes: &[u8], disk: Disk) -> Result<(), OutsideFault>
        ensures saved { IsSaved result name.now bytes.now (contents self.old) (contents self.new) }
        ensures spoilt { (file : List ℕ) → spoilt self.new file
            ≡ spoilt_after result name.now file (spoilt self.old file) }
        ensures held { held self.new ≡ held self.old }
        ensures asked { asked self.new
            ≡ after_call result (Save name.now bytes.now) (asked self.old) }

        ensures count { faults self.old ≤ faults self.new }
        ensures failed { IsErrOf result OutsideFault.Failed
            → Rose (faults self.old) (faults self.new) }
        ensures steady { OnOk result (faults self.new ≡ faults self.old) }
        ensures steady_memory { IsErrOf result OutsideFault.Memory
            → faults self.new ≡ faults self.old }
        ensures wants { wants self.new ≡ wants_after result (wants self.old) };

    /// Makes the file of that name hold exactly these bytes, to be added to. It promises what a
    /// [`save`](Files::save) does. A store may refuse to begin over a file that is there, and that is
    /// a failure.
    fn begin(&mut self, name: &str, bytes: &[u8]) -> Result<(), OutsideFault>
        ensures saved { IsSaved result name.now bytes.now (contents self.old) (contents self.new) }
        ensures spoilt { (file : List ℕ) → spoilt self.new file
            ≡ spoilt_after result name.now file (spoilt self.old file) }
        ensures held { held self.new ≡ held self.old }
        ensures asked { asked self.new
            ≡ after_call result (Begin name.now bytes.now) (asked self.old) }

        ensures count { faults self.old ≤ faults self.new }
        ensures failed { IsErrOf result OutsideFault.Failed
            → Rose (faults self.old) (faults self.new) }
        ensures steady { OnOk result (faults self.new ≡ faults self.old) }
        ensures steady_memory { IsErrOf result OutsideFault.Memory
            → faults self.new ≡ faults self.old }
        ensures wants { wants self.new ≡ wants_after result (wants self.old) };

    /// Adds the bytes at the end of the file of that name, which was begun or claimed. A store may
    /// also add to one that is only there. One that would make the file larger than
    /// [`MAX_ROOM_BYTES`](orca_base::limits::MAX_ROOM_BYTES) is a failure. After
    /// [`OutsideFault::Failed`] a beginning of them was added. After [`OutsideFault::Memory`] all
    /// are as before. Once a save, a begin, an append or a claim of a file has failed, no later
    /// append adds to that file: it may be an older one, or end in a piece that was cut off. No
    /// other file is spoilt.
    fn append(&mut self, name: &str, bytes: &[u8]) -> Result<(), OutsideFault>
        ensures appended { IsAppended result name.now bytes.now
            (contents self.old) (contents self.new) }
        ensures spoilt { (file : List ℕ) → spoilt self.new file
            ≡ spoilt_after result name.now file (spoilt self.old file) }
        ensures whole { OnOk result (spoilt self.old name.now ≡ false) }
        ensures last { spoilt self.old name.now ≡ true → contents self.new ≡ contents self.old }
        ensures room { OnOk result (HasRoom name.now (contents self.new)) }
        ensures held { held self.new ≡ held self.old }
        ensures asked { asked self.new
            ≡ after_call result (Append name.now bytes.now) (asked self.old) }

        ensures count { faults self.old ≤ faults self.new }
        ensures failed { IsErrOf result OutsideFault.Failed
            → Rose (faults self.old) (faults self.new) }
        ensures steady { OnOk result (faults self.new ≡ faults self.old) }
        ensures steady_memory { IsErrOf result OutsideFault.Memory
            → faults self.new ≡ faults self.old }
        ensures wants { wants self.new ≡ wants_after result (wants self.old) };

    /// Makes a file of that name with exactly these bytes, to be added to, if nothing has the name,
    /// and holds it: no other program is told that nobody holds it, as long as this one lives. If
    /// the name is taken, it says whether a program holds what has it, and all are as before. After
    /// [`OutsideFault::Failed`] that file may hold any bytes or be missing, and the others are as
    /// before; after [`OutsideFault::Memory`] all are as before.
    fn claim(&mut self, name: &str, bytes: &[u8]) -> Result<Claim, OutsideFault>
        ensures claimed { IsClaimed result name.now bytes.now
            (contents self.old) (contents self.new) }
        ensures spoilt { (file : List ℕ) → spoilt self.new file
            ≡ spoilt_after result name.now file (spoilt self.old file) }
        ensures found { IsFound result name.now (held self.old) }
        ensures held { IsHeldAfter result name.now (held self.old) (held self.new) }
        ensures asked { asked self.new ≡ after_call result
            (Ask.Claim name.now bytes.now (result_ok result)) (asked self.old) }

        ensures count { faults self.old ≤ faults self.new }
        ensures failed { IsErrOf result OutsideFault.Failed
            → Rose (faults self.old) (faults self.new) }
        ensures steady { OnOk result (faults self.new ≡ faults self.old) }
        ensures steady_memory { IsErrOf result OutsideFault.Memory
            → faults self.new ≡ faults self.old }
        ensures wants { wants self.new ≡ wants_after result (wants self.old) };

    /// Takes away the file of that name, which the last [`claim`](Files::claim) that answered
    /// [`Claim::Made`] made, and holds it no more. Of any other name it is a failure, and so it is
    /// after a removal. After an error all are as before.
    fn remove(&mut self, name: &str) -> Result<(), OutsideFault>
        ensures removed { IsRemoved result name.now (contents self.old) (contents self.new) }
        ensures spoilt { spoilt self.new ≡ spoilt self.old }
        ensures held { OnErr result (held self.new ≡ held self.old) }
        ensures asked { asked self.new ≡ after_call result (Remove name.now) (asked self.old) }

        ensures count { faults self.old ≤ faults self.new }
        ensures failed { IsErrOf result OutsideFault.Failed
            → Rose (faults self.old) (faults self.new) }
        ensures steady { OnOk result (faults self.new ≡ faults self.old) }
        ensures steady_memory { IsErrOf result OutsideFault.Memory
            → faults self.new ≡ faults self.old }
        ensures wants { wants self.new ≡ wants_after result (wants self.old) };
}
