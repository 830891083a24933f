ghost use Rattle.std.specs.Prelude.{◌≡◌, ◌+◌, min, ◌<◌, ◌≤◌, ◌^◌, [], ◌∷◌, ◌++◌, true, false, not, ◌⊎◌, ℕ, List, IsNone, length, position, string_bytes, vec_len, vec_capacity, Some, None, IsTrue, IfSome, IfNone, IsOk, IfOk, OnOk, OnErr, IsErrOf};
ghost use Rattle.std.specs.Str.{bytes_eq};
ghost use Rattle.std.specs.Option.{option_copied};
ghost use Rattle.std.specs.Result.{result_ok};
ghost use Rattle.orca_base.specs.declared.limits.TheConstants.{MAX_ROOM_BYTES};
ghost use Rattle.std.specs.Ordering.{nat_cmp};
ghost use Rattle.std.specs.Cmp.Lexicographic.{slice_cmp};
ghost use Rattle.std.specs.FinMap.{get, find, insert, remove};
ghost use Rattle.orca_rig.specs.Outside.{Ask, Rose, after_call, last_count, wants_after};
ghost use Rattle.orca_rig.specs.Outside.Ask.{Append, Begin, Load, Remove, Save};
ghost use Rattle.orca_rig.specs.Saved.{HasRoom, IsAppended, IsClaimed, IsRemoved, IsSaved, is_spoilt, names_of, spoilt_after};
ghost use Rattle.orca_rig.specs.InMemory.{named, files_of, asks_of, ask_of, names_differ, is_to_fail, IsFull, IsUnloadable, claims_of, claims_after, found, is_held, is_own};

use crate::spoilt::has_name;
use crate::{Claim, Disk, Files, Misses, OutsideFault, is_spoilt, keep_spoilt};
use orca_base::Memory;
use orca_base::limits::MAX_ROOM_BYTES;
use std::alloc::{AllocError, Global};
use std::marker::Model;

/// A call of a store: a load of the file of a name, a save of bytes under a name, a begin of a file
/// of a name with bytes, an append of bytes to the file of a name, a claim of a name with bytes and
/// what it found, unless it failed, or a removal of the file of a name.
#[derive(Drop)]
enum Call {
    Load(String),
    Save(String, Vec<u8>),
    Begin(String, Vec<u8>),
    Append(String, Vec<u8>),
    Claim(String, Vec<u8>, Option<Claim>),
    Remove(String),
}

/// The names that are held: that of the file that was claimed, and those that others hold.
#[derive(Drop)]
struct Holds {
    own: Option<String>,
    others: Vec<String>,
}

/// A store of files in memory. It fails where it is told to, and then holds what it held.
#[derive(Drop)]
pub struct MemFiles {
    files: Vec<(String, Vec<u8>)>,
    calls: Vec<Call>,
    to_fail: Vec<u64>,
    misses: Misses,
    /// The names of the files of which a save, a begin, an append or a claim has failed.
    spoilt: Vec<String>,
    holds: Holds,
}

impl Model for MemFiles {
    ghost use Rattle.std.specs.Coded.{codes};
    ghost use Rattle.orca_rig.specs.InMemory.{Store, files_of, asks_of, claims_of};
    ghost use Rattle.orca_rig.specs.Outside.{contents_code};
    ghost use Rattle.orca_rig.specs.Saved.{names_of};

    ghost Value = { Store };

    ghost coded = { Prim.hlevel (codes, contents_code) };

    ghost view = { λ f. record {
      contents = files_of f.files.items;
      asked = asks_of f.calls.items;
      fail = f.to_fail.items;
      faults = f.misses.faults;
      wants = f.misses.wants;
      spoilt = names_of f.spoilt.items;
      claims = claims_of f.holds;
    } };
}

impl MemFiles {
    /// A store that holds exactly these files, each a name and its bytes. No other program holds
    /// one. `fail` lists the calls that are to fail, by their numbers, counted from 1.
    pub fn new(contents: Vec<(String, Vec<u8>)>, fail: Vec<u64>) -> Result<MemFiles, Memory>
        // No name stands twice.
        requires { IsTrue (names_differ (named contents.items)) }
        ensures made { IsOk result }
        ensures contents { IfOk result (λ files. files.contents ≡ files_of contents.items) }
        ensures asked { IfOk result (λ files. files.asked ≡ []) }
        ensures fail { IfOk result (λ files. files.fail ≡ fail.items) }
        ensures faults { IfOk result (λ files. files.faults ≡ 0) }
        ensures wants { IfOk result (λ files. files.wants ≡ 0) }
        ensures spoilt { IfOk result (λ files. files.spoilt ≡ []) }
        ensures claims { IfOk result (λ files. files.claims
            ≡ record { own = None; others = [] }) }
    {
        let alloc = *contents.allocator();
        Ok(MemFiles {
            files: contents,
            calls: Vec::new(alloc),
            to_fail: fail,
            misses: Misses::none(),
            spoilt: Vec::new(alloc),
            holds: Holds {
                own: None,
                others: Vec::new(alloc),
            },
        })
    }

    /// From now on another program holds the file of that name, as long as that is there.
    pub fn hold(&mut self, name: String) -> Result<(), Memory>
        ensures held { OnOk result (self.new ≡ record self.old {
          claims = record self.old.claims {
            others = self.old.claims.others ++ string_bytes name ∷ [];
          };
        }) }
        ensures same { OnErr result (self.new ≡ self.old) }
    {
        Ok(self.holds.others.push(name)?)
    }

    /// The bytes of the file of that name; none exactly where no file has it.
    pub fn file(&self, name: &str) -> Option<&[u8]>
        ensures { option_copied result ≡ get self.now.contents name.now }
    {
        bytes_of(&self.files, name)
    }
}

/// Whether no name stands twice.
pub fn names_differ(contents: &[(String, Vec<u8>)]) -> bool
    ensures { result ≡ names_differ (named contents.now) }
{
    let mut rest = contents;
    while let [(name, _), others @ ..] = rest {
        if bytes_of(others, name.as_str()).is_some() {
            return false;
        }
        rest = others;
    }
    true
}

/// The bytes of the first file of that name.
#[tactic(auto, using(crate::proofs::InMemoryLemmas::get_files_of))]
fn bytes_of<'a>(files: &'a [(String, Vec<u8>)], name: &str) -> Option<&'a [u8]>
    ensures first { option_copied result ≡ find (slice_cmp nat_cmp) name.now (named files.now) }
    ensures held { option_copied result ≡ get (files_of files.now) name.now }
{
    for (held, bytes) in files {
        if name == held.as_str() {
            return Some(bytes.as_slice());
        }
    }
    None
}

/// The bytes of the file of that name, where it is there and has no more than so many.
fn loadable<'a>(files: &'a [(String, Vec<u8>)], name: &str, most: u32) -> Option<&'a [u8]>
    ensures found { IfSome result (λ bytes. get (files_of files.now) name.now ≡ Some bytes.now) }
    ensures short { IfSome result (λ bytes. length bytes.now ≤ most) }
    ensures none { IfNone result (IsUnloadable (files_of files.now) name.now most) }
{
    let bytes = bytes_of(files, name)?;
    if bytes.len() > most as usize {
        return None;
    }
    Some(bytes)
}

/// The bytes of the file of that name, where it is there and may have so many more.
fn extensible<'a>(files: &'a [(String, Vec<u8>)], name: &str, more: usize) -> Option<&'a [u8]>
    ensures found { IfSome result (λ bytes. get (files_of files.now) name.now ≡ Some bytes.now) }
    ensures room { IfSome result (λ bytes. length bytes.now + more ≤ MAX_ROOM_BYTES) }
    ensures none { IfNone result (IsFull (files_of files.now) name.now more) }
{
    let bytes = bytes_of(files, name)?;
    if bytes.len() > MAX_ROOM_BYTES || more > MAX_ROOM_BYTES - bytes.len() {
        return None;
    }
    Some(bytes)
}

/// The place of the first file of that name.
fn place_of(files: &[(String, Vec<u8>)], name: &str) -> Option<usize>
    ensures { result ≡ position (λ file. bytes_eq name.now (string_bytes file.0)) files.now }
{
    files.iter().position(|file| name == file.0.as_str())
}

/// Makes the file of that name hold these bytes. There is room for one more file.
fn put_file(files: &mut Vec<(String, Vec<u8>)>, name: String, bytes: Vec<u8>)
    requires { vec_len files.old < vec_capacity files.old }
    ensures { files_of files.new.items
        ≡ insert (files_of files.old.items) (string_bytes name) bytes.items }
{
    match place_of(files, name.as_str()) {
        Some(place) => files[place].1 = bytes,
        None => files.push_reserved((name, bytes)),
    }
}

/// Whether a file has another name.
fn has_other(file: &(String, Vec<u8>), name: &str) -> bool
    ensures { result ≡ not (bytes_eq name.now (string_bytes file.now.0)) }
{
    name != file.0.as_str()
}

/// Takes away the file of that name.
fn drop_file(files: &mut Vec<(String, Vec<u8>)>, name: &str)
    ensures { files_of files.new.items ≡ remove (files_of files.old.items) name.now }
{
    files.retain(|file| has_other(file, name));
}

impl Holds {
    /// Whether the file of that name is the one that was claimed.
    fn is_own(&self, name: &str) -> bool
        ensures { result ≡ is_own (claims_of self.now) name.now }
    {
        match &self.own {
            Some(own) => name == own.as_str(),
            None => false,
        }
    }

    /// Whether a program holds the file of that name, if it is there.
    fn is_held(&self, name: &str) -> bool
        ensures { result ≡ is_held (claims_of self.now) name.now }
    {
        self.is_own(name) || has_name(&self.others, name)
    }
}

/// Whether the next call is to fail.
fn is_to_fail(to_fail: &[u64], calls: &[Call]) -> bool
    requires { length calls.now < 2 ^ 63 }
    ensures { result ≡ is_to_fail to_fail.now (length calls.now) }
{
    let number = calls.len() as u64 + 1;
    to_fail.contains(&number)
}

/// Takes the room of a save, a begin, an append or a claim: for its call, for a new file, and for a
/// spoilt name.
fn take_room(
    calls: &mut Vec<Call>,
    files: &mut Vec<(String, Vec<u8>)>,
    spoilt: &mut Vec<String>,
) -> Result<(), AllocError>
    ensures calls { calls.new.items ≡ calls.old.items }
    ensures files { files.new.items ≡ files.old.items }
    ensures spoilt { spoilt.new.items ≡ spoilt.old.items }
    ensures a_call { OnOk result (vec_len calls.new < vec_capacity calls.new) }
    ensures a_file { OnOk result (vec_len files.new < vec_capacity files.new) }
    ensures a_name { OnOk result (vec_len spoilt.new < vec_capacity spoilt.new) }
{
    calls.reserve(1)?;
    files.reserve(1)?;
    spoilt.reserve(1)?;
    Ok(())
}

/// A save, as it is kept.
fn save_call(alloc: Global, name: &str, bytes: &[u8]) -> Result<Call, AllocError>
    ensures { IfOk result (λ call. ask_of call ≡ Save name.now bytes.now) }
{
    Ok(Call::Save(String::from_str(alloc, name)?, bytes.to_vec(alloc)?))
}

/// A begin, as it is kept.
fn begin_call(alloc: Global, name: &str, bytes: &[u8]) -> Result<Call, AllocError>
    ensures { IfOk result (λ call. ask_of call ≡ Begin name.now bytes.now) }
{
    Ok(Call::Begin(String::from_str(alloc, name)?, bytes.to_vec(alloc)?))
}

/// An append, as it is kept.
fn append_call(alloc: Global, name: &str, bytes: &[u8]) -> Result<Call, AllocError>
    ensures { IfOk result (λ call. ask_of call ≡ Append name.now bytes.now) }
{
    Ok(Call::Append(String::from_str(alloc, name)?, bytes.to_vec(alloc)?))
}

/// A claim and what it found, as it is kept.
fn claim_call(
    alloc: Global,
    name: &str,
    bytes: &[u8],
    found: Option<Claim>,
) -> Result<Call, AllocError>
    ensures { IfOk result (λ call. ask_of call ≡ Ask.Claim name.now bytes.now found) }
{
    let name = String::from_str(alloc, name)?;
    Ok(Call::Claim(name, bytes.to_vec(alloc)?, found))
}

/// The bytes of a file with more at their end.
fn joined(alloc: Global, held: &[u8], more: &[u8]) -> Result<Vec<u8>, AllocError>
    ensures all { IfOk result (λ all. all.items ≡ held.now ++ more.now) }
    ensures count { IfOk result (λ all. length all.items ≡ length held.now + length more.now) }
{
    let mut all = held.to_vec(alloc)?;
    all.extend_from_slice(more)?;
    Ok(all)
}

impl MemFiles {
    /// Does a load. Nothing is counted.
    fn take(&mut self, name: &str, most: u32, into: &mut Vec<u8>) -> Result<(), OutsideFault>
        ensures loaded { OnOk result (get self.old.contents name.now ≡ Some into.new.items) }
        ensures short { OnOk result (length into.new.items ≤ most) }
        ensures untouched { OnErr result (into.new.items ≡ into.old.items) }
        ensures asked { Some self.new.asked
            ≡ after_call result (Load name.now) (Some self.old.asked) }
        ensures same { self.new ≡ record self.old { asked = self.new.asked } }
        ensures cause { IsErrOf result OutsideFault.Failed
            → is_to_fail self.old.fail (length self.old.asked) ≡ false
            → IsUnloadable self.old.contents name.now most }
        ensures not_listed { OnOk result (is_to_fail self.old.fail (length self.old.asked)
            ≡ false) }
    {
        self.calls.reserve(1)?;
        let alloc = *into.allocator();
        let call = Call::Load(String::from_str(alloc, name)?);
        let fails = is_to_fail(&self.to_fail, &self.calls);
        let (Some(bytes), false) = (loadable(&self.files, name, most), fails) else {
            self.calls.push_reserved(call);
            return Err(OutsideFault::Failed);
        };
        *into = bytes.to_vec(alloc)?;
        self.calls.push_reserved(call);
        Ok(())
    }

    /// Does a save or a begin, which is kept as this call. Nothing is counted.
    fn put(&mut self, call: Call, name: &str, bytes: &[u8]) -> Result<(), OutsideFault>
        ensures saved { IsSaved result name.now bytes.now
            (Some self.old.contents) (Some self.new.contents) }
        ensures untouched { OnErr result (self.new.contents ≡ self.old.contents) }
        ensures spoilt { (file : List ℕ) → is_spoilt self.new.spoilt file
            ≡ spoilt_after result name.now file (is_spoilt self.old.spoilt file) }
        ensures asked { Some self.new.asked
            ≡ after_call result (ask_of call) (Some self.old.asked) }
        ensures fail { self.new.fail ≡ self.old.fail }
        ensures faults { self.new.faults ≡ self.old.faults }
        ensures wants { self.new.wants ≡ self.old.wants }
        ensures claims { self.new.claims ≡ self.old.claims }
        ensures listed { IsErrOf result OutsideFault.Failed
            → IsTrue (is_to_fail self.old.fail (length self.old.asked)) }
        ensures not_listed { OnOk result (is_to_fail self.old.fail (length self.old.asked)
            ≡ false) }
    {
        take_room(&mut self.calls, &mut self.files, &mut self.spoilt)?;
        let alloc = *self.files.allocator();
        let held = String::from_str(alloc, name)?;
        if is_to_fail(&self.to_fail, &self.calls) {
            self.calls.push_reserved(call);
            return keep_spoilt(&mut self.spoilt, held, Err(OutsideFault::Failed));
        }
        let kept = bytes.to_vec(alloc)?;
        self.calls.push_reserved(call);
        put_file(&mut self.files, held, kept);
        Ok(())
    }

    /// Does a save. Nothing is counted.
    fn keep_saved(&mut self, name: &str, bytes: &[u8]) -> Result<(), OutsideFault>
        ensures saved { IsSaved result name.now bytes.now
            (Some self.old.contents) (Some self.new.contents) }
        ensures untouched { OnErr result (self.new.contents ≡ self.old.contents) }
        ensures spoilt { (file : List ℕ) → is_spoilt self.new.spoilt file
            ≡ spoilt_after result name.now file (is_spoilt self.old.spoilt file) }
        ensures asked { Some self.new.asked
            ≡ after_call result (Save name.now bytes.now) (Some self.old.asked) }
        ensures fail { self.new.fail ≡ self.old.fail }
        ensures faults { self.new.faults ≡ self.old.faults }
        ensures wants { self.new.wants ≡ self.old.wants }
        ensures claims { self.new.claims ≡ self.old.claims }
        ensures listed { IsErrOf result OutsideFault.Failed
            → IsTrue (is_to_fail self.old.fail (length self.old.asked)) }
        ensures not_listed { OnOk result (is_to_fail self.old.fail (length self.old.asked)
            ≡ false) }
    {
        let call = save_call(*self.files.allocator(), name, bytes)?;
        self.put(call, name, bytes)
    }

    /// Does a begin. Nothing is counted.
    fn keep_begun(&mut self, name: &str, bytes: &[u8]) -> Result<(), OutsideFault>
        ensures saved { IsSaved result name.now bytes.now
            (Some self.old.contents) (Some self.new.contents) }
        ensures untouched { OnErr result (self.new.contents ≡ self.old.contents) }
        ensures spoilt { (file : List ℕ) → is_spoilt self.new.spoilt file
            ≡ spoilt_after result name.now file (is_spoilt self.old.spoilt file) }
        ensures asked { Some self.new.asked
            ≡ after_call result (Begin name.now bytes.now) (Some self.old.asked) }
        ensures fail { self.new.fail ≡ self.old.fail }
        ensures faults { self.new.faults ≡ self.old.faults }
        ensures wants { self.new.wants ≡ self.old.wants }
        ensures claims { self.new.claims ≡ self.old.claims }
        ensures listed { IsErrOf result OutsideFault.Failed
            → IsTrue (is_to_fail self.old.fail (length self.old.asked)) }
        ensures not_listed { OnOk result (is_to_fail self.old.fail (length self.old.asked)
            ≡ false) }
    {
        let call = begin_call(*self.files.allocator(), name, bytes)?;
        self.put(call, name, bytes)
    }

    /// Does an append. Nothing is counted.
    fn join(&mut self, name: &str, bytes: &[u8]) -> Result<(), OutsideFault>
        ensures appended { IsAppended result name.now bytes.now
            (Some self.old.contents) (Some self.new.contents) }
        ensures untouched { OnErr result (self.new.contents ≡ self.old.contents) }
        ensures spoilt { (file : List ℕ) → is_spoilt self.new.spoilt file
            ≡ spoilt_after result name.now file (is_spoilt self.old.spoilt file) }
        ensures whole { OnOk result (is_spoilt self.old.spoilt name.now ≡ false) }
        ensures room { OnOk result (HasRoom name.now (Some self.new.contents)) }
        ensures asked { Some self.new.asked
            ≡ after_call result (Append name.now bytes.now) (Some self.old.asked) }
        ensures fail { self.new.fail ≡ self.old.fail }
        ensures faults { self.new.faults ≡ self.old.faults }
        ensures wants { self.new.wants ≡ self.old.wants }
        ensures claims { self.new.claims ≡ self.old.claims }
        ensures cause { IsErrOf result OutsideFault.Failed
            → is_to_fail self.old.fail (length self.old.asked) ≡ false
            → (is_spoilt self.old.spoilt name.now ≡ true)
            ⊎ IsFull self.old.contents name.now (length bytes.now) }
        ensures not_listed { OnOk result (is_to_fail self.old.fail (length self.old.asked)
            ≡ false) }
    {
        take_room(&mut self.calls, &mut self.files, &mut self.spoilt)?;
        let alloc = *self.files.allocator();
        let call = append_call(alloc, name, bytes)?;
        let own = String::from_str(alloc, name)?;
        let fails = is_spoilt(&self.spoilt, name) || is_to_fail(&self.to_fail, &self.calls);
        let (Some(held), false) = (extensible(&self.files, name, bytes.len()), fails) else {
            self.calls.push_reserved(call);
            return keep_spoilt(&mut self.spoilt, own, Err(OutsideFault::Failed));
        };
        let kept = joined(alloc, held, bytes)?;
        self.calls.push_reserved(call);
        put_file(&mut self.files, own, kept);
        Ok(())
    }

    /// What a claim of that name finds.
    fn find(&self, name: &str) -> Claim
        ensures { result ≡ found self.now name.now }
    {
        if bytes_of(&self.files, name).is_none() {
            Claim::Made
        } else if self.holds.is_held(name) {
            Claim::Held
        } else {
            Claim::Left
        }
    }

    /// Does a claim. Nothing is counted.
    fn make(&mut self, name: &str, bytes: &[u8]) -> Result<Claim, OutsideFault>
        ensures claimed { IsClaimed result name.now bytes.now
            (Some self.old.contents) (Some self.new.contents) }
        ensures untouched { OnErr result (self.new.contents ≡ self.old.contents) }
        ensures spoilt { (file : List ℕ) → is_spoilt self.new.spoilt file
            ≡ spoilt_after result name.now file (is_spoilt self.old.spoilt file) }
        ensures asked { Some self.new.asked
            ≡ after_call result (Ask.Claim name.now bytes.now (result_ok result))
            (Some self.old.asked) }
        ensures fail { self.new.fail ≡ self.old.fail }
        ensures faults { self.new.faults ≡ self.old.faults }
        ensures wants { self.new.wants ≡ self.old.wants }
        ensures claims { self.new.claims ≡ claims_after result name.now self.old.claims }
        ensures found { IfOk result (λ claim. claim ≡ found self.old name.now) }
        ensures listed { IsErrOf result OutsideFault.Failed
            → IsTrue (is_to_fail self.old.fail (length self.old.asked)) }
        ensures not_listed { OnOk result (is_to_fail self.old.fail (length self.old.asked)
            ≡ false) }
    {
        take_room(&mut self.calls, &mut self.files, &mut self.spoilt)?;
        let alloc = *self.files.allocator();
        let held = String::from_str(alloc, name)?;
        if is_to_fail(&self.to_fail, &self.calls) {
            self.calls
                .push_reserved(claim_call(alloc, name, bytes, None)?);
            return keep_spoilt(&mut self.spoilt, held, Err(OutsideFault::Failed));
        }
        let claim = self.find(name);
        let call = claim_call(alloc, name, bytes, Some(claim))?;
        if let Claim::Made = claim {
            let kept = bytes.to_vec(alloc)?;
            let own = String::from_str(alloc, name)?;
            put_file(&mut self.files, held, kept);
            self.holds.own = Some(own);
        }
        self.calls.push_reserved(call);
        Ok(claim)
    }

    /// Does a removal. Nothing is counted.
    fn take_away(&mut self, name: &str) -> Result<(), OutsideFault>
        ensures removed { IsRemoved result name.now
            (Some self.old.contents) (Some self.new.contents) }
        ensures asked { Some self.new.asked
            ≡ after_call result (Remove name.now) (Some self.old.asked) }
        ensures same { self.new ≡ record self.old {
          contents = self.new.contents;
          asked = self.new.asked;
          claims = self.new.claims;
        } }
        ensures gone { OnOk result (self.new.claims ≡ record self.old.claims { own = None }) }
        ensures held { OnErr result (self.new.claims ≡ self.old.claims) }
        ensures own { OnOk result (is_own self.old.claims name.now ≡ true) }
        ensures cause { IsErrOf result OutsideFault.Failed
            → is_to_fail self.old.fail (length self.old.asked) ≡ false
            → is_own self.old.claims name.now ≡ false }
        ensures not_listed { OnOk result (is_to_fail self.old.fail (length self.old.asked)
            ≡ false) }
    {
        self.calls.reserve(1)?;
        let call = Call::Remove(String::from_str(*self.files.allocator(), name)?);
        let fails = is_to_fail(&self.to_fail, &self.calls);
        self.calls.push_reserved(call);
        if fails || !self.holds.is_own(name) {
            return Err(OutsideFault::Failed);
        }
        drop_file(&mut self.files, name);
        self.holds.own = None;
        Ok(())
    }
}

impl Files for MemFiles {
    ghost contents = { λ f. Some f.contents };

    ghost asked = { λ f. Some f.asked };

    ghost faults = { λ f. f.faults };

    ghost wants = { λ f. f.wants };

    ghost spoilt = { λ f. is_spoilt f.spoilt };

    ghost held = { λ f. Some (is_held f.claims) };

    fn load(&mut self, name: &str, most: u32, into: &mut Vec<u8>) -> Result<(), OutsideFault>
        ensures loaded { OnOk result (get self.old.contents name.now ≡ Some into.new.items) }
        ensures short { OnOk result (length into.new.items ≤ most) }
        ensures untouched { OnErr result (into.new.items ≡ into.old.items) }
        ensures contents { self.new.contents ≡ self.old.contents }
        ensures spoilt { self.new.spoilt ≡ self.old.spoilt }
        ensures asked { Some self.new.asked
            ≡ after_call result (Load name.now) (Some self.old.asked) }

        ensures count { self.old.faults ≤ self.new.faults }
        ensures failed { IsErrOf result OutsideFault.Failed → Rose self.old.faults self.new.faults }
        ensures steady { OnOk result (self.new.faults ≡ self.old.faults) }
        ensures steady_memory { IsErrOf result OutsideFault.Memory
            → self.new.faults ≡ self.old.faults }
        ensures wants { self.new.wants ≡ wants_after result self.old.wants }

        ensures fail { self.new.fail ≡ self.old.fail }
        ensures claims { self.new.claims ≡ self.old.claims }
        ensures cause { IsErrOf result OutsideFault.Failed
            → is_to_fail self.old.fail (length self.old.asked) ≡ false
            → IsUnloadable self.old.contents name.now most }
        ensures not_listed { OnOk result (is_to_fail self.old.fail (length self.old.asked)
            ≡ false) }
        ensures counted { IsErrOf result OutsideFault.Failed
            → self.new.faults ≡ min (self.old.faults + 1) last_count }
        ensures quiet { self.old.fail ≡ []
            → self.old.faults < self.new.faults → IsUnloadable self.old.contents name.now most }
    {
        let done = self.take(name, most, into);
        self.misses.count(done)
    }

    fn save(&mut self, name: &str, bytes: &[u8], disk: Disk) -> Result<(), OutsideFault>
        ensures saved { IsSaved result name.now bytes.now
            (Some self.old.contents) (Some self.new.contents) }
        ensures spoilt { (file : List ℕ) → is_spoilt self.new.spoilt file
            ≡ spoilt_after result name.now file (is_spoilt self.old.spoilt file) }
        ensures asked { Some self.new.asked
            ≡ after_call result (Save name.now bytes.now) (Some self.old.asked) }

        ensures count { self.old.faults ≤ self.new.faults }
        ensures failed { IsErrOf result OutsideFault.Failed → Rose self.old.faults self.new.faults }
        ensures steady { OnOk result (self.new.faults ≡ self.old.faults) }
        ensures steady_memory { IsErrOf result OutsideFault.Memory
            → self.new.faults ≡ self.old.faults }
        ensures wants { self.new.wants ≡ wants_after result self.old.wants }

        ensures fail { self.new.fail ≡ self.old.fail }
        ensures claims { self.new.claims ≡ self.old.claims }
        ensures untouched { OnErr result (self.new.contents ≡ self.old.contents) }
        ensures listed { IsErrOf result OutsideFault.Failed
            → IsTrue (is_to_fail self.old.fail (length self.old.asked)) }
        ensures not_listed { OnOk result (is_to_fail self.old.fail (length self.old.asked)
            ≡ false) }
        ensures counted { IsErrOf result OutsideFault.Failed
            → self.new.faults ≡ min (self.old.faults + 1) last_count }
        ensures quiet { self.old.fail ≡ [] → self.new.faults ≡ self.old.faults }
    {
        let _ = disk;
        let done = self.keep_saved(name, bytes);
        self.misses.count(done)
    }

    fn begin(&mut self, name: &str, bytes: &[u8]) -> Result<(), OutsideFault>
        ensures saved { IsSaved result name.now bytes.now
            (Some self.old.contents) (Some self.new.contents) }
        ensures spoilt { (file : List ℕ) → is_spoilt self.new.spoilt file
            ≡ spoilt_after result name.now file (is_spoilt self.old.spoilt file) }
        ensures asked { Some self.new.asked
            ≡ after_call result (Begin name.now bytes.now) (Some self.old.asked) }

        ensures count { self.old.faults ≤ self.new.faults }
        ensures failed { IsErrOf result OutsideFault.Failed → Rose self.old.faults self.new.faults }
        ensures steady { OnOk result (self.new.faults ≡ self.old.faults) }
        ensures steady_memory { IsErrOf result OutsideFault.Memory
            → self.new.faults ≡ self.old.faults }
        ensures wants { self.new.wants ≡ wants_after result self.old.wants }

        ensures fail { self.new.fail ≡ self.old.fail }
        ensures claims { self.new.claims ≡ self.old.claims }
        ensures untouched { OnErr result (self.new.contents ≡ self.old.contents) }
        ensures listed { IsErrOf result OutsideFault.Failed
            → IsTrue (is_to_fail self.old.fail (length self.old.asked)) }
        ensures not_listed { OnOk result (is_to_fail self.old.fail (length self.old.asked)
            ≡ false) }
        ensures counted { IsErrOf result OutsideFault.Failed
            → self.new.faults ≡ min (self.old.faults + 1) last_count }
        ensures quiet { self.old.fail ≡ [] → self.new.faults ≡ self.old.faults }
    {
        let done = self.keep_begun(name, bytes);
        self.misses.count(done)
    }

    fn append(&mut self, name: &str, bytes: &[u8]) -> Result<(), OutsideFault>
        ensures appended { IsAppended result name.now bytes.now
            (Some self.old.contents) (Some self.new.contents) }
        ensures spoilt { (file : List ℕ) → is_spoilt self.new.spoilt file
            ≡ spoilt_after result name.now file (is_spoilt self.old.spoilt file) }
        ensures whole { OnOk result (is_spoilt self.old.spoilt name.now ≡ false) }
        ensures last { is_spoilt self.old.spoilt name.now ≡ true
            → self.new.contents ≡ self.old.contents }
        ensures room { OnOk result (HasRoom name.now (Some self.new.contents)) }
        ensures asked { Some self.new.asked
            ≡ after_call result (Append name.now bytes.now) (Some self.old.asked) }

        ensures count { self.old.faults ≤ self.new.faults }
        ensures failed { IsErrOf result OutsideFault.Failed → Rose self.old.faults self.new.faults }
        ensures steady { OnOk result (self.new.faults ≡ self.old.faults) }
        ensures steady_memory { IsErrOf result OutsideFault.Memory
            → self.new.faults ≡ self.old.faults }
        ensures wants { self.new.wants ≡ wants_after result self.old.wants }

        ensures fail { self.new.fail ≡ self.old.fail }
        ensures claims { self.new.claims ≡ self.old.claims }
        ensures untouched { OnErr result (self.new.contents ≡ self.old.contents) }
        ensures cause { IsErrOf result OutsideFault.Failed
            → is_to_fail self.old.fail (length self.old.asked) ≡ false
            → (is_spoilt self.old.spoilt name.now ≡ true)
            ⊎ IsFull self.old.contents name.now (length bytes.now) }
        ensures not_listed { OnOk result (is_to_fail self.old.fail (length self.old.asked)
            ≡ false) }
        ensures counted { IsErrOf result OutsideFault.Failed
            → self.new.faults ≡ min (self.old.faults + 1) last_count }
    {
        let done = self.join(name, bytes);
        self.misses.count(done)
    }

    fn claim(&mut self, name: &str, bytes: &[u8]) -> Result<Claim, OutsideFault>
        ensures claimed { IsClaimed result name.now bytes.now
            (Some self.old.contents) (Some self.new.contents) }
        ensures spoilt { (file : List ℕ) → is_spoilt self.new.spoilt file
            ≡ spoilt_after result name.now file (is_spoilt self.old.spoilt file) }
        ensures asked { Some self.new.asked
            ≡ after_call result (Ask.Claim name.now bytes.now (result_ok result))
            (Some self.old.asked) }

        ensures count { self.old.faults ≤ self.new.faults }
        ensures failed { IsErrOf result OutsideFault.Failed → Rose self.old.faults self.new.faults }
        ensures steady { OnOk result (self.new.faults ≡ self.old.faults) }
        ensures steady_memory { IsErrOf result OutsideFault.Memory
            → self.new.faults ≡ self.old.faults }
        ensures wants { self.new.wants ≡ wants_after result self.old.wants }

        ensures fail { self.new.fail ≡ self.old.fail }
        ensures claims { self.new.claims ≡ claims_after result name.now self.old.claims }
        ensures found { IfOk result (λ claim. claim ≡ found self.old name.now) }
        ensures untouched { OnErr result (self.new.contents ≡ self.old.contents) }
        ensures listed { IsErrOf result OutsideFault.Failed
            → IsTrue (is_to_fail self.old.fail (length self.old.asked)) }
        ensures not_listed { OnOk result (is_to_fail self.old.fail (length self.old.asked)
            ≡ false) }
        ensures counted { IsErrOf result OutsideFault.Failed
            → self.new.faults ≡ min (self.old.faults + 1) last_count }
        ensures quiet { self.old.fail ≡ [] → self.new.faults ≡ self.old.faults }
    {
        let done = self.make(name, bytes);
        self.misses.count(done)
    }

    fn remove(&mut self, name: &str) -> Result<(), OutsideFault>
        ensures removed { IsRemoved result name.now
            (Some self.old.contents) (Some self.new.contents) }
        ensures spoilt { self.new.spoilt ≡ self.old.spoilt }
        ensures asked { Some self.new.asked
            ≡ after_call result (Remove name.now) (Some self.old.asked) }

        ensures count { self.old.faults ≤ self.new.faults }
        ensures failed { IsErrOf result OutsideFault.Failed → Rose self.old.faults self.new.faults }
        ensures steady { OnOk result (self.new.faults ≡ self.old.faults) }
        ensures steady_memory { IsErrOf result OutsideFault.Memory
            → self.new.faults ≡ self.old.faults }
        ensures wants { self.new.wants ≡ wants_after result self.old.wants }

        ensures fail { self.new.fail ≡ self.old.fail }
        ensures gone { OnOk result (self.new.claims ≡ record self.old.claims { own = None }) }
        ensures held { OnErr result (self.new.claims ≡ self.old.claims) }
        ensures own { OnOk result (is_own self.old.claims name.now ≡ true) }
        ensures cause { IsErrOf result OutsideFault.Failed
            → is_to_fail self.old.fail (length self.old.asked) ≡ false
            → is_own self.old.claims name.now ≡ false }
        ensures not_listed { OnOk result (is_to_fail self.old.fail (length self.old.asked)
            ≡ false) }
        ensures counted { IsErrOf result OutsideFault.Failed
            → self.new.faults ≡ min (self.old.faults + 1) last_count }
    {
        let done = self.take_away(name);
        self.misses.count(done)
    }
}
