ghost use Rattle.std.specs.Prelude.{◌≡◌, ◌+◌, min, ◌≤◌, ◌↔◌, ◌<◌, ◌^◌, [], ◌∷◌, ◌++◌, length, slice_get, IsTrue, IsNone, Some, true, false, IsOk, IfOk, OnOk, OnErr, IsErr, IsErrOf};
ghost use Rattle.std.specs.Option.{option_map};
ghost use Rattle.orca_rig.specs.Outside.{Rose, after_call, last_count, wants_after};
ghost use Rattle.orca_rig.specs.InMemory.{sents, attaches, sends_to, attaches_to, is_port_to_fail};

use crate::{Misses, Outs, OutsideFault};
use orca_base::{Memory, Port};
use std::marker::Model;

/// Ports in memory: they keep what they are given, and fail where they are told to.
#[derive(Drop)]
pub struct MemOuts {
    pieces: Vec<(Port, Vec<u8>)>,
    names: Vec<(Port, String)>,
    to_fail: Vec<(Port, u64)>,
    misses: Misses,
}

impl Model for MemOuts {
    ghost use Rattle.orca_rig.specs.InMemory.{Ports, sents, attaches};

    ghost Value = { Ports };

    ghost view = { λ o. record {
      handed = sents o.pieces.items;
      attached = attaches o.names.items;
      fail = o.to_fail.items;
      faults = o.misses.faults;
      wants = o.misses.wants;
    } };
}

impl MemOuts {
    /// Ports that were given nothing and attached to nothing. `fail` lists the calls that are to
    /// fail, by their port and their number among the attaches and sends of that port, counted from
    /// 1.
    pub fn new(fail: Vec<(Port, u64)>) -> Result<MemOuts, Memory>
        ensures made { IsOk result }
        ensures handed { IfOk result (λ outs. outs.handed ≡ []) }
        ensures attached { IfOk result (λ outs. outs.attached ≡ []) }
        ensures fail { IfOk result (λ outs. outs.fail ≡ fail.items) }
        ensures faults { IfOk result (λ outs. outs.faults ≡ 0) }
        ensures wants { IfOk result (λ outs. outs.wants ≡ 0) }
    {
        Ok(MemOuts {
            pieces: Vec::new(*fail.allocator()),
            names: Vec::new(*fail.allocator()),
            to_fail: fail,
            misses: Misses::none(),
        })
    }

    /// A piece that was given to a port, counted from 0; none exactly from the number of pieces on.
    pub fn handed_at(&self, index: u64) -> Option<(Port, &[u8])>
        ensures piece { option_map (λ sent. record { port = sent.0; bytes = sent.1.now }) result
            ≡ slice_get self.now.handed index }
        ensures none { IsNone result ↔ (length self.now.handed ≤ index) }
    {
        let (port, bytes) = self.pieces.get(index as usize)?;
        Some((*port, bytes.as_slice()))
    }
}

/// How many pieces were given to a port.
fn sends_to(pieces: &[(Port, Vec<u8>)], port: Port) -> usize
    ensures count { result ≡ sends_to port (sents pieces.now) }
    ensures fits { result ≤ length pieces.now }
{
    pieces.iter().filter(|piece| piece.0 == port).count()
}

/// How often a port was attached.
fn attaches_to(names: &[(Port, String)], port: Port) -> usize
    ensures count { result ≡ attaches_to port (attaches names.now) }
    ensures fits { result ≤ length names.now }
{
    names.iter().filter(|name| name.0 == port).count()
}

/// The number of the next call of a port.
fn next_number(pieces: &[(Port, Vec<u8>)], names: &[(Port, String)], port: Port) -> u64
    requires pieces { length pieces.now < 2 ^ 63 }
    requires names { length names.now < 2 ^ 63 }
    ensures { result
        ≡ sends_to port (sents pieces.now) + attaches_to port (attaches names.now) + 1 }
{
    (sends_to(pieces, port) + attaches_to(names, port)) as u64 + 1
}

impl MemOuts {
    /// Whether the next call of a port is to fail.
    fn is_to_fail(&self, port: Port) -> bool
        ensures { result ≡ is_port_to_fail self.now port }
    {
        let number = next_number(&self.pieces, &self.names, port);
        self.to_fail
            .iter()
            .any(|call| call.0 == port && call.1 == number)
    }
}

/// Keeps the name that a port was attached to.
fn keep_name(names: &mut Vec<(Port, String)>, port: Port, name: &str) -> Result<(), Memory>
    ensures kept { OnOk result (attaches names.new.items ≡ attaches names.old.items
        ++ record { port = port; name = name.now } ∷ []) }
    ensures refused { OnErr result (names.new.items ≡ names.old.items) }
{
    let kept = String::from_str(*names.allocator(), name)?;
    names.push((port, kept))?;
    Ok(())
}

/// Keeps a piece that was given to a port.
fn keep_piece(pieces: &mut Vec<(Port, Vec<u8>)>, port: Port, bytes: &[u8]) -> Result<(), Memory>
    ensures kept { OnOk result (sents pieces.new.items ≡ sents pieces.old.items
        ++ record { port = port; bytes = bytes.now } ∷ []) }
    ensures refused { OnErr result (pieces.new.items ≡ pieces.old.items) }
{
    let kept = bytes.to_vec(*pieces.allocator())?;
    pieces.push((port, kept))?;
    Ok(())
}

/// What a call answers that was kept, unless memory was refused, and that may have to fail.
fn answer_of(kept: Result<(), Memory>, fails: bool) -> Result<(), OutsideFault>
    ensures refused { IsErrOf result OutsideFault.Memory ↔ IsErr kept }
    ensures failed { IsErrOf result OutsideFault.Failed → fails ≡ true }
    ensures done { OnOk result (fails ≡ false) }
{
    match kept {
        Err(_) => Err(OutsideFault::Memory),
        Ok(()) if fails => Err(OutsideFault::Failed),
        Ok(()) => Ok(()),
    }
}

impl Outs for MemOuts {
    ghost handed = { λ o. Some o.handed };

    ghost attached = { λ o. Some o.attached };

    ghost sent = { λ o. length o.handed };

    ghost faults = { λ o. o.faults };

    ghost wants = { λ o. o.wants };

    fn attach(&mut self, port: Port, name: &str) -> Result<(), OutsideFault>
        ensures attached { Some self.new.attached
            ≡ after_call result (record { port = port; name = name.now }) (Some self.old.attached) }
        ensures handed { self.new.handed ≡ self.old.handed }
        ensures count { self.old.faults ≤ self.new.faults }
        ensures failed { IsErrOf result OutsideFault.Failed → Rose self.old.faults self.new.faults }
        ensures steady { OnOk result (self.new.faults ≡ self.old.faults) }
        ensures steady_memory { IsErrOf result OutsideFault.Memory
            → self.new.faults ≡ self.old.faults }
        ensures wants { self.new.wants ≡ wants_after result self.old.wants }

        ensures fail { self.new.fail ≡ self.old.fail }
        ensures listed { IsErrOf result OutsideFault.Failed
            → IsTrue (is_port_to_fail self.old port) }
        ensures not_listed { OnOk result (is_port_to_fail self.old port ≡ false) }
        ensures counted { IsErrOf result OutsideFault.Failed
            → self.new.faults ≡ min (self.old.faults + 1) last_count }
        ensures quiet { self.old.fail ≡ [] → self.new.faults ≡ self.old.faults }
    {
        let fails = self.is_to_fail(port);
        let kept = keep_name(&mut self.names, port, name);
        self.misses.count(answer_of(kept, fails))
    }

    fn send(&mut self, port: Port, bytes: &[u8]) -> Result<(), OutsideFault>
        ensures handed { Some self.new.handed
            ≡ after_call result (record { port = port; bytes = bytes.now }) (Some self.old.handed) }
        ensures attached { self.new.attached ≡ self.old.attached }
        ensures count { self.old.faults ≤ self.new.faults }
        ensures failed { IsErrOf result OutsideFault.Failed → Rose self.old.faults self.new.faults }
        ensures steady { OnOk result (self.new.faults ≡ self.old.faults) }
        ensures steady_memory { IsErrOf result OutsideFault.Memory
            → self.new.faults ≡ self.old.faults }
        ensures wants { self.new.wants ≡ wants_after result self.old.wants }

        ensures fail { self.new.fail ≡ self.old.fail }
        ensures listed { IsErrOf result OutsideFault.Failed
            → IsTrue (is_port_to_fail self.old port) }
        ensures not_listed { OnOk result (is_port_to_fail self.old port ≡ false) }
        ensures counted { IsErrOf result OutsideFault.Failed
            → self.new.faults ≡ min (self.old.faults + 1) last_count }
        ensures quiet { self.old.fail ≡ [] → self.new.faults ≡ self.old.faults }
    {
        let fails = self.is_to_fail(port);
        let kept = keep_piece(&mut self.pieces, port, bytes);
        self.misses.count(answer_of(kept, fails))
    }

    fn sent(&self) -> u64
        ensures { result ≡ length self.now.handed }
    {
        self.pieces.len() as u64
    }

    ghost sent_is_length = { λ outs pieces told fits. Prim.cc };
}
