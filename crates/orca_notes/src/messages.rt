ghost use Rattle.std.specs.Prelude.{◌≡◌, ◌<◌, ◌≤◌, [], ◌∷◌, ◌++◌, length, IfOk};

use orca_base::limits::MAX_MESSAGES;
use orca_base::{Memory, Message};
use std::alloc::Global;
use std::marker::Model;

/// The messages of one command, in the order in which they are handed out. Room for the most
/// messages of a frame is taken at the start, so that no later call takes memory. A contract sees
/// the list.
#[derive(Drop)]
pub struct Messages {
    list: Vec<Message>,
}

impl Model for Messages {
    ghost use Rattle.std.specs.Prelude.{List, ◌≤◌};
    ghost use Rattle.std.specs.Vec.{vec_len, vec_capacity};
    ghost use Rattle.orca_base.specs.declared.message.Message.{Message};
    ghost use Rattle.orca_base.specs.declared.limits.TheConstants.{MAX_MESSAGES};

    ghost Value = { List Message };

    ghost view = { λ messages. messages.list.items };

    ghost invariant = { λ m. (vec_len m.list ≤ MAX_MESSAGES)
        × (MAX_MESSAGES ≤ vec_capacity m.list) };
}

impl Messages {
    /// No messages, with the room for all of a frame. [`Memory`] if that room is refused.
    pub fn start(alloc: Global) -> Result<Messages, Memory>
        ensures { IfOk result (λ messages. messages ≡ []) }
    {
        let list = Vec::with_capacity(alloc, MAX_MESSAGES)?;
        Ok(Messages { list })
    }

    /// Forgets the messages, and keeps the room.
    pub fn clear(&mut self)
        ensures { self.new ≡ [] }
    {
        self.list.clear();
    }

    /// The messages, in order.
    pub fn as_slice(&self) -> &[Message]
        ensures messages { result.now ≡ self.now }
        ensures few { length result.now ≤ MAX_MESSAGES }
    {
        self.list.as_slice()
    }

    /// A message more.
    pub(crate) fn push(&mut self, message: Message)
        requires { length self.old < MAX_MESSAGES }
        ensures { self.new ≡ self.old ++ message ∷ [] }
    {
        self.list.push_reserved(message);
    }
}
