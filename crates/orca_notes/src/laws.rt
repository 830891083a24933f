ghost use Rattle.std.specs.Prelude.{ℕ, List, [], ◌∷◌, ◌++◌, All};
ghost use Rattle.orca_base.specs.EventRanges.{IsInRange, IsMessageInRange};
ghost use Rattle.orca_base.specs.declared.event.Event.{Event};
ghost use Rattle.orca_base.specs.declared.message.Message.{Message};
ghost use Rattle.orca_base.specs.declared.note.Note.{Note};
ghost use Rattle.orca_notes.specs.Device.{Voice, IsChord, Leads, Plays};
ghost use Rattle.orca_notes.specs.Sound.{ends, sound};

/// What holds of all messages that lead a device from some notes to others. No messages leave the
/// notes as they are, messages after messages go on where those lead, and the ends of notes leave
/// none. The messages of events in range are in range, and so are the ends of notes. It does
/// nothing.
pub fn message_laws()
    ensures none { (notes : List Note) → Plays notes [] notes }
    ensures joined { (before middle after : List Note) (xs ys : List Message)
        → Plays before xs middle → Plays middle ys after → Plays before (xs ++ ys) after }
    ensures ends { (notes : List Note) → IsChord notes → Plays notes (ends notes) [] }
    ensures in_range { (notes : List Note) (tick : ℕ) (events : List Event) → IsChord notes
        → All IsInRange events → All IsMessageInRange (sound notes tick events).messages }
    ensures ends_in_range { (notes : List Note) → IsChord notes
        → All IsMessageInRange (ends notes) }
{}

/// The same of the bytes that a device reads. A message of one byte, as those of a clock are, turns
/// no key. It does nothing.
pub fn device_laws()
    ensures none { (on : List Voice) → Leads on [] on }
    ensures joined { (on middle after : List Voice) (xs ys : List (List ℕ))
        → Leads on xs middle → Leads middle ys after → Leads on (xs ++ ys) after }
    ensures one_byte { (on : List Voice) (byte : ℕ) → Leads on ((byte ∷ []) ∷ []) on }
{}
