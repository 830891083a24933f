//! Hands that share a session: whose edits an undo takes, and which keys are the first hand's.

ghost use Rattle.std.specs.Prelude.{◌≡◌, ◌<◌};

use orca_base::{Command, Dims, Glyph, Look, Mark, Marks, Message, Place, Reply, Rule, Steps};
use orca_grid::Grid;
use orca_jam::{Crew, Denial, Jam, JamFault, JamReply, NOBODY, Owner};
use orca_notes::Messages;
use orca_session::Session;
use orca_term::{Deed, Key, ScreenSize, Side};
use std::alloc::Global;
use std::marker::Brand;
use std::process::Abort;
use std::sync::ledger::{Blank, Ledger};
use std::test::Fail;

/// The screen that hands are told of.
const SCREEN: ScreenSize = ScreenSize {
    rows: 2,
    columns: 8,
};

/// A key of a hand, and what becomes of it.
type Stroke = (u8, Key, Result<JamReply, JamFault>);

/// A key that only moves the cursor to the right.
const RIGHT: Key = Key::Arrow {
    deed: Deed::Move,
    side: Side::Right,
    by: 1,
};

/// Hands press keys, with a counter of steps of its own.
fn strike<L: Ledger>(
    rt: &impl Abort,
    jam: &mut Jam<Session>,
    messages: &mut Messages,
    strokes: &[Stroke],
    blank: Blank,
)
    requires name { blank.name ≡ L.name }
    requires parts { blank.parts ≡ L.parts }
    requires some { 0 < blank.parts }
{
    let mut steps = Steps::<L>::start(blank);
    for (hand, key, want) in strokes {
        messages.clear();
        assert!(rt; *hand < jam.hands(), "hand {hand}");
        let answer = jam.key(*hand, *key, messages, &mut steps);
        assert_eq!(rt; answer, *want, "hand {hand} {key:?}");
    }
}

/// Two hands at a grid, with a history of ten entries.
fn two_hands_at(alloc: Global, grid: &Grid) -> Result<Jam<Session>, Fail> {
    let session = Session::start(alloc, grid, 1, 10)?;
    Ok(Jam::start(alloc, session, 2, SCREEN)?)
}

/// Two hands at a row of four dots.
fn two_hands(alloc: Global) -> Result<Jam<Session>, Fail> {
    two_hands_at(alloc, &Grid::blank(alloc, Dims { h: 1, w: 4 })?)
}

/// What becomes of a glyph that is written in this column.
fn written(x: u32, glyph: Glyph) -> Result<JamReply, JamFault> {
    Ok(JamReply::Acted {
        command: Command::Write { y: 0, x, glyph },
        reply: Reply::Edited,
    })
}

/// What becomes of an undo that goes back to this moment.
fn undone(moment: u32) -> Result<JamReply, JamFault> {
    Ok(JamReply::Acted {
        command: Command::Undo,
        reply: Reply::Jumped { moment },
    })
}

/// What becomes of a key of the first hand that another presses.
fn denied() -> Result<JamReply, JamFault> {
    Err(JamFault::LeaderOnly)
}

/// The first key of a hand to which nothing came for a while.
fn late(crew: &mut Crew, hand: u8) -> Option<Key> {
    if hand < crew.hands() {
        let keys = crew.due(hand);
        return keys.as_slice().first().copied();
    }
    None
}

/// The glyph of a column of the row.
fn glyph_in(jam: &Jam<Session>, x: u16) -> u8 {
    let machine = jam.machine();
    if x < machine.dims().w {
        return machine.glyph_at(Place { y: 0, x }).byte();
    }
    0
}

/// The marks of a column of the first row.
fn marks_in(jam: &Jam<Session>, x: u16) -> Marks {
    let machine = jam.machine();
    if x < machine.dims().w {
        return machine.marks_at(Place { y: 0, x });
    }
    Marks::none()
}

/// The column of a hand's cursor.
fn cursor_of(jam: &Jam<Session>, hand: u8) -> Option<u16> {
    if hand < jam.hands() {
        return Some(jam.editor(hand).x);
    }
    None
}

/// Hands press keys at this session.
fn press(
    rt: &impl Abort,
    alloc: Global,
    jam: &mut Jam<Session>,
    strokes: &[Stroke],
) -> Result<(), Fail> {
    let mut messages = Messages::start(alloc)?;
    strike::<Brand>(rt, jam, &mut messages, strokes, Blank::new(1));
    Ok(())
}

/// Both hands write a glyph, and take back their own alone.
fn check_undo(rt: &impl Abort, alloc: Global, jam: &mut Jam<Session>) -> Result<(), Fail> {
    let (seven, eight) = (Glyph::from_value(7), Glyph::from_value(8));
    let none = JamFault::Refused {
        command: Command::Undo,
        rule: Rule::NothingToUndo,
    };
    let strokes = [
        (0, Key::Glyph(seven), written(0, seven)),
        (1, RIGHT, Ok(JamReply::Moved)),
        (1, Key::Glyph(eight), written(1, eight)),
        (0, Key::Redo, Ok(JamReply::Moved)),
        (0, Key::Undo, Err(JamFault::NotYours { hand: 1 })),
        (1, Key::Undo, undone(1)),
        (0, Key::Undo, undone(0)),
        (1, Key::Undo, Err(none)),
    ];
    press(rt, alloc, jam, &strokes)?;
    assert!(rt; glyph_in(jam, 0) == b'.' && glyph_in(jam, 1) == b'.');
    let (hand, edit) = (NOBODY, false);
    assert!(rt; jam.owner(0) == Some(Owner { hand, edit }) && jam.owner(1) == None);
    assert!(rt; cursor_of(jam, 0) == Some(0) && cursor_of(jam, 1) == Some(1));
    Ok(())
}

#[test]
fn an_undo_takes_no_edit_of_another_hand(rt: HostRuntime) -> Result<(), Fail> {
    check_undo(&rt, rt.alloc(), &mut two_hands(rt.alloc())?)
}

/// The second hand presses keys of the first one, which then writes a glyph and quits.
fn check_keys(rt: &impl Abort, alloc: Global, jam: &mut Jam<Session>) -> Result<(), Fail> {
    let seven = Glyph::from_value(7);
    let grow = Key::Arrow {
        deed: Deed::Grow,
        side: Side::Right,
        by: 1,
    };
    let strokes = [
        (1, Key::Pause, denied()),
        (1, Key::Back, denied()),
        (1, Key::Reset, denied()),
        (1, Key::Save, denied()),
        (1, Key::Quit, denied()),
        (1, Key::Faster(1), denied()),
        (1, Key::Redraw, denied()),
        (1, grow, denied()),
        (0, Key::Glyph(seven), written(0, seven)),
        (0, Key::Quit, Ok(JamReply::Quit)),
    ];
    press(rt, alloc, jam, &strokes)?;
    assert!(rt; glyph_in(jam, 0) == b'7');
    Ok(())
}

#[test]
fn some_keys_are_the_first_hands(rt: HostRuntime) -> Result<(), Fail> {
    check_keys(&rt, rt.alloc(), &mut two_hands(rt.alloc())?)
}

/// A delay over a note: its bang starts the note in the first frame.
const DELAYED: &[u8] = b"D8\n.:03C";

/// A frame of the clock starts the note, and the close ends it, with a counter of steps of its own.
fn play<L: Ledger>(rt: &impl Abort, jam: &mut Jam<Session>, messages: &mut Messages, blank: Blank)
    requires name { blank.name ≡ L.name }
    requires parts { blank.parts ≡ L.parts }
    requires some { 0 < blank.parts }
{
    let mut steps = Steps::<L>::start(blank);
    let (channel, key, velocity) = (0, 36, 127);
    messages.clear();
    assert_eq!(rt;
        jam.clock(messages, &mut steps),
        Ok(Reply::Framed { tick: 0 })
    );
    let on = Message::On {
        channel,
        key,
        velocity,
    };
    assert!(rt; messages.as_slice() == [on].as_slice());
    jam.preview_marks(&mut steps);
    messages.clear();
    jam.close(messages);
    assert!(rt; messages.as_slice() == [Message::Off { channel, key }].as_slice());
}

/// A frame of the clock is nobody's, and leaves the marks of its ports.
fn check_clock(rt: &impl Abort, alloc: Global, jam: &mut Jam<Session>) -> Result<(), Fail> {
    let mut messages = Messages::start(alloc)?;
    play::<Brand>(rt, jam, &mut messages, Blank::new(1));
    let (hand, edit) = (NOBODY, false);
    assert!(rt; jam.owner(0) == Some(Owner { hand, edit }) && jam.owner(1) == None);
    assert!(rt; marks_in(jam, 1).has(Mark::Input) && marks_in(jam, 0).is_empty());
    Ok(())
}

#[test]
fn a_frame_of_the_clock_is_nobodys(rt: HostRuntime) -> Result<(), Fail> {
    let grid = Grid::read(rt.alloc(), DELAYED)?;
    check_clock(&rt, rt.alloc(), &mut two_hands_at(rt.alloc(), &grid)?)
}

#[test]
fn denials_are_lines(rt: HostRuntime) {
    let line = Denial::NotYours { hand: 1 }.line(0);
    assert!(rt; line.as_slice() == b"hand 0 refused NotYours 1\n".as_slice());
    let line = Denial::LeaderOnly.line(1);
    assert!(rt; line.as_slice() == b"hand 1 refused LeaderOnly\n".as_slice());
}

/// Bytes of two hands, in the order in which they come.
const MIXED: [(u8, u8); 6] = [
    (0, 0x1B),
    (0, b'['),
    (1, b'7'),
    (0, b'C'),
    (0, 0x1B),
    (1, 0x1B),
];

#[test]
fn sequences_of_two_hands_do_not_mix(rt: HostRuntime) -> Result<(), Fail> {
    let mut crew = Crew::start(rt.alloc(), false, false, 2, 4_000_000)?;
    let mut keys = [None; 6];
    for (i, (hand, byte)) in MIXED.iter().enumerate() {
        if *hand < crew.hands() && i < keys.len() {
            let ended = crew.feed(*hand, *byte);
            keys[i] = ended.as_slice().first().copied();
        }
    }
    let glyph = Some(Key::Glyph(Glyph::from_value(7)));
    assert!(rt; keys == [None, None, glyph, Some(RIGHT), None, None]);
    let both = (late(&mut crew, 0), late(&mut crew, 1));
    assert!(rt; both == (Some(Key::Escape), Some(Key::Escape)));
    Ok(())
}
