//! Calls that no run makes: a line that is printed, a script of format 1, the greatest numbers, and the small terminal.

use orca_base::{Command, Dims, Port};
use orca_cues::{Cue, Order, Script, ScriptFault, Source, check_script};
use orca_grid::Grid;
use orca_script::print;
use orca_send::{Label, push_decimal, write_line};
use orca_term::{Came, Cursors, Editor, Overlay, Screen, StatusLine, Traffic, View};
use std::test::Fail;

#[test]
fn a_printed_line_is_a_script_of_format_1(rt: HostRuntime) -> Result<(), Fail> {
    let command = Command::Rewind { moment: 10 };
    let mut text = Vec::from_slice(rt.alloc(), b"# a song\n\n")?;
    print(&command, &mut text)?;
    assert!(rt; text.as_slice() == b"# a song\n\nrewind 10\n".as_slice());
    let Ok(()) = check_script(b"# a song\n\nrewind 10\n") else {
        panic!(rt; "the script is refused");
    };
    let mut script = Script::of(b"# a song\n\nrewind 10\n");
    let (line, times, order) = (3, 1, Order::Do(command));
    assert!(rt; script.next() == Some(Cue { line, times, order }) && script.next() == None);
    let (line, column) = (1, 1);
    assert!(rt; check_script(b"!orca 2 seed 1") == Err(ScriptFault { line, column }));
    Ok(())
}

#[test]
fn the_greatest_numbers_are_printed(rt: HostRuntime) {
    let mut text = Vec::new(rt.alloc());
    let line = write_line(
        &mut text,
        Label::Tick(u32::MAX),
        Port::Midi,
        b"\x90\x30\x3f",
    );
    assert!(rt; line == Ok(()) && text.as_slice() == b"4294967295 midi 90 30 3F\n".as_slice());
    text.clear();
    let number = push_decimal(&mut text, u64::MAX);
    assert!(rt; number == Ok(()) && text.as_slice() == b"18446744073709551615".as_slice());
}

/// What is told at the start, besides the editor.
const FIRST_LINE: StatusLine = StatusLine {
    tick: 0,
    moments: 0,
    sounding: 0,
    tempo: 120,
    no_midi: false,
    no_udp: false,
    no_osc: false,
    no_journal: false,
    away: 0,
    unsaved: false,
    warns: true,
    came: Came::Well,
};

/// What is laid over the grid where no other hand shows.
fn over(editor: Editor) -> Overlay {
    let others = Cursors::none();
    Overlay { editor, others }
}

#[test]
fn a_painting_is_shown(rt: HostRuntime) -> Result<(), Fail> {
    let grid = Grid::blank(rt.alloc(), Dims { h: 1, w: 2 })?;
    let mut view = View::start(rt.alloc(), 2, 8)?;
    let mut screen = Screen::start(rt.alloc(), 2, 8)?;
    let sent = Traffic::start(rt.alloc())?;
    screen.show(view.paint(&grid, &over(Editor::start()), &FIRST_LINE, &sent));
    assert!(rt; screen.cell(0, 0) == (b'.', 7) && screen.cell(0, 1) == (b'.', 2));
    assert!(rt; screen.cell(0, 2) == (b' ', 0) && screen.cell(1, 7) == (b',', 0));
    Ok(())
}

/// The status row is `0 0 0 0,0 1x1 play 120 . ok D delay`.
#[test]
fn an_operator_is_coloured_and_named(rt: HostRuntime) -> Result<(), Fail> {
    let grid = Grid::read(rt.alloc(), b"DD")?;
    let mut view = View::start(rt.alloc(), 2, 40)?;
    let mut screen = Screen::start(rt.alloc(), 2, 40)?;
    let editor = Editor {
        guide: true,
        ..Editor::start()
    };
    let sent = Traffic::start(rt.alloc())?;
    screen.show(view.paint(&grid, &over(editor), &FIRST_LINE, &sent));
    assert!(rt; screen.cell(0, 0) == (b'D', 7) && screen.cell(0, 1) == (b'D', 94));
    assert!(rt; screen.cell(1, 28) == (b'D', 0) && screen.cell(1, 30) == (b'd', 0));
    assert!(rt; screen.cell(1, 34) == (b'y', 0) && screen.cell(1, 35) == (b' ', 0));
    Ok(())
}
