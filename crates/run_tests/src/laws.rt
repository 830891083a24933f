//! The laws of devices and of performances, which stand with the program.

use orca_clock::clock_law;
use orca_course::device_law;
use orca_live::{
    appending_law, cutting_law, hands_law, journal_law, painting_law, script_law, solo_law,
    telling_law,
};

#[test]
fn the_laws_can_be_called(rt: HostRuntime) {
    device_law();
    clock_law();
    appending_law();
    cutting_law();
    script_law();
    painting_law();
    journal_law();
    hands_law();
    solo_law();
    telling_law();
}
