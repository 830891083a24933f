//! What is proved of performances by a clock, from their start to their end.

ghost use Rattle.orca_clock.specs.Laws.{FollowsBytes, HeedsClock, FollowerIsLed};

/// A follower does the commands of all bytes that it hears, however they were cut, and heeds those of the
/// clock alone. One that hears exactly what a leader gives begins anew once, and then plays exactly the
/// leader's frames. It does nothing.
pub fn clock_law()
    ensures bytes { FollowsBytes }
    ensures clock { HeedsClock }
    ensures leads { FollowerIsLed }
{}
