ghost use Rattle.std.specs.Prelude.{◌≡◌};
ghost use Rattle.orca_smf.specs.Songs.{IsTune};

use crate::Timed;
use std::marker::Model;

/// A song that was read. A contract sees its tempo, its messages with their ticks, and the tick of
/// its end.
#[derive(Debug, Drop)]
pub struct Song {
    tempo: u32,
    list: Vec<Timed>,
    end: u32,
}

impl Model for Song {
    ghost use Rattle.orca_smf.specs.Songs.{IsTune, Tune};

    ghost Value = { Tune };

    ghost view = { λ s. record { tempo = s.tempo; list = s.list.items; end = s.end } };

    ghost invariant = { λ s. IsTune
        (record { tempo = s.tempo; list = s.list.items; end = s.end }) };
}

impl Song {
    /// The song of a tempo, messages and an end.
    pub(crate) fn of(tempo: u32, list: Vec<Timed>, end: u32) -> Song
        requires { IsTune (record { tempo = tempo; list = list.items; end = end }) }
        ensures { result ≡ record { tempo = tempo; list = list.items; end = end } }
    {
        Song { tempo, list, end }
    }

    /// The microseconds of a beat.
    pub fn tempo(&self) -> u32
        ensures tempo { result ≡ self.now.tempo }
        ensures tune { IsTune self.now }
    {
        self.tempo
    }

    /// The tick of the end.
    pub fn end(&self) -> u32
        ensures { result ≡ self.now.end }
    {
        self.end
    }

    /// The messages with their ticks, in order.
    pub fn list(&self) -> &[Timed]
        ensures { result.now ≡ self.now.list }
    {
        self.list.as_slice()
    }
}
