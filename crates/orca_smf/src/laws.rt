ghost use Rattle.std.specs.Prelude.{◌≡◌};
ghost use Rattle.orca_smf.specs.Songs.{IsTune, Tune, file_of};

/// Two songs with the same file are the same song. It does nothing.
pub fn song_law()
    ensures { (a b : Tune) → IsTune a → IsTune b → file_of a ≡ file_of b → a ≡ b }
{}
