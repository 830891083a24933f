ghost use Rattle.std.specs.Prelude.{◌≡◌};
ghost use Rattle.orca_course.specs.Doing.{goes_of};

use orca_course::{NoMemory, Stop};

/// The answer of a report that was printed, which does not end the run.
pub(crate) fn goes(printed: Result<(), NoMemory>) -> Result<Option<Stop>, NoMemory>
    ensures { result ≡ goes_of printed }
{
    printed?;
    Ok(None)
}
