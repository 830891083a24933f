ghost use Rattle.std.specs.Prelude.{◌≡◌};
ghost use Rattle.orca_rig.specs.Schedule.{is_in_order, is_arrival, are_arrivals, is_passed_over, answer_moment};

use orca_base::Wire;
use orca_base::limits::ARRIVAL_BYTES;

/// What an inbox in memory is to answer. Moments are in microseconds.
#[derive(Clone, Copy, Debug, PartialEq, Eq)]
pub enum MemAnswer {
    /// Bytes of a hand, at this moment.
    Bytes { hand: u8, bytes: Wire, at: u64 },
    /// The moment that was waited for has come; this is the moment then.
    Due { at: u64 },
}

impl MemAnswer {
    /// Its moment.
    pub(crate) fn at(&self) -> u64
        ensures { result ≡ answer_moment self.now }
    {
        match self {
            MemAnswer::Bytes { at, .. } => *at,
            MemAnswer::Due { at } => *at,
        }
    }

    /// Whether a poll passes it over.
    pub(crate) fn is_passed_over(&self, until: Option<u64>) -> bool
        ensures { result ≡ is_passed_over until self.now }
    {
        match self {
            MemAnswer::Bytes { .. } => false,
            MemAnswer::Due { at } => match until {
                Some(moment) => *at < moment,
                None => true,
            },
        }
    }
}

/// Whether no moment is below an earlier one, the start being the first.
pub fn is_in_order(start: u64, answers: &[MemAnswer]) -> bool
    ensures { result ≡ is_in_order start answers.now }
{
    let mut last = start;
    let mut rest = answers;
    while let [first, others @ ..] = rest {
        let at = first.at();
        if at < last {
            return false;
        }
        last = at;
        rest = others;
    }
    true
}

/// Whether each arrival has 1 to [`ARRIVAL_BYTES`] bytes.
pub fn are_arrivals(answers: &[MemAnswer]) -> bool
    ensures { result ≡ are_arrivals answers.now }
{
    answers.iter().all(|answer| is_arrival(answer))
}

/// Whether an arrival has 1 to [`ARRIVAL_BYTES`] bytes.
fn is_arrival(answer: &MemAnswer) -> bool
    ensures { result ≡ is_arrival answer.now }
{
    match answer {
        MemAnswer::Bytes { bytes, .. } => {
            let count = bytes.as_slice().len();
            1 <= count && count <= ARRIVAL_BYTES
        }
        MemAnswer::Due { .. } => true,
    }
}
