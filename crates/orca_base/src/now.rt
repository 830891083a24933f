/// What an operator knows besides the grid.
#[derive(Clone, Copy, Debug, PartialEq, Eq)]
pub struct Now {
    /// The number of the frame, counted from 0.
    pub tick: u32,
    /// The seed of the random operator's words.
    pub seed: u32,
}
