/// The round that is being costed: its points are asked for, and once all of them have an outcome
/// it is decided.
#[derive(Clone, Copy, Debug, PartialEq, Eq)]
pub enum Phase {
    /// The first simplex.
    Start,
    /// The reflections of all other points about the best one.
    Reflect,
    /// The expansion of the source of the best reflection, alone.
    Try,
    /// The expansions of all other points.
    Expand,
    /// The points half way to the best one.
    Shrink,
    /// The neighbours of the best point, where all places of the simplex are that point.
    Probe,
    /// No neighbour beats the best point, and the search has ended.
    Converged,
}
