//! What a value behind turns stands for.
ghost use Rattle.std.specs.Prelude.{◌≤◌, ◌++◌, ℕ, List};

/// A value that stands for a finite list of entries, oldest first: its history, in Herlihy and
/// Wing's sense. The entries stand in the order in which the turns that added them took effect.
///
/// All members are ghosts and cost nothing at run time.
pub trait Listed {
    type Entry;

    /// The history that the value stands for.
    ghost list: { Self → List Self.Entry };

    /// The number of the seat that added the entry.
    ghost by: { Self.Entry → ℕ };

    /// What is counted of a history and can be read without a turn, as an eventcount (Reed and
    /// Kanodia).
    ghost news: { List Self.Entry → ℕ };

    /// Whether two values agree in what no turn changes, as the subject that a history is about.
    ghost alike: { Self → Self → Type 0 };

    /// The count never falls as a history grows.
    ghost news_grow: { (xs ys : List Self.Entry) → news xs ≤ news (xs ++ ys) };
}
