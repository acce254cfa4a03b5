ghost use Rattle.std.specs.Prelude.{◌≡◌};
ghost use Rattle.ch_rank.specs.Search.{below};

/// What a trial came to: its cost, or that its point was refused, which is above every cost.
#[derive(Clone, Copy, Debug, PartialEq, Eq)]
pub enum Outcome {
    Cost(u64),
    Refused,
}

impl Outcome {
    /// Whether it is strictly below another one.
    pub fn is_below(self, other: Outcome) -> bool
        ensures { result ≡ below self other }
    {
        match self {
            Outcome::Refused => false,
            Outcome::Cost(cost) => match other {
                Outcome::Refused => true,
                Outcome::Cost(other) => cost < other,
            },
        }
    }
}

/// A trial with its outcome.
#[derive(Clone, Copy, Debug, PartialEq, Eq)]
pub struct Costed {
    pub trial: u32,
    pub outcome: Outcome,
}
