ghost use Rattle.std.specs.Prelude.{◌≡◌, ℕ, ◌+◌, ◌<◌, ◌≤◌, [], ◌∷◌, length, slice_index_or};
ghost use Rattle.std.specs.List.{All};
ghost use Rattle.ch_rank.specs.Search.{place_of_best, best, below, lowers, is_flat, costed};
ghost use Rattle.ch_rank.specs.Board.{known_by, source};

use crate::outcome::{Costed, Outcome};
use crate::row::Row;

/// The place of the least outcome, the lower place at a tie.
pub(crate) fn place_of_best(row: &[Costed]) -> usize
    requires some { 0 < length row.now }
    ensures value { result ≡ place_of_best row.now }
    ensures here { result < length row.now }
    ensures best { slice_index_or row.now result (best row.now) ≡ best row.now }
{
    let mut at = 0;
    for i in 1..row.len() {
        if row[i].outcome.is_below(row[at].outcome) {
            at = i;
        }
    }
    at
}

/// Whether some outcome of the row is strictly below this one's.
pub(crate) fn lowers(top: Costed, row: &[Costed]) -> bool
    ensures { result ≡ lowers top row.now }
{
    row.iter().any(|c| c.outcome.is_below(top.outcome))
}

/// The best of a row.
pub(crate) fn best(row: &[Costed]) -> Costed
    ensures { result ≡ best row.now }
{
    if row.len() == 0 {
        Costed {
            trial: 0,
            outcome: Outcome::Refused,
        }
    } else {
        row[place_of_best(row)]
    }
}

/// The place of the one at `at` among all but the best.
pub(crate) fn source(best: usize, at: usize) -> usize
    requires { at < 100 }
    ensures { result ≡ source best at }
{
    if at < best { at } else { at + 1 }
}

/// One more in front.
pub(crate) fn led_by(top: Costed, row: &[Costed]) -> Row
    requires { length row.now ≤ 13 }
    ensures { result ≡ top ∷ row.now }
{
    let mut next = Row::new();
    next.push(top);
    for c in row {
        next.push(*c);
    }
    next
}

/// Whether all places are the best point.
pub(crate) fn is_flat(row: &[Costed]) -> bool
    ensures { result ≡ is_flat row.now }
{
    let top = best(row).trial;
    row.iter().all(|c| c.trial == top)
}

/// These trials with their outcomes, or none where one is not known.
pub(crate) fn costed(outcomes: &[Option<Outcome>], trials: &[u32]) -> Option<Row>
    requires few { length trials.now ≤ 13 }
    requires here { All (λ t. t < length outcomes.now) trials.now }
    ensures { result ≡ costed (known_by outcomes.now) trials.now }
{
    let mut row = Row::new();
    for trial in trials {
        match outcomes[*trial as usize] {
            Some(outcome) => row.push(Costed {
                trial: *trial,
                outcome,
            }),
            None => return None,
        }
    }
    Some(row)
}
