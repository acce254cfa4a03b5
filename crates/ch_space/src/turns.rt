ghost use Rattle.std.specs.Prelude.{◌≡◌, ◌+◌, ◌∷◌, min};
ghost use Rattle.ch_space.specs.Fitting.{capped, LevelsAt};
ghost use Rattle.ch_space.specs.Statements.{turns_below};
ghost use Rattle.ch_space.specs.declared.level.Around.TheVariants.{Inside};

use crate::level::{Around, Level};
use ch_nest::{as_number, extended, greatest_low, is_met, least_high, next_value, turns_of};

/// One past the most instances of a space stands for every number that is past them.
const TOO_MANY_INSTANCES: u64 = 2097153;

/// How often what stands in these loops and conditions is executed at a point of the loops around
/// them, counted up to one past the most instances of a space. It does not go through the turns of
/// the innermost loop.
#[cycle(turns)]
#[tactic(auto, using(crate::proofs::TurnSteps::first_at, crate::proofs::TurnSteps::first_below, crate::proofs::TurnSteps::met_at, crate::proofs::TurnSteps::met_below, crate::proofs::TurnSteps::unmet_below, crate::proofs::TurnSteps::no_parts))]
pub(crate) fn turns_up_to(around: &[Around], point: &[i64]) -> u64
    requires at { LevelsAt around.now point.now }
    ensures { result ≡ capped (turns_below around.now point.now) }
{
    match around {
        [] => 1,
        [part, inner @ ..] => match part {
            Around::Inside(level) => loop_turns(level, inner, point),
            Around::Where(row) => {
                if !is_met(row, point) {
                    return 0;
                }
                turns_up_to(inner, point)
            }
        },
    }
}

#[cycle(turns)]
fn loop_turns(level: &Level, inner: &[Around], point: &[i64]) -> u64
    requires at { LevelsAt (Inside level.now ∷ inner.now) point.now }
    ensures { result ≡ capped (turns_below (Inside level.now ∷ inner.now) point.now) }
{
    let mut value = greatest_low(level.lows.as_slice(), point);
    let high = least_high(level.highs.as_slice(), point);
    if inner.is_empty() {
        return turns_of(value, high, level.step).min(TOO_MANY_INSTANCES);
    }
    let mut sum = 0;
    'turns: while value <= high {
        let next = extended(point, as_number(value));
        let here = turns_up_to(inner, &next[..point.len() + 1]);
        sum = (sum + here).min(TOO_MANY_INSTANCES);
        value = next_value(value, level.step);
    }
    sum
}
