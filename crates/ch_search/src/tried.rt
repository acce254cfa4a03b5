//! The search of one program.
ghost use Rattle.std.specs.Prelude.{◌≡◌, ◌≤◌, ℕ, IfOk, IsTrue, Result, length};
ghost use Rattle.ch_judge.specs.Judged.{IsSubject, judged_at};
ghost use Rattle.ch_nest.specs.Sound.{is_sound};
ghost use Rattle.ch_report.specs.Sessions.{is_inside};
ghost use Rattle.ch_script.specs.declared.refusal.Refusal.{Refusal};
ghost use Rattle.ch_tune.specs.Tuned.{IsTuned, found_of};
ghost use Rattle.ch_variant.specs.Applied.{IsAnswer};
ghost use Rattle.ch_variant.specs.Variants.{origin_at};

use ch_grid::Grid;
use ch_judge::{Subject, judge};
use ch_report::{Found, SessionPart};
use ch_tune::{Judge, tune};
use ch_variant::ApplyError;
use std::alloc::{AllocError, Global};

/// A program and a recipe, judged at the points of a grid.
#[derive(Drop)]
struct Tried<'a> {
    subject: &'a Subject<'a>,
    grid: &'a Grid,
    ghost sound: { IsTrue (is_sound subject.now.nest.now) },
    ghost filled: { length subject.now.fills.now ≡ length subject.now.nest.now.arrays },
    ghost params: { length grid.now.params ≡ length subject.now.recipe.now.params },
}

/// What a trial came to, as no client's finding.
fn found_of(answer: Result<u64, ApplyError>) -> Result<Found, AllocError>
    ensures { (said : Result ℕ Refusal) → IsAnswer answer said
        → IfOk result (λ found. found ≡ found_of said) }
{
    match answer {
        Ok(cost) => Ok(Found::Cost {
            client: 0,
            call: 0,
            cost,
        }),
        Err(ApplyError::Refused(refusal)) => Ok(Found::Refused(refusal)),
        Err(ApplyError::Memory) => Err(AllocError),
    }
}

impl Judge for Tried<'_> {
    ghost use Rattle.ch_judge.specs.Judged.{judged_at};
    ghost use Rattle.ch_variant.specs.Variants.{origin_at};

    ghost params = { λ t. t.grid.now.params };

    ghost judged = { λ t point. judged_at t.subject.now.machine.now t.subject.now.nest.now
        (origin_at t.subject.now.recipe.now t.grid.now.params point) };

    fn grid(&self) -> &Grid {
        self.grid
    }

    fn judge(&self, alloc: Global, point: &[u32]) -> Result<Found, AllocError> {
        found_of(judge(alloc, self.subject, self.grid, point))
    }
}

/// What the search of a program over the points of a grid comes to, which one thread leads to its
/// end: the least pending trial is judged at the nearest point that meets the conditions between
/// the recipe's parameters, again and again, each trial `repeat` times unless it is refused.
pub fn searched<'a>(
    alloc: Global,
    subject: &'a Subject<'a>,
    grid: &'a Grid,
    repeat: u32,
) -> Result<SessionPart, AllocError>
    requires subject { IsSubject subject.now }
    requires params { length grid.now.params ≡ length subject.now.recipe.now.params }
    requires repeat { (1 ≤ repeat) × (repeat ≤ 9) }
    ensures tuned { IfOk result (λ part. IsTuned grid.now.params repeat
        (λ point. judged_at subject.now.machine.now subject.now.nest.now
        (origin_at subject.now.recipe.now grid.now.params point)) part) }
    ensures inside { IfOk result (λ part. IsTrue (is_inside grid.now.params part)) }
{
    let tried = Tried { subject, grid };
    tune(alloc, &tried, repeat)
}
