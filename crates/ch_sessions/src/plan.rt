//! What a session of these trials is about, and the values that stand for what is built.

ghost use Rattle.std.specs.Prelude.{◌≤◌};

use anyhow::Result;
use ch_affine::{List, Text};
use ch_grid::{Grid, Param};
use ch_nest::{Nest, Shape};
use ch_script::{Recipe, Refusal};
use ch_session::{Built, Made, Session};
use std::alloc::{AllocError, Global};
use std::snapshot::Snapshot;
use std::sync::Arc;

/// A point of a grid, for a recipe.
#[derive(Drop)]
pub(crate) struct At {
    recipe: Snapshot<Recipe>,
    grid: Snapshot<Grid>,
    point: List<u32>,
}

/// Stands for the variant of a nest: it says what that is made from, and has no more of it.
#[derive(Drop)]
pub(crate) struct Plan {
    subject: u32,
    nest: Snapshot<Nest>,
    at: Option<At>,
}

impl Made for Plan {
    ghost use Rattle.ch_sessions.specs.Plans.{made_from};

    ghost made = { λ p. made_from p };
}

/// The number of the program that the sessions are about.
const SUBJECT: u32 = 0;

/// What a session is about, and how often it measures a point.
#[derive(Drop)]
pub(crate) struct Course {
    nest: Nest,
    recipe: Recipe,
    grid: Grid,
    repeat: u32,
    ghost within: { (1 ≤ repeat) × (repeat ≤ 9) },
}

impl Course {
    ghost use Rattle.std.specs.Prelude.{◌≡◌, [], IfOk};
    ghost use Rattle.std.specs.Arc.{arc_value};
    ghost use Rattle.ch_sessions.specs.Plans.{IsPlanFor, made_from, making_at, theme_of};

    /// The search over this grid for an empty program and a recipe without commands, or none
    /// where the parameters make no grid or `repeat` isn't 1 to 9.
    pub(crate) fn of(
        alloc: Global,
        params: List<Param>,
        repeat: u32,
    ) -> Result<Option<Course>, AllocError> {
        if params.len() > 6 || repeat < 1 || repeat > 9 {
            return Ok(None);
        }
        let Ok(grid) = Grid::of(params) else {
            return Ok(None);
        };
        let Some(nest) = Nest::new(List::new(alloc), List::new(alloc)) else {
            return Ok(None);
        };
        let Some(recipe) = empty_recipe(alloc) else {
            return Ok(None);
        };
        Ok(Some(Course {
            nest,
            recipe,
            grid,
            repeat,
        }))
    }

    /// A session without events.
    pub(crate) fn start(&self, alloc: Global) -> Result<Session<Plan>, AllocError>
        ensures { IfOk result (λ s. s
            ≡ record { subject = 0; theme = theme_of self.now; events = [] }) }
    {
        let original = Plan {
            subject: SUBJECT,
            nest: Snapshot::of(&self.nest),
            at: None,
        };
        let original = Arc::new(alloc, original)?;
        Session::start(
            alloc,
            SUBJECT,
            &self.nest,
            &self.recipe,
            &self.grid,
            self.repeat,
            original,
        )
    }

    /// What is built at a point.
    fn plan_at(&self, alloc: Global, point: &[u32]) -> Result<Arc<Plan>, AllocError>
        ensures { IfOk result (λ v. made_from (arc_value v)
            ≡ making_at (theme_of self.now) point.now) }
    {
        let at = At {
            recipe: Snapshot::of(&self.recipe),
            grid: Snapshot::of(&self.grid),
            point: List::from_slice(alloc, point)?,
        };
        let plan = Plan {
            subject: SUBJECT,
            nest: Snapshot::of(&self.nest),
            at: Some(at),
        };
        Ok(Arc::new(alloc, plan)?)
    }

    /// A good build at a point, or one that is refused.
    pub(crate) fn build(
        &self,
        alloc: Global,
        point: &[u32],
        is_good: bool,
    ) -> Result<Built<Plan>, AllocError>
        ensures { IfOk result (λ o. IsPlanFor (theme_of self.now) point.now o) }
    {
        if is_good {
            Ok(Built::Good(self.plan_at(alloc, point)?))
        } else {
            Ok(Built::Refused(Refusal::Shape {
                step: 1,
                cause: Shape {
                    code: 7,
                    number: 257,
                },
            }))
        }
    }
}

fn empty_recipe(alloc: Global) -> Option<Recipe> {
    Recipe::new(
        Text::new(alloc),
        List::new(alloc),
        List::new(alloc),
        List::new(alloc),
    )
}
