//! The texts of answers and of histories.

use anyhow::Result;
use ch_rank::Outcome;
use ch_session::{ClaimError, Event, Fetched, Job, Made, NotClaimed, NotLeased, Session};
use std::alloc::{AllocError, Global};

/// A point, by the indices of its parameters.
fn point_text(alloc: Global, point: &[u32]) -> Result<String, AllocError> {
    let mut out = String::from_str(alloc, "(")?;
    for (k, index) in point.iter().enumerate() {
        if k > 0 {
            out.push_str(",")?;
        }
        write!(out, "{index}")?;
    }
    out.push_str(")")?;
    Ok(out)
}

pub(crate) fn job_text(alloc: Global, job: &Job) -> Result<String, AllocError> {
    let trial = job.trial;
    let point = point_text(alloc, job.point.as_slice())?;
    format!(in alloc; "trial {trial} at {point}")
}

/// Why there is no job, or the error that is none of the session's.
pub(crate) fn no_job_text(alloc: Global, error: ClaimError) -> Result<String> {
    match error {
        ClaimError::NoJob => Ok(String::from_str(alloc, "N3")?),
        ClaimError::Memory => Err(error.into()),
    }
}

pub(crate) fn fetched_text<V: Drop>(
    alloc: Global,
    fetched: Fetched<V>,
) -> Result<String, AllocError> {
    match fetched {
        Fetched::Trial {
            trial,
            variant: _,
            news,
        } => format!(in alloc; "trial {trial} news {news}"),
        Fetched::Current {
            version,
            variant: _,
            news,
        } => format!(in alloc; "version {version} news {news}"),
    }
}

pub(crate) fn built_text(
    alloc: Global,
    reply: Result<(), NotClaimed>,
) -> Result<String, AllocError> {
    match reply {
        Ok(()) => String::from_str(alloc, "recorded"),
        Err(NotClaimed { trial }) => format!(in alloc; "N2 {trial}"),
    }
}

pub(crate) fn report_text(
    alloc: Global,
    reply: Result<(), NotLeased>,
) -> Result<String, AllocError> {
    match reply {
        Ok(()) => String::from_str(alloc, "recorded"),
        Err(NotLeased { trial }) => format!(in alloc; "N1 {trial}"),
    }
}

pub(crate) fn leave_text(alloc: Global, has_left: bool) -> Result<String, AllocError> {
    String::from_str(
        alloc,
        if has_left {
            "a lease ended"
        } else {
            "nothing was held"
        },
    )
}

/// Whether two clients that measured by turns, each so often, raised the news each time.
pub(crate) fn turns_text(alloc: Global, times: u32, rise: u64) -> Result<String, AllocError> {
    String::from_str(
        alloc,
        if rise == 2 * u64::from(times) {
            "done"
        } else {
            "not done"
        },
    )
}

fn event_text(alloc: Global, event: &Event) -> Result<String, AllocError> {
    match event {
        Event::Fetch {
            client,
            trial: Some(trial),
            version: _,
        } => format!(in alloc; "fetch {client} trial {trial}"),
        Event::Fetch {
            client,
            trial: None,
            version,
        } => format!(in alloc; "fetch {client} version {version}"),
        Event::Report {
            client,
            trial,
            call,
            cost,
            left,
        } => {
            format!(in alloc; "report {client} trial {trial} call {call} cost {cost} left {left}")
        }
        Event::Claim { builder, trial } => format!(in alloc; "claim {builder} trial {trial}"),
        Event::Good { builder, trial } => format!(in alloc; "good {builder} trial {trial}"),
        Event::Refused {
            builder,
            trial,
            cause: _,
        } => format!(in alloc; "refused {builder} trial {trial}"),
        Event::Leave { client, trial } => format!(in alloc; "leave {client} trial {trial}"),
    }
}

/// The best trial with its cost, or that there is none.
fn best_text<V: Made + Drop>(alloc: Global, session: &Session<V>) -> Result<String, AllocError> {
    let search = session.search();
    let Some(trial) = search.best() else {
        return String::from_str(alloc, "best none");
    };
    match search.outcome_of(trial) {
        Some(Outcome::Cost(cost)) => format!(in alloc; "best trial {trial} cost {cost}"),
        _ => format!(in alloc; "best trial {trial}"),
    }
}

/// The whole history of a session, a line for each event, the points of its trials, its versions,
/// its best trial and its news.
pub(crate) fn put_history<V: Made + Drop>(
    alloc: Global,
    out: &mut String,
    session: &Session<V>,
) -> Result<(), AllocError> {
    for i in 0..u32::MAX {
        let Some(event) = session.event(i) else {
            break;
        };
        let line = event_text(alloc, event)?;
        writeln!(out, "event {line}")?;
    }
    out.push_str("points")?;
    let search = session.search();
    for trial in 0..search.trials() {
        let point = point_text(alloc, search.point_of(trial))?;
        write!(out, " {point}")?;
    }
    let versions = search.versions();
    let best = best_text(alloc, session)?;
    let news = session.news();
    writeln!(out, "\nversions {versions} {best} news {news}")
}
