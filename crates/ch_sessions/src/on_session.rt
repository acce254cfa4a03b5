//! Scripts on a session of one thread.

ghost use Rattle.ch_sessions.specs.Plans.{IsAbout};

use crate::answer;
use crate::plan::{Course, Plan};
use crate::script::{Alternation, Build, Call, Report, call_of, course_of};
use anyhow::Result;
use ch_affine::List;
use ch_session::{Fetched, Session};
use std::alloc::{AllocError, Global};

/// A session and what it is about.
#[derive(Drop)]
struct Solo {
    course: Course,
    session: Session<Plan>,
}

impl Solo {
    fn claim(&mut self, alloc: Global, builder: u32) -> Result<String>
        requires { IsAbout self.old.course self.old.session }
        ensures { IsAbout self.new.course self.new.session }
    {
        match self.session.claim(alloc, builder) {
            Ok(job) => Ok(answer::job_text(alloc, &job)?),
            Err(error) => answer::no_job_text(alloc, error),
        }
    }

    fn built(&mut self, alloc: Global, build: Build) -> Result<String, AllocError>
        requires { IsAbout self.old.course self.old.session }
        ensures { IsAbout self.new.course self.new.session }
    {
        let Build {
            builder,
            trial,
            is_good,
        } = build;
        let search = self.session.search();
        if trial >= search.trials() {
            return String::from_str(alloc, "no such trial");
        }
        let point = List::from_slice(alloc, search.point_of(trial))?;
        let outcome = self.course.build(alloc, point.as_slice(), is_good)?;
        let reply = self.session.built(builder, trial, outcome);
        answer::built_text(alloc, reply)
    }

    fn fetch(&mut self, alloc: Global, client: u32) -> Result<String, AllocError>
        requires { IsAbout self.old.course self.old.session }
        ensures { IsAbout self.new.course self.new.session }
    {
        let fetched = self.session.fetch(alloc, client)?;
        answer::fetched_text(alloc, fetched)
    }

    fn report(&mut self, alloc: Global, report: Report) -> Result<String, AllocError>
        requires { IsAbout self.old.course self.old.session }
        ensures { IsAbout self.new.course self.new.session }
    {
        let Report {
            client,
            trial,
            call,
            cost,
        } = report;
        let reply = self.session.report(client, trial, call, cost);
        answer::report_text(alloc, reply)
    }

    /// Fetches, and reports where it got a trial.
    fn measure(
        &mut self,
        alloc: Global,
        client: u32,
        call: u32,
        cost: u64,
    ) -> Result<(), AllocError>
        requires { IsAbout self.old.course self.old.session }
        ensures { IsAbout self.new.course self.new.session }
    {
        if let Fetched::Trial { trial, .. } = self.session.fetch(alloc, client)? {
            let cost = cost.saturating_sub(u64::from(call));
            let _ = self.session.report(client, trial, call, cost);
        }
        Ok(())
    }

    /// Two clients measure by turns, each of which raises the news.
    fn alternate(&mut self, alloc: Global, turns: Alternation) -> Result<String, AllocError>
        requires { IsAbout self.old.course self.old.session }
        ensures { IsAbout self.new.course self.new.session }
    {
        let start = self.session.news();
        for call in 1..=turns.times {
            self.measure(alloc, turns.first, call, turns.cost)?;
            self.measure(alloc, turns.second, call, turns.cost)?;
        }
        let rise = self.session.news().saturating_sub(start);
        answer::turns_text(alloc, turns.times, rise)
    }

    fn answer(&mut self, alloc: Global, call: Call) -> Result<String>
        requires { IsAbout self.old.course self.old.session }
        ensures { IsAbout self.new.course self.new.session }
    {
        Ok(match call {
            Call::Claim { builder } => self.claim(alloc, builder)?,
            Call::Built(build) => self.built(alloc, build)?,
            Call::Fetch { client } => self.fetch(alloc, client)?,
            Call::Report(report) => self.report(alloc, report)?,
            Call::Leave { client } => answer::leave_text(alloc, self.session.leave(client))?,
            Call::News { .. } => {
                let news = self.session.news();
                format!(in alloc; "{news}")?
            }
            Call::Join { .. } => String::from_str(alloc, "joined")?,
            Call::Alternate(turns) => self.alternate(alloc, turns)?,
        })
    }
}

/// What a script says on a session: a line for each call with its answer, and the history.
pub(crate) fn transcript(alloc: Global, script: &str) -> Result<String> {
    let mut out = String::new(alloc);
    let Some(course) = course_of(alloc, script)? else {
        return Ok(String::from_str(alloc, "no session\n")?);
    };
    let session = course.start(alloc)?;
    let mut solo = Solo { course, session };
    for line in script.lines() {
        if let Some(call) = call_of(line) {
            let answer = solo.answer(alloc, call)?;
            writeln!(out, "{line}: {answer}")?;
        }
    }
    answer::put_history(alloc, &mut out, &solo.session)?;
    Ok(out)
}
