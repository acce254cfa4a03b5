//! One call of a client.
ghost use Rattle.std.specs.Prelude.{◌≡◌, ◌⊎◌, ◌+◌, ◌<◌, ◌≤◌, ℕ, List, Option, Some, None, IfOk, IfSome, option_map, true, false};
ghost use Rattle.ch_book.specs.Books.{left_of};
ghost use Rattle.ch_client.specs.Lasts.{HasKept, IsLast};
ghost use Rattle.ch_conduct.specs.Conduct.{news_shown};
ghost use Rattle.ch_conduct.specs.Meaning.{Meaning, judge_of, program_of};
ghost use Rattle.ch_conduct.specs.Turns.{Called, Settles};
ghost use Rattle.ch_seats.specs.Seated.{IsBook, Sits, knows, theme_in};

use crate::client::Manner;
use crate::last::Last;
use ch_affine::List;
use ch_book::Seat;
use ch_conduct::How;
use ch_nest::Machine;
use ch_seats::{Bench, Worker};
use ch_session::{ClaimError, Fetched, Made};
use std::alloc::AllocError;
use std::sync::{Arc, Wait};

/// The fetch that decides: a trial is measured and reported, the current version is run.
fn settle<V: Made + Drop, R: Wait, B: Bench<V>>(
    at: &Worker<'_, V, R, B>,
    seat: &mut Seat<V>,
    machine: &Machine,
    variant: &mut Option<Arc<V>>,
    call: u32,
    cells: &mut List<i64>,
) -> Result<How, AllocError>
    requires sits { Sits at.now.number at.now.book.now seat.old }
    requires book { IsBook (B.means at.now.bench.now) at.now.session at.now.book.now }
    requires left { 2 ≤ left_of seat.old }
    requires number { at.now.number < 200 }
    ensures sits { Sits at.now.number at.now.book.now seat.new }
    ensures left { left_of seat.old ≤ left_of seat.new + 2 }
    ensures settles { IfOk result (λ how. Settles (theme_in at.now.book.now)
        (judge_of (B.means at.now.bench.now) at.now.session) at.now.number machine.now call how
        (knows at.now.number seat.old) (knows at.now.number seat.new)) }
    ensures cells { IfOk result (λ how. cells.new ≡ (B.means at.now.bench.now).run
        (program_of (B.means at.now.bench.now) at.now.session) cells.old) }
    ensures last { IfOk result (λ how. HasKept V.made at.now.session (Some how) variant.new) }
{
    match at.fetch(seat)? {
        Fetched::Trial {
            trial,
            variant: made,
            news: _,
        } => {
            let cost = at.bench.run(machine, &made, cells)?;
            at.report(seat, trial, call, cost);
            *variant = None;
            Ok(How::Trial(trial))
        }
        Fetched::Current {
            version,
            variant: made,
            news,
        } => {
            at.bench.run(machine, &made, cells)?;
            *variant = Some(made);
            Ok(How::Fresh { version, news })
        }
    }
}

/// The version and the news that the line before shows, if it was fresh or kept.
fn shown(before: Option<How>) -> Option<(u32, u64)>
    ensures shows { IfSome result (λ p.
        (before ≡ Some (How.Fresh p.0 p.1)) ⊎ (before ≡ Some (How.Kept p.0 p.1))) }
    ensures news { news_shown before ≡ option_map (λ p. p.1) result }
{
    match before {
        Some(How::Fresh { version, news }) => Some((version, news)),
        Some(How::Kept { version, news }) => Some((version, news)),
        Some(How::Trial(_)) => None,
        None => None,
    }
}

/// One call of an eager client, behind the line before on this session. Where the news are still
/// those that this line shows, it runs the variant that it has.
fn eager_call<V: Made + Drop, R: Wait, B: Bench<V>>(
    at: &Worker<'_, V, R, B>,
    seat: &mut Seat<V>,
    machine: &Machine,
    last: &mut Last<V>,
    call: u32,
    cells: &mut List<i64>,
) -> Result<How, AllocError>
    requires sits { Sits at.now.number at.now.book.now seat.old }
    requires book { IsBook (B.means at.now.bench.now) at.now.session at.now.book.now }
    requires left { 5 ≤ left_of seat.old }
    requires number { at.now.number < 200 }
    requires last { IsLast V.made at.now.session last.old }
    ensures sits { Sits at.now.number at.now.book.now seat.new }
    ensures left { left_of seat.old ≤ left_of seat.new + 5 }
    ensures call { IfOk result (λ how. Called (theme_in at.now.book.now)
        (judge_of (B.means at.now.bench.now) at.now.session) at.now.number false machine.now
        last.old.how
        call how (knows at.now.number seat.old) (knows at.now.number seat.new)) }
    ensures cells { IfOk result (λ how. cells.new ≡ (B.means at.now.bench.now).run
        (program_of (B.means at.now.bench.now) at.now.session) cells.old) }
    ensures kept { IfOk result (λ how. HasKept V.made at.now.session (Some how) last.new.variant) }
{
    match shown(last.how) {
        Some((version, news)) => {
            if at.news(seat) == news {
                let Some(made) = &last.variant else {
                    unreachable!()
                };
                at.bench.run(machine, made, cells)?;
                Ok(How::Kept { version, news })
            } else {
                settle(at, seat, machine, &mut last.variant, call, cells)
            }
        }
        None => settle(at, seat, machine, &mut last.variant, call, cells),
    }
}

/// One call of a patient client. Where its fetch gives the current version it claims a trial,
/// builds it and fetches again; where no trial is open it stays with that version. It tells too
/// whether a build of its own was refused.
fn patient_call<V: Made + Drop, R: Wait, B: Bench<V>>(
    at: &Worker<'_, V, R, B>,
    seat: &mut Seat<V>,
    machine: &Machine,
    last: &mut Last<V>,
    call: u32,
    cells: &mut List<i64>,
) -> Result<(How, bool), AllocError>
    requires sits { Sits at.now.number at.now.book.now seat.old }
    requires book { IsBook (B.means at.now.bench.now) at.now.session at.now.book.now }
    requires left { 5 ≤ left_of seat.old }
    requires number { at.now.number < 200 }
    ensures sits { Sits at.now.number at.now.book.now seat.new }
    ensures left { left_of seat.old ≤ left_of seat.new + 5 }
    ensures call { IfOk result (λ r. Called (theme_in at.now.book.now)
        (judge_of (B.means at.now.bench.now) at.now.session) at.now.number true machine.now
        last.old.how
        call r.0 (knows at.now.number seat.old) (knows at.now.number seat.new)) }
    ensures cells { IfOk result (λ r. cells.new ≡ (B.means at.now.bench.now).run
        (program_of (B.means at.now.bench.now) at.now.session) cells.old) }
    ensures kept { IfOk result (λ r. HasKept V.made at.now.session (Some r.0) last.new.variant) }
{
    match at.fetch(seat)? {
        Fetched::Trial {
            trial,
            variant: made,
            news: _,
        } => {
            let cost = at.bench.run(machine, &made, cells)?;
            at.report(seat, trial, call, cost);
            last.variant = None;
            Ok((How::Trial(trial), false))
        }
        Fetched::Current {
            version,
            variant: made,
            news,
        } => match at.claim(seat, 200 + at.number) {
            Err(ClaimError::Memory) => Err(AllocError),
            Err(ClaimError::NoJob) => {
                at.bench.run(machine, &made, cells)?;
                last.variant = Some(made);
                Ok((How::Fresh { version, news }, false))
            }
            Ok(job) => {
                let refused = at.build(seat, 200 + at.number, job)?;
                let how = settle(at, seat, machine, &mut last.variant, call, cells)?;
                Ok((how, refused))
            }
        },
    }
}

/// One call of a client, behind its last line on this session: its line. It tells too whether a
/// build of its own was refused.
pub fn call_once<V: Made + Drop, R: Wait, B: Bench<V>>(
    at: &Worker<'_, V, R, B>,
    seat: &mut Seat<V>,
    manner: &Manner,
    last: &mut Last<V>,
    call: u32,
    cells: &mut List<i64>,
) -> Result<(How, bool), AllocError>
    requires sits { Sits at.now.number at.now.book.now seat.old }
    requires book { IsBook (B.means at.now.bench.now) at.now.session at.now.book.now }
    requires left { 5 ≤ left_of seat.old }
    requires number { at.now.number < 200 }
    requires last { IsLast V.made at.now.session last.old }
    ensures sits { Sits at.now.number at.now.book.now seat.new }
    ensures left { left_of seat.old ≤ left_of seat.new + 5 }
    ensures call { IfOk result (λ r. Called (theme_in at.now.book.now)
        (judge_of (B.means at.now.bench.now) at.now.session) at.now.number manner.now.patient
        manner.now.machine last.old.how call r.0 (knows at.now.number seat.old)
        (knows at.now.number seat.new)) }
    ensures cells { IfOk result (λ r. cells.new ≡ (B.means at.now.bench.now).run
        (program_of (B.means at.now.bench.now) at.now.session) cells.old) }
    ensures last { IfOk result (λ r. (last.new.how ≡ Some r.0) × IsLast V.made at.now.session
        last.new) }
{
    let (how, refused) = if manner.patient {
        patient_call(at, seat, &manner.machine, last, call, cells)?
    } else {
        let how = eager_call(at, seat, &manner.machine, last, call, cells)?;
        (how, false)
    };
    last.how = Some(how);
    Ok((how, refused))
}
