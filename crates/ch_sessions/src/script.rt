//! Scripts: first what the session is about, in lines `grid LOW HIGH STEP` (one for each
//! parameter) and `repeat COUNT`, then calls, one a line. A line that begins with `#` says
//! nothing.

use crate::plan::Course;
use ch_affine::List;
use ch_grid::Param;
use std::alloc::{AllocError, Global};
use std::str::FromStr;

/// A build that a builder records.
#[derive(Clone, Copy)]
pub(crate) struct Build {
    pub(crate) builder: u32,
    pub(crate) trial: u32,
    pub(crate) is_good: bool,
}

/// A cost that a client measured.
#[derive(Clone, Copy)]
pub(crate) struct Report {
    pub(crate) client: u32,
    pub(crate) trial: u32,
    pub(crate) call: u32,
    pub(crate) cost: u64,
}

/// Two clients that fetch and report by turns, the first one first, each so often. The cost of
/// call j is `cost` less j.
#[derive(Clone, Copy)]
pub(crate) struct Alternation {
    pub(crate) first: u32,
    pub(crate) second: u32,
    pub(crate) times: u32,
    pub(crate) cost: u64,
}

/// A call of a client or builder, or of the program that shares the session among them.
#[derive(Clone, Copy)]
pub(crate) enum Call {
    Claim { builder: u32 },
    Built(Build),
    Fetch { client: u32 },
    Report(Report),
    Leave { client: u32 },
    News { seat: u32 },
    /// A client or builder is gone for good, or until it is named again.
    Join { seat: u32 },
    /// On a book each of the two is a thread.
    Alternate(Alternation),
}

/// The seat of a client or builder: a client builds under 200 and its number.
pub(crate) fn seat_of(number: u32) -> u32 {
    if number >= 200 { number - 200 } else { number }
}

fn word<'a>(line: &'a str, place: usize) -> &'a str {
    line.split(' ').nth(place).unwrap_or("")
}

/// The number at a place of a line, or none where there is none.
fn number<N: FromStr>(line: &str, place: usize) -> Option<N>
where
    N::Err: Drop,
{
    word(line, place).parse::<N>().ok()
}

/// The call of a line, or none where it is another line.
pub(crate) fn call_of(line: &str) -> Option<Call> {
    let first = number(line, 1)?;
    Some(match word(line, 0) {
        "claim" => Call::Claim { builder: first },
        "built" => Call::Built(Build {
            builder: first,
            trial: number(line, 2)?,
            is_good: word(line, 3) == "good",
        }),
        "fetch" => Call::Fetch { client: first },
        "report" => Call::Report(Report {
            client: first,
            trial: number(line, 2)?,
            call: number(line, 3)?,
            cost: number(line, 4)?,
        }),
        "leave" => Call::Leave { client: first },
        "news" => Call::News { seat: first },
        "join" => Call::Join { seat: first },
        "alternate" => Call::Alternate(Alternation {
            first,
            second: number(line, 2)?,
            times: number(line, 3)?,
            cost: number(line, 4)?,
        }),
        _ => return None,
    })
}

fn param_of(line: &str) -> Option<Param> {
    Some(Param {
        low: number(line, 1)?,
        high: number(line, 2)?,
        step: number(line, 3)?,
    })
}

/// What the session of a script is about.
pub(crate) fn course_of(alloc: Global, text: &str) -> Result<Option<Course>, AllocError> {
    let mut params = List::new(alloc);
    let mut repeat = 1;
    for line in text.lines() {
        match word(line, 0) {
            "grid" => {
                if let Some(param) = param_of(line) {
                    params.push(param)?;
                }
            }
            "repeat" => repeat = number(line, 1).unwrap_or(0),
            _ => {}
        }
    }
    Course::of(alloc, params, repeat)
}
