//! A session.
#![tactic(auto)]

mod cell;
mod event;
mod laws;
mod listed;
mod made;
mod replies;
mod session;

pub use event::Event;
pub use laws::{
    beginnings_are_legal, clients_hold_one_trial, last_events_decide, leases_and_claims_stay,
    news_never_fall, points_stay, trials_are_claimed_once, trials_are_few,
};
pub use made::Made;
pub use replies::{Built, ClaimError, Fetched, Job, NotClaimed, NotLeased};
pub use session::Session;
