//! What clients and builders do in tuning sessions: which reports fit a deck, which have a history
//! of what was done behind them, and the laws between the two.
#![tactic(auto)]

mod laws;
mod report;

pub use laws::{
    calls_add_up, cells_add_up, clients_hold_nothing, closed_sessions_are_lived, conduct_lasts,
    jobs_add_up, lived_reports_fit, lone_sessions_are_solo,
};
pub use report::{CallLine, ClientPart, How, RunReport, StorePart};
