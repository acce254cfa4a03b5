//! What a run tells: of each client its calls and the arrays that they left, and of each session
//! what its search came to.
use ch_affine::List;
use ch_report::SessionPart;

/// How a call ran.
#[derive(Clone, Copy, Debug, PartialEq, Eq)]
pub enum How {
    /// It measured this trial.
    Trial(u32),
    /// It ran the current version, of this number, which it fetched when there were so many news.
    Fresh { version: u32, news: u64 },
    /// It ran the version that it had, since the news were still those.
    Kept { version: u32, news: u64 },
}

/// A call of a client.
#[derive(Clone, Copy, Debug, PartialEq, Eq)]
pub struct CallLine {
    /// The number of the session that it called, from 0.
    pub session: u32,
    pub how: How,
}

/// The arrays of one program, as a client's calls left them.
#[derive(Debug, Drop)]
pub struct StorePart {
    /// The number of the program, from 0.
    pub program: u32,
    /// The cells of all of its arrays, array by array, each in row-major order.
    pub cells: List<i64>,
}

/// What became of a client: its calls in the order in which it made them, and the programs that
/// they ran.
#[derive(Debug, Drop)]
pub struct ClientPart {
    pub calls: List<CallLine>,
    pub stores: List<StorePart>,
}

/// What became of all clients and all sessions, in the order of the deck.
#[derive(Debug, Drop)]
pub struct RunReport {
    pub clients: List<ClientPart>,
    pub sessions: List<SessionPart>,
}
