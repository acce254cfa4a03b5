/// Where a thread may be held: around a client's call, and around the build of a trial's version.
#[derive(Clone, Copy, Debug, PartialEq, Eq)]
pub enum Place {
    BeforeCall { client: u32, call: u32 },
    AfterCall { client: u32, call: u32 },
    BeforeBuild { session: u32, trial: u32 },
    Built { session: u32, trial: u32 },
}

/// May hold the calling thread at a place, so that a test can bring about one order of events. It
/// promises nothing.
pub trait Gate {
    fn pass(&self, place: Place);
}

/// Holds nobody.
#[derive(Clone, Copy, Debug, PartialEq, Eq)]
pub struct NoGate;

impl Gate for NoGate {
    fn pass(&self, _place: Place) {}
}

#[cfg(test)]
mod tests {
    use super::*;

    #[test]
    fn no_gate_holds_nobody() {
        let gate = NoGate;
        gate.pass(Place::BeforeCall { client: 0, call: 1 });
        gate.pass(Place::AfterCall { client: 0, call: 1 });
        gate.pass(Place::BeforeBuild {
            session: 0,
            trial: 0,
        });
        gate.pass(Place::Built {
            session: 0,
            trial: 0,
        });
    }
}
