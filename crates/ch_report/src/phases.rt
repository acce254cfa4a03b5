//! The rounds of a search.
ghost use Rattle.std.specs.Prelude.{◌≡◌, ◌++◌, OnOk};
ghost use Rattle.ch_report.specs.Sessions.{phase_text};

use ch_affine::Text;
use ch_rank::Phase;
use std::alloc::AllocError;

/// Adds the name of a round, as `Reflect`.
pub fn put_phase(out: &mut Text, phase: Phase) -> Result<(), AllocError>
    ensures { OnOk result (out.new ≡ out.old ++ phase_text phase) }
{
    match phase {
        Phase::Start => out.append(b"Start"),
        Phase::Reflect => out.append(b"Reflect"),
        Phase::Try => out.append(b"Try"),
        Phase::Expand => out.append(b"Expand"),
        Phase::Shrink => out.append(b"Shrink"),
        Phase::Probe => out.append(b"Probe"),
        Phase::Converged => out.append(b"Converged"),
    }
}
