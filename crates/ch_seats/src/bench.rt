ghost use Rattle.std.specs.Prelude.{◌≡◌, IfOk};
ghost use Rattle.ch_conduct.specs.Meaning.{Meaning, program_of};
ghost use Rattle.ch_seats.specs.Benches.{CostIs, IsBuilt};

use ch_affine::List;
use ch_nest::Machine;
use ch_session::{Built, Made};
use std::alloc::{AllocError, Global};

/// What builds the variants of a deck's sessions and runs them, outside of any turn. `means` is
/// what the deck means.
pub trait Bench<V: Made + Drop> {
    ghost means: { Self → Meaning };

    /// Builds the recipe of a session at a point, or tells its refusal there.
    fn build(&self, alloc: Global, session: u32, point: &[u32]) -> Result<Built<V>, AllocError>
        ensures { IfOk result (λ o. IsBuilt V.made (means self.now) session point.now o) };

    /// Runs a variant once on the cells of its session's program, and counts what that costs.
    fn run(&self, machine: &Machine, variant: &V, cells: &mut List<i64>) -> Result<u64, AllocError>
        ensures cells { IfOk result (λ x. cells.new ≡ (means self.now).run
            (program_of (means self.now) (V.made variant.now).subject) cells.old) }
        ensures cost { IfOk result (λ x.
            CostIs (means self.now) machine.now (V.made variant.now) x) };

    /// How many programs there are.
    fn programs(&self) -> u32
        ensures { result ≡ (means self.now).programs };

    /// The program of a session.
    fn program(&self, session: u32) -> u32
        ensures { result ≡ program_of (means self.now) session };

    /// The cells with which a client's arrays of a program begin.
    fn filled(&self, alloc: Global, client: u32, program: u32) -> Result<List<i64>, AllocError>
        ensures { IfOk result (λ cells. cells ≡ (means self.now).filled client program) };
}
