//! Places that need not fit those of a piece.

ghost use Rattle.std.specs.Prelude.{◌≡◌, IfOk};

use ch_affine::List;
use std::alloc::{AllocError, Global};

/// The same places as wider numbers.
pub fn wide_places(alloc: Global, places: &[u32]) -> Result<List<u64>, AllocError>
    ensures { IfOk result (λ wide. wide ≡ places.now) }
{
    let mut wide = List::with_capacity(alloc, places.len())?;
    for place in places {
        wide.push(u64::from(*place))?;
    }
    Ok(wide)
}
