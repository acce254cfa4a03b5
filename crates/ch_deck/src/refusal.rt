ghost use Rattle.std.specs.Prelude.{◌≡◌, ◌++◌, OnOk};
ghost use Rattle.ch_deck.specs.Refusals.{detail_text, refusal_line, spot_text};

use ch_affine::Text;
use ch_lex::Spot;
use ch_print::put_number;
use ch_workload::DeckCode;
use std::alloc::AllocError;
use thiserror::Error;

/// The first refusal of a deck: its code, its place where there is one, and what the refusal is
/// about where that is told (for A1 the number, for S2 the instance and the cell), else nothing.
#[derive(Debug, Drop)]
pub struct Refused {
    pub code: DeckCode,
    pub spot: Option<Spot>,
    pub detail: Text,
}

/// Why a text is no deck.
#[derive(Debug, Drop, Error)]
pub enum DeckError {
    #[error("the deck is refused")]
    Refused(Refused),
    #[error("out of memory")]
    Memory,
}

impl From<AllocError> for DeckError {
    ghost use Rattle.std.specs.Prelude.{◌≡◌};
    ghost use Rattle.ch_deck.specs.declared.refusal.DeckError.TheVariants.{Memory};

    ghost from_gives = { λ _ e. e ≡ Memory };

    fn from(_error: AllocError) -> DeckError {
        DeckError::Memory
    }
}

fn put_spot(out: &mut Text, spot: Option<Spot>) -> Result<(), AllocError>
    ensures { OnOk result (out.new ≡ out.old ++ spot_text spot) }
{
    match spot {
        None => Ok(()),
        Some(spot) => {
            out.append(b" at ")?;
            put_number(out, u64::from(spot.line))?;
            out.append(b":")?;
            put_number(out, u64::from(spot.column))
        }
    }
}

fn put_detail(out: &mut Text, detail: &Text) -> Result<(), AllocError>
    ensures { OnOk result (out.new ≡ out.old ++ detail_text detail.now) }
{
    if detail.is_empty() {
        return Ok(());
    }
    out.append(b": ")?;
    out.append(detail.as_bytes())
}

impl Refused {
    /// Adds the line that tells of the refusal, as `refused S2 at 4:1: S0(2,2) A[4]`.
    #[tactic(auto, unfolding(crate::specs::Refusals::refusal_line))]
    pub fn put_line(&self, out: &mut Text) -> Result<(), AllocError>
        ensures { OnOk result (out.new ≡ out.old ++ refusal_line self.now) }
    {
        out.append(b"refused ")?;
        out.append(self.code.text())?;
        put_spot(out, self.spot)?;
        put_detail(out, &self.detail)?;
        out.append(b"\n")
    }
}
