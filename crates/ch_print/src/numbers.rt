ghost use Rattle.std.specs.Prelude.{◌≡◌, ◌++◌, OnOk};
ghost use Rattle.ch_print.specs.Numbers.{integer_text, number_text};

use ch_affine::Text;
use std::alloc::AllocError;

/// Adds a number from 0 on, in decimal.
#[tactic(auto, using(crate::proofs::Decimal::decimal_small))]
pub fn put_number(out: &mut Text, number: u64) -> Result<(), AllocError>
    ensures { OnOk result (out.new ≡ out.old ++ number_text number) }
{
    out.append_number(number)
}

/// Adds a number in decimal.
#[tactic(auto, using(crate::proofs::Decimal::signed_wide))]
pub fn put_integer(out: &mut Text, number: i64) -> Result<(), AllocError>
    ensures { OnOk result (out.new ≡ out.old ++ integer_text number) }
{
    out.append_number(number)
}

/// Adds a number of up to 128 bits in decimal.
#[tactic(auto, using(crate::proofs::Decimal::signed_wide))]
pub fn put_wide(out: &mut Text, number: i128) -> Result<(), AllocError>
    ensures { OnOk result (out.new ≡ out.old ++ integer_text number) }
{
    out.append_number(number)
}
