ghost use Rattle.std.specs.Prelude.{◌≡◌, [], ◌∷◌, ◌++◌, OnOk, unsigned_abs};
ghost use Rattle.ch_nestprint.specs.Ends.{is_below};
ghost use Rattle.ch_nestprint.specs.Minus.{minus_in, minus_in_item, minus_in_items, size_if};

use ch_affine::List;
use ch_nest::{Expr, Item};
use std::alloc::AllocError;

fn add_size(found: &mut List<u64>, value: i64) -> Result<(), AllocError>
    ensures { OnOk result (found.new ≡ found.old ++ size_if (is_below value) (unsigned_abs value)) }
{
    if value < 0 {
        return found.push(value.unsigned_abs());
    }
    Ok(())
}

/// Adds the magnitudes of the negative numbers of a right side.
fn add_sizes(found: &mut List<u64>, expr: &Expr) -> Result<(), AllocError>
    ensures { OnOk result (found.new ≡ found.old ++ minus_in expr.now) }
{
    match expr {
        Expr::Number(n) => add_size(found, *n),
        Expr::Iter(_) | Expr::Read(_) => Ok(()),
        Expr::Neg(x) => add_sizes(found, x.get()),
        Expr::Add(x, y) | Expr::Sub(x, y) | Expr::Mul(x, y) => {
            add_sizes(found, x.get())?;
            add_sizes(found, y.get())
        }
    }
}

#[cycle(sizes)]
fn item_sizes(found: &mut List<u64>, item: &Item) -> Result<(), AllocError>
    ensures { OnOk result (found.new ≡ found.old ++ minus_in_item item.now) }
{
    match item {
        Item::Loop { items, .. } => items_sizes(found, items.as_slice()),
        Item::Assign { body, .. } => add_sizes(found, &body.right),
        Item::If { items, .. } => items_sizes(found, items.as_slice()),
    }
}

/// Adds the magnitudes of the negative numbers of all right sides, in the order of the text.
#[cycle(sizes)]
pub fn items_sizes(found: &mut List<u64>, items: &[Item]) -> Result<(), AllocError>
    ensures { OnOk result (found.new ≡ found.old ++ minus_in_items items.now) }
{
    for item in items {
        item_sizes(found, item)?;
    }
    Ok(())
}
