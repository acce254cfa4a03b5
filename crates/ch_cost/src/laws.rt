//! Laws of the definitions, each carried by a function without arguments that does nothing.

ghost use Rattle.std.specs.Prelude.{◌≡◌, ◌≤◌, ◌*◌, ◌↔◌, ℕ, ℤ, List, length, take, min};
ghost use Rattle.ch_cost.specs.Cost.{cost, kept, most_cost};
ghost use Rattle.ch_cost.specs.Meter.{read_off};
ghost use Rattle.ch_nest.specs.CostModel.{CostModel};
ghost use Rattle.ch_timed.specs.declared.element.Element.{Element};
ghost use Rattle.ch_timed.specs.Vectors.{values};

/// The cost of a list is what a meter says that is read element by element.
pub fn cost_is_metered()
    ensures { (m : CostModel) (extents : List (List ℕ)) (list : List Element)
        → cost m extents list ≡ min most_cost (read_off m extents list).sum }
{}

/// Two vectors share a level exactly where both have it and agree up to it, places and loop values.
pub fn kept_levels_are_a_common_front()
    ensures { (us vs : List ℤ) (k : ℕ) → k ≤ length (values us) → k ≤ length (values vs)
        → k ≤ kept us vs ↔ (take (2 * k) us ≡ take (2 * k) vs) }
{}
