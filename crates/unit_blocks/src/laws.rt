//! Laws of the definitions, each on a function that does nothing.

ghost use Rattle.std.specs.Prelude.{ℕ, Bool, List};
ghost use Rattle.unit_blocks.specs.Weaving.{WeavingIsSound};
ghost use Rattle.unit_blocks.specs.Blocks.{BlocksHaveOrder};
ghost use Rattle.unit_blocks.specs.Constraints.{LeastValuesGiveLeastLines, BlocksCanBePlaced};
ghost use Rattle.unit_blocks.specs.Joining.{JoinedUnitsAreNamed};

/// Weaving keeps both orders and repeats no name.
pub fn weaving_is_sound()
    ensures { WeavingIsSound }
{}

/// The blocks of chosen links have an order in which each row goes forward.
pub fn blocks_have_order()
    ensures { BlocksHaveOrder }
{}

/// Least values of the blocks give least lines of the units.
pub fn least_values_give_least_lines()
    ensures { LeastValuesGiveLeastLines }
{}

/// The question about the blocks has an answer, and its lines end within the stack.
pub fn blocks_can_be_placed()
    ensures { BlocksCanBePlaced }
{}

/// Units with the names and offsets of the links into them make blocks of horizontal links.
pub fn joined_units_are_named()
    ensures { JoinedUnitsAreNamed }
{}
