//! Laws that follow from the definitions alone.
ghost use Rattle.node_tree.specs.World.{World};
ghost use Rattle.node_tree.specs.Sound.{IsSound};
ghost use Rattle.tree_parts.specs.Again.{IsTakenAgain};

/// All parts of a sound world are taken, in order, and they give that world, as a complete one.
pub fn a_tree_is_taken_again()
    ensures { (w : World) → IsSound w → IsTakenAgain w }
{}
