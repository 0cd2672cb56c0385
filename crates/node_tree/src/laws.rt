//! Laws that follow from the definitions alone.
ghost use Rattle.std.specs.Prelude.{◌≡◌, ◌↔◌, ℕ, true, Some};
ghost use Rattle.acl_list.specs.declared.entry.Kind.TheVariants.{Directory};
ghost use Rattle.node_tree.specs.World.{World, kind_of};
ghost use Rattle.node_tree.specs.Ways.{is_within, LiesWithin};
ghost use Rattle.node_tree.specs.Sound.{IsSound};
ghost use Rattle.node_tree.specs.Parts.{IsReadInOrder};

/// The walk up from a directory decides whether it is another directory or is below it. [`crate::Tree::plan_rename`]
/// therefore returns [`crate::TreeFault::Inval`] for exactly the moves of a directory below itself.
pub fn way_up_shows_what_lies_below()
    ensures { (w : World) (directory number : ℕ) → IsSound w → kind_of w number ≡ Some Directory →
        (is_within w directory number ≡ true) ↔ LiesWithin w.names directory number }
{}

/// The objects of a tree are those of the number after 0, the number after that, and so on. Its
/// names are those of the cookie after 0, the cookie after that, and so on.
pub fn parts_are_read_in_order()
    ensures { (w : World) → IsSound w → IsReadInOrder w }
{}
