//! What a record's share is to the rule.
ghost use Rattle.node_forest.specs.Label.{Node};

/// A share of a tree, which a record keeps.
pub trait Holding {
    // The tree that it is of.
    ghost tree_of: { Self → Node };

    // It holds this tree, which is well formed and not too long.
    ghost fits: { Self → Type 0 };
}
