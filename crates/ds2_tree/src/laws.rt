//! Laws of the tree.
ghost use Rattle.ds2_tree.specs.Examples.{TreeExamples};

/// Some trees have these tokens, open these levels, and are of the grammar or not.
pub fn tree_examples()
    ensures { TreeExamples }
{}
