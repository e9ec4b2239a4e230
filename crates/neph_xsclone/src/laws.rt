// Laws of the rewriting.
ghost use Rattle.neph_xsclone.specs.Copying.{CopiesNodeByNode};

/// A clone has a copy of each node of its parent, at the same place below its own and of the
/// rewritten value. No copy hides another.
pub fn copies_node_by_node()
    ensures { CopiesNodeByNode }
{}
