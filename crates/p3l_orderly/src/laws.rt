// Laws of what is found: each is the contract of a function that does nothing.

ghost use Rattle.std.specs.Prelude.{◌≡◌, ℕ, List};
ghost use Rattle.p3l_skel.specs.declared.tree.Tree.{Tree};
ghost use Rattle.p3l_skel.specs.Counts.{count_of};
ghost use Rattle.p3l_skel.specs.Tree.{nesting};
ghost use Rattle.p3l_firing.specs.Nodes.{Leaf};
ghost use Rattle.p3l_firing.specs.Shot.{HaveFewTags};
ghost use Rattle.p3l_firing.specs.State.{State};
ghost use Rattle.p3l_firing.specs.declared.net.Net.{Net};
ghost use Rattle.p3l_firing.specs.declared.shot.Shot.{Shot};
ghost use Rattle.p3l_net.specs.Shot.{CanRestore};
ghost use Rattle.p3l_template.specs.Finding.{IsFoundShape, finding_of};
ghost use Rattle.p3l_template.specs.Units.{Units};
ghost use Rattle.p3l_link.specs.Net.{root_base};
ghost use Rattle.p3l_link.specs.Node.{kind_of};
ghost use Rattle.p3l_link.specs.Part.{root_part};
ghost use Rattle.p3l_link.specs.declared.node.NodeTemplate.{NodeTemplate};
ghost use Rattle.p3l_orderly.specs.Walk.{node_found};

/// The tokens found in a node by the tags alone are those of its part, whatever the units make of
/// words.
pub fn what_is_found_is_what_the_part_is()
    ensures { (template : NodeTemplate) → IsFoundShape (kind_of template).shape (kind_of template).finds }
{}

/// The tokens found in a tree, node by node, are those of the root's part in the state; so whether
/// a state is orderly, and the tags of what is pending, don't depend on what the units make of
/// words.
pub fn what_is_found_in_a_tree_is_what_its_part_is()
    ensures root { (units : Units) (counts : List ℕ) (cap : ℕ) (s : State)
        → finding_of s (root_part units counts)
        ≡ node_found units.tree (count_of units.tree counts) cap nesting 0 root_base s }
    ensures leaf { (tree : Tree) (one other : Leaf) (counts : List ℕ) (s : State)
        → finding_of s (root_part (record { tree = tree; leaf = one }) counts)
        ≡ finding_of s (root_part (record { tree = tree; leaf = other }) counts) }
{}

/// In a shot that can be restored no token has more tags than a token may have.
pub fn what_can_be_restored_has_few_tags()
    ensures { (tree : Tree) (net : Net) (shot : Shot) → CanRestore tree net shot → HaveFewTags shot }
{}
