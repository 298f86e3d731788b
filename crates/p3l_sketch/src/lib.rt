//! Helpers that tests share: trees as tables, a row for each node in preorder; the tree of one node,
//! with bodies that contracts see; and outcomes compared.
#![tactic(auto)]

pub mod one_node;
pub mod outcome;
pub mod shape;
pub mod tree;

pub use one_node::{Echo, Refusing, tree_of_one};
pub use outcome::{has_words, is_same, is_trap};
pub use shape::{Array, NodeForm, cut_of, form_of, list_of};
pub use tree::{
    ModuleRow, Row, Sketch, add_node, add_row, counts_of, no_nodes, tree_named, tree_of, tree_with,
    tree_with_rescue,
};
