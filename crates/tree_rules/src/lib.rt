//! What it is that the cells of a store hold a tree of directories and files.
#![tactic(auto)]

mod information;
mod laws;

pub use information::{Information, Places, TableAt, TableFields, TablePlace};
pub use laws::{
    a_softened_store_holds_a_softened_tree, no_condition_fails_where_all_lies_as_it_should,
    no_rule_fails_where_a_tree_is_held, one_list_a_holder, one_tree_is_read, some_tree_is_read,
    what_keeps_the_structure_keeps_the_tree,
};
pub use tree_model::TreeKind;
