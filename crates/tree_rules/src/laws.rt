//! What the definitions mean, for all values: each function's contract is a law, and its body is empty.

ghost use Rattle.std.specs.Prelude.{◌≡◌, ℕ, Option, None, List, ◌↔◌};
ghost use Rattle.save_bytes.specs.Cells.{Cell};
ghost use Rattle.entry_tables.specs.Tables.{Tables};
ghost use Rattle.tree_model.specs.declared.kind.TreeKind.{TreeKind as Kind};
ghost use Rattle.tree_rules.specs.declared.information.Information.{Information};
ghost use Rattle.tree_rules.specs.Information.{information_in};
ghost use Rattle.tree_rules.specs.Places.{places_of, tree_tables};
ghost use Rattle.tree_rules.specs.Layout.{layout_fault};
ghost use Rattle.tree_rules.specs.Sound.{HasLayout};
ghost use Rattle.tree_rules.specs.Lists.{Holder};
ghost use Rattle.tree_rules.specs.Trees.{IsConsistentTree, HoldsTree, table_chains};
ghost use Rattle.tree_rules.specs.Structure.{KeepsStructure, KeepsTree};
ghost use Rattle.tree_rules.specs.Fails.{BreaksAt};
ghost use Rattle.tree_model.specs.Trees.{Tree, SameTree};
ghost use Rattle.tree_rules.specs.Reading.{TreeReadsFrom, SoftensContents, IsSoftened};

/// No condition on the layout fails exactly where all lies as it should.
pub fn no_condition_fails_where_all_lies_as_it_should()
    ensures { (kind : Kind) (split : Option ℕ) (size : ℕ) (info : Information) (t : Tables)
        → (layout_fault kind split size info t ≡ None) ↔ HasLayout kind split size info (places_of kind split info) t }
{}

/// The cells of a store fix the list of each holder.
pub fn one_list_a_holder()
    ensures { (kind : Kind) (size : ℕ) (split : Option ℕ) (cells : ℕ → Cell) (lists others : Holder → List ℕ)
        → IsConsistentTree kind size split cells lists → IsConsistentTree kind size split cells others
        → (holder : Holder) → lists holder ≡ others holder }
{}

/// A tree stays, with its lists and tables, where the cells of its structure have softened at most: whatever else was
/// written.
pub fn what_keeps_the_structure_keeps_the_tree()
    ensures { (kind : Kind) (size : ℕ) (split : Option ℕ) (cells new : ℕ → Cell) (lists : Holder → List ℕ)
        → IsConsistentTree kind size split cells lists
        → let info = information_in cells in
        let p = places_of kind split info in
        KeepsStructure size info p lists (tree_tables size p (table_chains lists) cells) cells new
        → KeepsTree kind size split cells new lists }
{}

/// Where the cells hold a tree, no rule fails anywhere.
pub fn no_rule_fails_where_a_tree_is_held()
    ensures { (kind : Kind) (size : ℕ) (split : Option ℕ) (cells : ℕ → Cell) (number entry : ℕ)
        → HoldsTree kind size split cells → ¬ BreaksAt kind size split cells number entry }
{}

/// A tree is read off each store that holds one.
pub fn some_tree_is_read()
    ensures { (kind : Kind) (size : ℕ) (split : Option ℕ) (cells : ℕ → Cell) → HoldsTree kind size split cells
        → (tree : Tree) × TreeReadsFrom kind size split cells tree }
{}

/// The cells of a store fix the tree that is read off them.
pub fn one_tree_is_read()
    ensures { (kind : Kind) (size : ℕ) (split : Option ℕ) (cells : ℕ → Cell) (tree other : Tree)
        → TreeReadsFrom kind size split cells tree → TreeReadsFrom kind size split cells other → SameTree tree other }
{}

/// Where the structure's cells and those of files have softened at most, the same tree is read, but for blank cells of
/// contents that have softened.
pub fn a_softened_store_holds_a_softened_tree()
    ensures { (kind : Kind) (size : ℕ) (split : Option ℕ) (cells new : ℕ → Cell) (tree : Tree)
        (read : TreeReadsFrom kind size split cells tree)
        → let info = information_in cells in
        let p = places_of kind split info in
        let t = tree_tables size p (table_chains read.lists) cells in
        KeepsStructure size info p read.lists t cells new → SoftensContents p t read.lists cells new
        → IsSoftened kind size split tree new }
{}
