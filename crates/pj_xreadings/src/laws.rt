//! Laws of shapes. The functions do nothing, and their contracts are the laws.

ghost use Rattle.std.specs.Prelude.{◌≡◌, ◌≤◌, ℕ, List, [], ◌∷◌};
ghost use Rattle.pj_xexpressions.specs.declared.operator.Additive.TheVariants as additive;
ghost use Rattle.pj_xexpressions.specs.declared.operator.Multiplicative.TheVariants as multiplicative;
ghost use Rattle.pj_xexpressions.specs.declared.expr.Expr.{Expr};
ghost use Rattle.pj_xexpressions.specs.Expressions.{part_of};
ghost use Rattle.pj_xexpressions.specs.Trees as tree;
ghost use Rattle.pj_xexpressions.specs.Trees.{Tree, alone, binder, node, tree_of};
ghost use Rattle.pj_xreadings.specs.Nesting.{nesting_of_tree};
ghost use Rattle.pj_xreadings.specs.Shapes.{part_of_tree};

/// What the surroundings see of an expression is what they see of its tree.
pub fn expressions_have_shapes()
    ensures { (e : Expr) → part_of e ≡ part_of_tree (tree_of e) }
{}

/// The nesting that is said of an expression is no more than that of its text.
pub fn nesting_is_least()
    ensures { (t : Tree) → (part_of_tree t).nesting ≤ nesting_of_tree t }
{}

/// A `/` alone is in parentheses before a word, as `return` and `else` too, and before a `*`, and not before a `+` or at the end.
pub fn slashes_before_words_nest()
    ensures word { (t : Tree) → 1 ≤ nesting_of_tree (node tree.Or (alone tree.Root ∷ t ∷ [])) }
    ensures star { (t : Tree) → 1 ≤ nesting_of_tree (node (tree.Multiplicative' (multiplicative.Times ∷ [])) (alone tree.Root ∷ t ∷ [])) }
    ensures clause { (name : List ℕ) (body : Tree) → 2 ≤ nesting_of_tree (binder tree.For ((name, alone tree.Root) ∷ []) body) }
    ensures chosen { (test other : Tree) → 2 ≤ nesting_of_tree (node tree.If (test ∷ alone tree.Root ∷ other ∷ [])) }
    ensures sign { nesting_of_tree (node (tree.Additive' (additive.Plus ∷ [])) (alone tree.Root ∷ alone tree.Root ∷ [])) ≡ 0 }
{}
