//! Laws of the printed text of an item (XQuery 1.0, sections 3.1.1 and 3.7.3).

ghost use Rattle.std.specs.Prelude.{◌≡◌, ℕ, [], ◌∷◌, Ok, Err, neg_ℤ, pos, codes};
ghost use Rattle.std.specs.Str.{chars};
ghost use Rattle.data_model.specs.Trees.{Trees};
ghost use Rattle.values.specs.Examples.{minimum, trees};
ghost use Rattle.values.specs.Items.{IsThere};
ghost use Rattle.values.specs.Printing.{item_text};
ghost use Rattle.values.specs.declared.atom.Atom.TheVariants.{Integer};
ghost use Rattle.values.specs.declared.atom.Item.{Item};
ghost use Rattle.values.specs.declared.atom.Item.TheVariants as item;
ghost use Rattle.fault_codes.specs.declared.code.Code.TheVariants.{XPST0003};
ghost use Rattle.query_grammar.specs.declared.ast.Expr.TheVariants as e;
ghost use Rattle.query_grammar.specs.declared.ast.Name.TheVariants.{Written};
ghost use Rattle.query_grammar.specs.declared.ast.Sign.TheVariants.{Minus};
ghost use Rattle.static_checks.specs.Static.{IsExpression, parsed};
ghost use Rattle.printed_trees.specs.Constructors.{IsPrintableItem, item_expression};
ghost use Rattle.printed_trees.specs.Examples.{lone_texts};

/// The text of an item is spelt as the item's constructor expression, at each level, and has no static fault.
pub fn printed_trees_are_expressions()
    ensures { (level : ℕ) (ts : Trees) (i : Item) → IsPrintableItem ts i → IsExpression level (chars (item_text ts i)) (item_expression ts i) }
{}

/// So it is parsed as that expression.
pub fn printed_trees_are_parsed()
    ensures { (level : ℕ) (ts : Trees) (i : Item) → IsPrintableItem ts i → parsed level (chars (item_text ts i)) ≡ Ok (item_expression ts i) }
{}

/// Nodes that can be printed, two texts without a parent among them; the texts and the expressions of some items; and the text of the least
/// integer of 64 bits, which is refused.
pub fn examples()
    ensures printable { (i : ℕ) → IsThere trees (item.Node i) → IsPrintableItem trees (item.Node i) }
    ensures element { item_expression trees (item.Node 2) ≡ e.Element (Written (codes "e")) (e.Sequence (e.Attribute (Written (codes "n")) (e.String (34 ∷ 38 ∷ 9 ∷ 10 ∷ 13 ∷ [])) ∷ e.Text (e.String (codes "t")) ∷ [])) }
    ensures empty_document { item_expression trees (item.Node 5) ≡ e.Document (e.Sequence []) }
    ensures neighbours { IsPrintableItem lone_texts (item.Node 1) × IsPrintableItem lone_texts (item.Node 2) }
    ensures empty_text { item_text lone_texts (item.Node 1) ≡ codes "text {\"\"}" }
    ensures empty_text_is_parsed { parsed 1 (codes "text {\"\"}") ≡ Ok (e.Text (e.String [])) }
    ensures negative { item_expression trees (item.Atomic (Integer (neg_ℤ (pos 7)))) ≡ e.Signed (Minus ∷ []) (e.Integer 7) }
    ensures least { parsed 1 (item_text trees (item.Atomic (Integer minimum))) ≡ Err XPST0003 }
{}
