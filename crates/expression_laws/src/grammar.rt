//! The grammar of expressions is unambiguous.

ghost use Rattle.std.specs.Prelude.{◌≡◌, ℕ, List};
ghost use Rattle.sym_model.specs.Expression.{Tree};
ghost use Rattle.sym_model.specs.Phrase.{Phrase, SpellsPhrase, SpellsTree};

/// A word (list of bytes) spells at most one phrase, the syntax tree with the digits and
/// parentheses of the word, and at most one expression (`Tree`).
pub fn grammar_law()
    ensures one_phrase { (word : List ℕ) (p q : Phrase) → SpellsPhrase word p → SpellsPhrase word q
        → p ≡ q }
    ensures one_expression { (word : List ℕ) (e f : Tree) → SpellsTree word e → SpellsTree word f
        → e ≡ f }
{}
