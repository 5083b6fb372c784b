//! The text of a list of terms in each printed form, a block (a line for each term) or one line in
//! a basis, and the one list that is read back from it.

ghost use Rattle.std.specs.Prelude.{◌≡◌, ℕ, List, IsTrue, Some};
ghost use Rattle.sym_model.specs.Expansion.{Terms};
ghost use Rattle.sym_model.specs.Kind.{Kind, Label, label_rules};
ghost use Rattle.sym_model.specs.Canonical.{IsCanonicalBy, is_printable};
ghost use Rattle.sym_model.specs.PrintedForm.{PrintedForm, text_in, read_in};

/// In each printed form, let a list be canonical (labels within the limits, each once and in the
/// printed order; coefficients in lowest terms, not 0), and let its numerators and denominators
/// have at most 128 bits. Then its text is read back as this list. Conversely, if a text is read
/// back as a list, then this list is canonical, its numerators and denominators have at most 128
/// bits, and the text is the text of this list.
pub fn printed_form_law()
    ensures reads { (form : PrintedForm) (kind : Kind) (terms : Terms (Label kind))
        → IsCanonicalBy (label_rules kind) terms
        → IsTrue (is_printable terms) → read_in form kind (text_in form kind terms) ≡ Some terms }
    ensures is_text { (form : PrintedForm) (kind : Kind) (text : List ℕ)
        (terms : Terms (Label kind))
        → read_in form kind text ≡ Some terms → text ≡ text_in form kind terms }
    ensures canonical { (form : PrintedForm) (kind : Kind) (text : List ℕ)
        (terms : Terms (Label kind))
        → read_in form kind text ≡ Some terms → IsCanonicalBy (label_rules kind) terms }
    ensures printable { (form : PrintedForm) (kind : Kind) (text : List ℕ)
        (terms : Terms (Label kind))
        → read_in form kind text ≡ Some terms → IsTrue (is_printable terms) }
{}
