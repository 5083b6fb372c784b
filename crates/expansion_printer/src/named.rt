//! The labels of the terms in a block.
ghost use Rattle.std.specs.Prelude.{List, ℕ, codes};
ghost use Rattle.expansion_printer.specs.Gathering.{Gathers};
ghost use Rattle.sym_model.specs.Kind.{LabelRules, label_rules, expansion, pairs, powers};
ghost use Rattle.sym_model.specs.Kind.{permutations, polynomial, shifts};

use crate::numbers::{put_label, put_number};
use crate::text_buffer::TextBuffer;
use calc_base::Sink;
use linear_combinations::Label;
use partitions::Partition;
use perm_codes::Perm;
use sparse_polys::{Monomial, Pair, Power, Shifted};

/// Labels that follow a coefficient on a line of a block.
pub(crate) trait Named: Label {
    // The rules by which these labels are printed in a block and read back.
    ghost line_rules: { LabelRules Self };

    /// Writes the text of the label, with the spaces in front of it.
    fn put_name<K: Sink>(&self, text: &mut TextBuffer, sink: &mut K)
        ensures { Gathers text.old (K.seen sink.old) text.new (K.seen sink.new)
            (line_rules.text self.now) };
}

impl Named for Partition {
    ghost line_rules = { label_rules expansion };

    fn put_name<K: Sink>(&self, text: &mut TextBuffer, sink: &mut K) {
        put_spaces(text, sink);
        put_label(self.parts(), text, sink);
    }
}

impl Named for Pair {
    ghost line_rules = { label_rules pairs };

    fn put_name<K: Sink>(&self, text: &mut TextBuffer, sink: &mut K) {
        self.first.put_name(text, sink);
        text.put_byte(b' ', sink);
        put_label(self.second.parts(), text, sink);
    }
}

impl Named for Power {
    ghost line_rules = { label_rules powers };

    fn put_name<K: Sink>(&self, text: &mut TextBuffer, sink: &mut K) {
        text.put(b"  q^", sink);
        put_number(u64::from(self.power), text, sink);
        self.shape.put_name(text, sink);
    }
}

impl Named for Perm {
    ghost line_rules = { label_rules permutations };

    fn put_name<K: Sink>(&self, text: &mut TextBuffer, sink: &mut K) {
        put_spaces(text, sink);
        put_label(self.letters(), text, sink);
    }
}

impl Named for Monomial {
    ghost line_rules = { label_rules polynomial };

    fn put_name<K: Sink>(&self, text: &mut TextBuffer, sink: &mut K) {
        put_spaces(text, sink);
        put_label(self.exponents(), text, sink);
    }
}

impl Named for Shifted {
    ghost line_rules = { label_rules shifts };

    fn put_name<K: Sink>(&self, text: &mut TextBuffer, sink: &mut K) {
        self.perm.put_name(text, sink);
        text.put_byte(b' ', sink);
        put_label(self.y.exponents(), text, sink);
    }
}

/// Writes the two spaces in front of a label.
#[inline]
fn put_spaces<K: Sink>(text: &mut TextBuffer, sink: &mut K)
    ensures { Gathers text.old (K.seen sink.old) text.new (K.seen sink.new) (codes "  ") }
{
    text.put_byte(b' ', sink);
    text.put_byte(b' ', sink);
}
