//! The lines of terms, collected in memory.
ghost use Rattle.std.specs.Prelude.{◌≡◌, ◌↔◌, ◌++◌, [], IsTrue, OnOk, IfOk, FitsSigned};
ghost use Rattle.std.specs.Int.{w128};
ghost use Rattle.fraction_laws.specs.Fractions.{whole};
ghost use Rattle.sym_model.specs.Kind.{label_rules, product};
ghost use Rattle.sym_model.specs.PrintedBlock.{line_by};
ghost use Rattle.expansion_printer.specs.Blocks.{block_of};

use crate::block::put_line;
use crate::text_buffer::TextBuffer;
use calc_base::{GrowingSink, NoMemory};
use coeff_rings::Int;
use partitions::Partition;
use std::alloc::Global;
use std::marker::Model;

/// The lines of terms whose labels are partitions, collected in memory one after another. In
/// contracts, a value of this type is its text.
#[derive(Drop)]
pub struct LineText {
    text: TextBuffer,
    sink: GrowingSink,
}

impl Model for LineText {
    ghost use Rattle.std.specs.Prelude.{◌≡◌, ◌++◌, List, ℕ, true};

    ghost Value = { List ℕ };

    ghost view = { λ l. l.sink.bytes ++ l.text.bytes };

    ghost invariant = { λ l. l.text.well ≡ true };
}

impl LineText {
    /// No lines. Memory is allocated only by later calls.
    pub fn new(alloc: Global) -> LineText
        ensures { result ≡ [] }
    {
        LineText {
            text: TextBuffer::new(),
            sink: GrowingSink::new(alloc),
        }
    }

    /// Appends the line of a term.
    pub fn push(&mut self, label: &Partition, c: Int) -> Result<(), NoMemory>
        ensures line { OnOk result (self.new
            ≡ self.old ++ line_by (label_rules product) (label.now, whole c)) }
        ensures held { FitsSigned w128 c }
    {
        put_line(label, c, &mut self.text, &mut self.sink);
        if self.text.has_failed() {
            // A part of the text is lost, and no call needs the rest.
            self.text = TextBuffer::new();
            return Err(NoMemory);
        }
        Ok(())
    }

    /// The block that has these lines: they, or the line `0` if there is no line.
    pub fn finish(self) -> Result<GrowingSink, NoMemory>
        ensures { IfOk result (λ sink. sink.bytes ≡ block_of self) }
    {
        let is_empty = self.is_empty();
        let LineText { text, sink } = self;
        let mut text = text;
        let mut sink = sink;
        if is_empty {
            text.put(b"0\n", &mut sink);
        }
        match text.finish(&mut sink) {
            Ok(()) => Ok(sink),
            Err(_) => Err(NoMemory),
        }
    }

    /// Whether there is no line.
    fn is_empty(&self) -> bool
        ensures { IsTrue result ↔ (self.now ≡ []) }
    {
        self.text.is_empty() && self.sink.bytes().is_empty()
    }
}
