//! The words of a command, whose parts are read one after another.
ghost use Rattle.std.specs.Prelude.{◌≡◌, ◌≤◌, true, Ok, length, map, string_bytes, IfOk, IfErr};
ghost use Rattle.sym_model.specs.Grammar.{all_entries};
ghost use Rattle.sym_model.specs.Permutation.{kept};
ghost use Rattle.sym_model.specs.PrintedBlock.{decimal_value};
ghost use Rattle.sym_model.specs.WordForms.{is_one_line, row_limit, partition, numbers, factors};
ghost use Rattle.sym_model.specs.WordForms.{letters as letters_said};
ghost use Rattle.calc_words.specs.Parts.{is_clear, AreCut};
ghost use Rattle.calc_words.specs.ReadParts.{entry_named, HasParts, IsRefusalAs, AreFineTo};
ghost use Rattle.calc_words.specs.ReadParts.{IsNext, IsPartRead};
ghost use Rattle.calc_words.specs.declared.word_parts.Part.TheVariants.{MaybeForm, Rows, MaybeRows};
ghost use Rattle.calc_words.specs.declared.word_parts.Part.TheVariants.{Bound, Lines, Seed, Shape};
ghost use Rattle.calc_words.specs.declared.word_parts.Part.TheVariants.{Word as WordPart, Letters};
ghost use Rattle.calc_words.specs.declared.word_parts.Part.TheVariants.{Doubled};
ghost use Rattle.calc_words.specs.declared.word_parts.Part.TheVariants.{Factors as FactorsPart};

use crate::command_cuts::{Places, cut, piece_at};
use crate::part_values::{
    bound_of, doubled_of, factors_of, letters_of, lines_of, maybe_form_of, maybe_rows_of, rows_of,
    seed_of, shape_of, word_of,
};
use crate::word_parts::Part;
use calc_base::{Word, WordsFault};
use partitions::{Factors, Partition};
use perm_codes::Perm;
use std::alloc::Global;

/// The name of a command, the parts that follow it (at most five), and the words that are to be read
/// as the name and the parts. The parts are read in their order: the reader of a part requires that
/// the parts before it have been read without an error (`IsNext`), so that it refuses the words with
/// the first error of the command.
#[derive(Clone, Copy)]
pub(crate) struct CommandWords<'a>(
    pub(crate) &'a str,
    pub(crate) &'a [Part],
    pub(crate) &'a [String],
);

impl<'a> CommandWords<'a> {
    /// The places of the parts in the words; or the refusal at the place of the first error of
    /// syntax.
    pub(crate) fn places(&self) -> Result<Places, WordsFault>
        requires few { length self.now.1.now ≤ 5 }
        requires clear { is_clear self.now.1.now ≡ true }
        requires named { HasParts (entry_named self.now.0.now all_entries) self.now.0.now
            self.now.1.now }
        ensures cut { IfOk result (λ q. AreCut self.entry.now.0.now
            self.entry.now.1.now q (map string_bytes self.entry.now.2.now)) }
        ensures fine { IfOk result (λ q. AreFineTo self.entry.now.0.now
            self.entry.now.1.now q (map string_bytes self.entry.now.2.now) 0) }
        ensures wrong { IfErr result (λ fault.
            IsRefusalAs (entry_named self.entry.now.0.now all_entries)
            (map string_bytes self.entry.now.2.now) fault) }
    {
        cut(self.2, self.0, self.1)
    }

    /// Reads part i, which is the option `-m` or no word: whether it is the option.
    pub(crate) fn one_line(&self, places: &Places, i: usize) -> bool
        requires { IsNext MaybeForm self.now.0.now self.now.1.now places.now
            (map string_bytes self.now.2.now) i }
        ensures { IsPartRead MaybeForm is_one_line
            self.entry.now.0.now self.entry.now.1.now places.now
            (map string_bytes self.entry.now.2.now) i (Ok result) }
    {
        let piece = piece_at(self.2, places, i);
        maybe_form_of(piece.words)
    }

    /// Reads part i, which is the option `-r` with a number of rows.
    pub(crate) fn rows(&self, places: &Places, i: usize) -> Result<u16, WordsFault>
        requires { IsNext Rows self.now.0.now self.now.1.now places.now
            (map string_bytes self.now.2.now) i }
        ensures { IsPartRead Rows (λ x. decimal_value x.1)
            self.entry.now.0.now self.entry.now.1.now places.now
            (map string_bytes self.entry.now.2.now) i result }
    {
        let piece = piece_at(self.2, places, i);
        rows_of(piece.at, piece.words)
    }

    /// Reads part i, which is the option `-r` with a number of rows, or no word.
    pub(crate) fn maybe_rows(&self, places: &Places, i: usize) -> Result<Option<u16>, WordsFault>
        requires { IsNext MaybeRows self.now.0.now self.now.1.now places.now
            (map string_bytes self.now.2.now) i }
        ensures { IsPartRead MaybeRows row_limit
            self.entry.now.0.now self.entry.now.1.now places.now
            (map string_bytes self.entry.now.2.now) i result }
    {
        let piece = piece_at(self.2, places, i);
        maybe_rows_of(piece.at, piece.words)
    }

    /// Reads part i, which is a number of rows or columns, or a level.
    pub(crate) fn bound(&self, places: &Places, i: usize) -> Result<u16, WordsFault>
        requires { IsNext Bound self.now.0.now self.now.1.now places.now
            (map string_bytes self.now.2.now) i }
        ensures { IsPartRead Bound decimal_value
            self.entry.now.0.now self.entry.now.1.now places.now
            (map string_bytes self.entry.now.2.now) i result }
    {
        let piece = piece_at(self.2, places, i);
        bound_of(piece.at, piece.words)
    }

    /// Reads part i, which is the number of lines of `work`.
    pub(crate) fn lines(&self, places: &Places, i: usize) -> Result<u16, WordsFault>
        requires { IsNext Lines self.now.0.now self.now.1.now places.now
            (map string_bytes self.now.2.now) i }
        ensures { IsPartRead Lines decimal_value
            self.entry.now.0.now self.entry.now.1.now places.now
            (map string_bytes self.entry.now.2.now) i result }
    {
        let piece = piece_at(self.2, places, i);
        lines_of(piece.at, piece.words)
    }

    /// Reads part i, which is the seed of `work`.
    pub(crate) fn seed(&self, places: &Places, i: usize) -> Result<u32, WordsFault>
        requires { IsNext Seed self.now.0.now self.now.1.now places.now
            (map string_bytes self.now.2.now) i }
        ensures { IsPartRead Seed decimal_value
            self.entry.now.0.now self.entry.now.1.now places.now
            (map string_bytes self.entry.now.2.now) i result }
    {
        let piece = piece_at(self.2, places, i);
        seed_of(piece.at, piece.words)
    }

    /// Reads part i, which is a partition.
    pub(crate) fn shape(
        &self,
        alloc: Global,
        places: &Places,
        i: usize,
    ) -> Result<Partition, WordsFault>
        requires { IsNext Shape self.now.0.now self.now.1.now places.now
            (map string_bytes self.now.2.now) i }
        ensures { IsPartRead Shape partition
            self.entry.now.0.now self.entry.now.1.now places.now
            (map string_bytes self.entry.now.2.now) i result }
    {
        let piece = piece_at(self.2, places, i);
        shape_of(alloc, piece.at, piece.words)
    }

    /// Reads part i, which is the word of `rsk`.
    pub(crate) fn word(&self, alloc: Global, places: &Places, i: usize) -> Result<Word, WordsFault>
        requires { IsNext WordPart self.now.0.now self.now.1.now places.now
            (map string_bytes self.now.2.now) i }
        ensures { IsPartRead WordPart numbers
            self.entry.now.0.now self.entry.now.1.now places.now
            (map string_bytes self.entry.now.2.now) i result }
    {
        let piece = piece_at(self.2, places, i);
        word_of(alloc, piece.at, piece.words)
    }

    /// Reads part i, which is a permutation of at most 16 letters.
    pub(crate) fn letters(
        &self,
        alloc: Global,
        places: &Places,
        i: usize,
    ) -> Result<Perm, WordsFault>
        requires { IsNext Letters self.now.0.now self.now.1.now places.now
            (map string_bytes self.now.2.now) i }
        ensures { IsPartRead Letters (λ x. kept (letters_said x))
            self.entry.now.0.now self.entry.now.1.now places.now
            (map string_bytes self.entry.now.2.now) i result }
    {
        let piece = piece_at(self.2, places, i);
        letters_of(alloc, piece.at, piece.words)
    }

    /// Reads part i, which is a permutation of at most 8 letters.
    pub(crate) fn doubled(
        &self,
        alloc: Global,
        places: &Places,
        i: usize,
    ) -> Result<Perm, WordsFault>
        requires { IsNext Doubled self.now.0.now self.now.1.now places.now
            (map string_bytes self.now.2.now) i }
        ensures { IsPartRead Doubled (λ x. kept (letters_said x))
            self.entry.now.0.now self.entry.now.1.now places.now
            (map string_bytes self.entry.now.2.now) i result }
    {
        let piece = piece_at(self.2, places, i);
        doubled_of(alloc, piece.at, piece.words)
    }

    /// Reads part i, which is a list of factors.
    pub(crate) fn factors(
        &self,
        alloc: Global,
        places: &Places,
        i: usize,
    ) -> Result<Factors, WordsFault>
        requires { IsNext FactorsPart self.now.0.now self.now.1.now places.now
            (map string_bytes self.now.2.now) i }
        ensures { IsPartRead FactorsPart factors
            self.entry.now.0.now self.entry.now.1.now places.now
            (map string_bytes self.entry.now.2.now) i result }
    {
        let piece = piece_at(self.2, places, i);
        factors_of(alloc, piece.at, piece.words)
    }
}
