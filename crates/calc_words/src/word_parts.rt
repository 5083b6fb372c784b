//! The parts that the words of a command are divided into, and for each part the number of words at
//! the front of a list that belong to it.
ghost use Rattle.std.specs.Prelude.{ℕ, ◌≡◌, ◌++◌, ◌<◌, map, length, string_bytes, IfOk, IfErr};
ghost use Rattle.std.specs.Prelude.{IsTrue, ◌↔◌};
ghost use Rattle.sym_model.specs.Form.{EachOf, word, number, target, formula};
ghost use Rattle.sym_model.specs.Grammar.{all_bases};
ghost use Rattle.sym_model.specs.WordForms.{the, optional, rows_words, form_words, partition_words};
ghost use Rattle.sym_model.specs.WordForms.{permutation_words, factors_words, row_words};
ghost use Rattle.sym_model.specs.WordForms.{tableau_words, from_words};
ghost use Rattle.calc_words.specs.Cutting.{Takes, StandsBehind, StopsIn, IsByte};
ghost use Rattle.calc_words.specs.FactorWords.{IsPieceWord};
ghost use Rattle.calc_words.specs.NumberRuns.{BeginsOtherwise};
ghost use Rattle.calc_words.specs.Parts.{form_of_part};

use crate::numbers::is_number;
use crate::splitting::{behind, first_number, first_target, numbers};
use expression_reading::wrong_byte;

/// A part of the words of a command.
#[derive(Clone, Copy, Debug)]
pub enum Part {
    /// The word `-`.
    Minus,
    /// The word `/`.
    Slash,
    /// The option `-m`, or no word.
    MaybeForm,
    /// The words `-r` and a number of rows.
    Rows,
    /// The words `-r` and a number of rows, or no word.
    MaybeRows,
    /// A number of rows or columns, or a level, in one word.
    Bound,
    /// The number of lines for the command `work`.
    Lines,
    /// The seed for the command `work`.
    Seed,
    /// The numbers of a partition; there may be none.
    Shape,
    /// The letters of the word of `rsk`; there may be none.
    Word,
    /// The letters of a permutation, at least one.
    Letters,
    /// The letters of a permutation in a product of double Schubert polynomials, at least one.
    Doubled,
    /// Two or more partitions with `-` between them.
    Factors,
    /// The rows of a tableau with `/` between them; `.` is a row without numbers.
    Tableau,
    /// `-from` and the rows of a tableau, or no word.
    MaybeFrom,
    /// The letter of a target basis.
    Target,
    /// An expression in one word.
    Expression,
}

/// Returns 1 if the first word is `text`. The error is the number of words from the first wrong
/// word to the end.
fn the_word(words: &[String], text: &str) -> Result<usize, usize>
    ensures ok { IfOk result (λ n. Takes (the text.now) (map string_bytes words.now) n) }
    ensures wrong { IfErr result (λ left.
        StopsIn (the text.now) (map string_bytes words.now) left) }
{
    match behind(words, text) {
        Some(_) => Ok(1),
        None => Err(words.len()),
    }
}

/// Returns 1 if the first word is `-m`, and otherwise 0.
fn maybe_form(words: &[String]) -> usize
    ensures { Takes (optional form_words) (map string_bytes words.now) result }
{
    match behind(words, "-m") {
        Some(_) => 1,
        None => 0,
    }
}

/// Returns 2 if the words begin with `-r` and a number. The error is the number of words from the
/// first wrong word to the end.
fn rows(words: &[String]) -> Result<usize, usize>
    ensures ok { IfOk result (λ n. Takes rows_words (map string_bytes words.now) n) }
    ensures wrong { IfErr result (λ left. StopsIn rows_words (map string_bytes words.now) left) }
{
    let Some(more) = behind(words, "-r") else {
        return Err(words.len());
    };
    match first_number(more) {
        Some(_) => Ok(2),
        None => Err(more.len()),
    }
}

/// Returns 2 if the words begin with `-r` and a number, and 0 if they do not begin with `-r`. The
/// error is the number of words from the first wrong word to the end.
fn maybe_rows(words: &[String]) -> Result<usize, usize>
    ensures ok { IfOk result (λ n. Takes (optional rows_words) (map string_bytes words.now) n) }
    ensures wrong { IfErr result (λ left.
        StopsIn (optional rows_words) (map string_bytes words.now) left) }
{
    let Some(more) = behind(words, "-r") else {
        return Ok(0);
    };
    match first_number(more) {
        Some(_) => Ok(2),
        None => Err(more.len()),
    }
}

/// Returns 1 if the first word is a number. The error is the number of words from the first wrong
/// word to the end.
fn one_number(words: &[String]) -> Result<usize, usize>
    ensures ok { IfOk result (λ n. Takes (word number) (map string_bytes words.now) n) }
    ensures wrong { IfErr result (λ left. StopsIn (word number) (map string_bytes words.now) left) }
{
    match first_number(words) {
        Some(_) => Ok(1),
        None => Err(words.len()),
    }
}

/// The number of words in the longest run of numbers at the front.
fn list(words: &[String]) -> usize
    ensures { Takes partition_words (map string_bytes words.now) result }
{
    let (list, _) = numbers(words);
    list.len()
}

/// The number of words in the longest run of numbers at the front, at least one. The error is the
/// number of words from the first wrong word to the end.
fn letters(words: &[String]) -> Result<usize, usize>
    ensures ok { IfOk result (λ n. Takes permutation_words (map string_bytes words.now) n) }
    ensures wrong { IfErr result (λ left.
        StopsIn permutation_words (map string_bytes words.now) left) }
{
    let Some(_) = first_number(words) else {
        return Err(words.len());
    };
    let (list, _) = numbers(words);
    Ok(list.len())
}

/// Whether the word is a number or `-`.
fn is_piece(word: &String) -> bool
    ensures { IsTrue result ↔ IsPieceWord (string_bytes word.now) }
{
    is_number(word.as_bytes()) || word.as_str() == "-"
}

/// The longest run of words at the front that are numbers or `-`, and the words after it.
fn pieces(words: &[String]) -> (&[String], &[String])
    ensures parts { map string_bytes words.now
        ≡ map string_bytes result.0.now ++ map string_bytes result.1.now }
    ensures pieces { EachOf IsPieceWord (map string_bytes result.0.now) }
    ensures rest { BeginsOtherwise IsPieceWord (map string_bytes result.1.now) }
{
    for (count, word) in words.iter().enumerate() {
        if !is_piece(word) {
            return words.split_at(count);
        }
    }
    words.split_at(words.len())
}

/// The number of words at the front that are two or more lists of numbers with `-` between them.
/// The error is the number of words from the first wrong word to the end.
fn factors(words: &[String]) -> Result<usize, usize>
    ensures ok { IfOk result (λ n. Takes factors_words (map string_bytes words.now) n) }
    ensures wrong { IfErr result (λ left. StopsIn factors_words (map string_bytes words.now) left) }
{
    let (_, rest) = numbers(words);
    let Some(later) = behind(rest, "-") else {
        return Err(rest.len());
    };
    let (_, rest) = pieces(later);
    Ok(words.len() - rest.len())
}

/// If the words begin with a row of a tableau, the words after this row; otherwise the number of
/// words from the first wrong word to the end.
fn behind_row(words: &[String]) -> Result<&[String], usize>
    ensures ok { IfOk result (λ rest.
        StandsBehind row_words (map string_bytes rest.now) (map string_bytes words.now)) }
    ensures shorter { IfOk result (λ rest. length rest.now < length words.now) }
    ensures wrong { IfErr result (λ left. StopsIn row_words (map string_bytes words.now) left) }
{
    if let Some(rest) = behind(words, ".") {
        return Ok(rest);
    }
    let Some(_) = first_number(words) else {
        return Err(words.len());
    };
    let (_, rest) = numbers(words);
    Ok(rest)
}

/// The number of words at the front that are the rows of a tableau. The error is the number of
/// words from the first wrong word to the end. This function is not inlined, so that its caller
/// `taken`, which is called for the parts of all kinds, stays small.
#[inline(never)]
fn tableau(words: &[String]) -> Result<usize, usize>
    ensures ok { IfOk result (λ n. Takes tableau_words (map string_bytes words.now) n) }
    ensures wrong { IfErr result (λ left. StopsIn tableau_words (map string_bytes words.now) left) }
{
    let mut rest = behind_row(words)?;
    while let Some(more) = behind(rest, "/") {
        rest = behind_row(more)?;
    }
    Ok(words.len() - rest.len())
}

/// The number of words at the front that are `-from` and the rows of a tableau; 0 if the first word
/// is not `-from`. The error is the number of words from the first wrong word to the end.
fn maybe_from(words: &[String]) -> Result<usize, usize>
    ensures ok { IfOk result (λ n. Takes (optional from_words) (map string_bytes words.now) n) }
    ensures wrong { IfErr result (λ left.
        StopsIn (optional from_words) (map string_bytes words.now) left) }
{
    let Some(more) = behind(words, "-from") else {
        return Ok(0);
    };
    let rows = tableau(more)?;
    Ok(1 + rows)
}

/// Returns 1 if the first word is the letter of a target basis. The error is the number of words
/// from the first wrong word to the end.
fn letter(words: &[String]) -> Result<usize, usize>
    ensures ok { IfOk result (λ n. Takes (word (target all_bases)) (map string_bytes words.now) n) }
    ensures wrong { IfErr result (λ left.
        StopsIn (word (target all_bases)) (map string_bytes words.now) left) }
{
    match first_target(words) {
        Some(_) => Ok(1),
        None => Err(words.len()),
    }
}

/// Returns 1 if the first word is an expression. The error is the number of words from the first
/// wrong word to the end.
#[inline(never)]
fn expression(words: &[String]) -> Result<usize, usize>
    ensures ok { IfOk result (λ n. Takes (word formula) (map string_bytes words.now) n) }
    ensures wrong { IfErr result (λ left.
        StopsIn (word formula) (map string_bytes words.now) left) }
{
    let Some((first, _)) = words.split_first() else {
        return Err(0);
    };
    match wrong_byte(first.as_bytes()) {
        Some(_) => Err(words.len()),
        None => Ok(1),
    }
}

/// The byte of the error in the first word, which is no expression: the length of its longest
/// prefix that begins an expression. If there is no word, 0.
fn expression_byte(words: &[String]) -> u64
    ensures { (left : ℕ) (w : StopsIn (word formula) (map string_bytes words.now) left)
        → IsByte (word formula) w.0.before w.0.after result }
{
    let Some((first, _)) = words.split_first() else {
        return 0;
    };
    match wrong_byte(first.as_bytes()) {
        Some(byte) => byte,
        None => 0,
    }
}

/// If the words do not begin with words of the part, the byte of the error in the first wrong word:
/// 0 unless the part is an expression.
#[inline(never)]
pub(crate) fn byte_of(part: Part, words: &[String]) -> u64
    ensures { (left : ℕ) (w : StopsIn (form_of_part part) (map string_bytes words.now) left)
        → IsByte (form_of_part part) w.0.before w.0.after result }
{
    match part {
        Part::Expression => expression_byte(words),
        _ => 0,
    }
}

/// If the words begin with words of the part, the number of these words; otherwise the number of
/// words from the first wrong word to the end.
pub(crate) fn taken(part: Part, words: &[String]) -> Result<usize, usize>
    ensures ok { IfOk result (λ n. Takes (form_of_part part) (map string_bytes words.now) n) }
    ensures wrong { IfErr result (λ left.
        StopsIn (form_of_part part) (map string_bytes words.now) left) }
{
    match part {
        Part::Minus => the_word(words, "-"),
        Part::Slash => the_word(words, "/"),
        Part::MaybeForm => Ok(maybe_form(words)),
        Part::Rows => rows(words),
        Part::MaybeRows => maybe_rows(words),
        Part::Bound | Part::Lines | Part::Seed => one_number(words),
        Part::Shape | Part::Word => Ok(list(words)),
        Part::Letters | Part::Doubled => letters(words),
        Part::Factors => factors(words),
        Part::Tableau => tableau(words),
        Part::MaybeFrom => maybe_from(words),
        Part::Target => letter(words),
        Part::Expression => expression(words),
    }
}
