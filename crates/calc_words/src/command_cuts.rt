//! The division of the words of a command into its parts (`Part`).
ghost use Rattle.std.specs.Prelude.{◌≡◌, ◌≤◌, ◌<◌, ◌+◌, ◌-◌, ◌^◌, ℕ, true, slice_index_or, List};
ghost use Rattle.std.specs.Prelude.{[], ◌∷◌, map, length, drop, string_bytes, IfOk, IfErr};
ghost use Rattle.sym_model.specs.Entry.{Entry};
ghost use Rattle.calc_words.specs.Cutting.{IsWrongAt};
ghost use Rattle.calc_words.specs.Parts.{form_of, command_form, is_clear, IsPiece, IsCutTo, AreCut};
ghost use Rattle.calc_words.specs.Parts.{AreCutUnread};
ghost use Rattle.calc_words.specs.Reading.{IsRefusal};
ghost use Rattle.calc_words.specs.declared.word_parts.Part.TheVariants.{Expression};

use crate::offence::syntax;
use crate::splitting::behind;
use crate::word_parts::{Part, byte_of, taken};
use calc_base::WordsFault;

/// Entry i is the index of the first word of part i of a command, both counted from 0; the entry
/// after the last part is the index of the word after that part. Entry 0 is 1, as word 0 is the
/// name. No command has more than five parts.
pub type Places = [usize; 6];

/// The place of the first error of syntax in a list of words.
#[derive(Clone, Copy)]
struct Wrong {
    /// The number of words from the first wrong word to the end of the list; 0 if no word is wrong,
    /// but a word is missing at the end.
    left: usize,
    /// The index, in the first wrong word, of the byte at which the error is.
    byte: u64,
}

/// If the words after word 0 (the name) begin with the first `count` parts, the indices (`Places`)
/// of the first words of these parts and of the word after them; otherwise the place of the first
/// error of syntax.
#[inline(always)]
fn places_of(words: &[String], parts: &[Part], count: usize) -> Result<Places, Wrong>
    requires some { 0 < length words.now }
    requires few { length parts.now ≤ 5 }
    requires clear { is_clear parts.now ≡ true }
    requires within { count ≤ length parts.now }
    ensures cut { IfOk result (λ q.
        IsCutTo parts.now count (slice_index_or q count 0) q (map string_bytes words.now)) }
    ensures wrong { IfErr result (λ w.
        IsWrongAt (form_of parts.now) (drop 1 (map string_bytes words.now)) w.left w.byte) }
{
    let mut places = [1; 6];
    let mut at = 1;
    for i in 0..count {
        let part = parts[i];
        let n = match taken(part, &words[at..]) {
            Ok(n) => n,
            Err(left) => {
                let byte = byte_of(part, &words[at..]);
                return Err(Wrong { left, byte });
            }
        };
        at += n;
        places[i + 1] = at;
    }
    Ok(places)
}

/// If the words are the name and the words of the parts, the indices (`Places`) of the first words
/// of the parts; otherwise the refusal at the place of the first error of syntax.
pub fn cut(words: &[String], name: &str, parts: &[Part]) -> Result<Places, WordsFault>
    requires few { length parts.now ≤ 5 }
    requires clear { is_clear parts.now ≡ true }
    ensures cut { IfOk result (λ q. AreCut name.now parts.now q (map string_bytes words.now)) }
    ensures wrong { IfErr result (λ fault. (e : Entry) → e.form ≡ command_form name.now parts.now
        → IsRefusal (e ∷ []) (map string_bytes words.now) fault) }
{
    let Some(_) = behind(words, name) else {
        return Err(syntax(0, 0));
    };
    match places_of(words, parts, parts.len()) {
        Ok(places) => {
            let at = places[parts.len()];
            if at < words.len() {
                return Err(syntax(at as u64, 0));
            }
            Ok(places)
        }
        Err(wrong) => Err(syntax((words.len() - wrong.left) as u64, wrong.byte)),
    }
}

/// If the words are the name and the words of the parts, the last of which is an expression, the
/// indices (`Places`) of the first words of the parts; otherwise the refusal at the place of the
/// first error of syntax. If exactly one word is left for the expression, the word is not tested
/// here: the reader of expressions tests it.
pub fn cut_unread(words: &[String], name: &str, parts: &[Part]) -> Result<Places, WordsFault>
    requires few { length parts.now ≤ 5 }
    requires clear { is_clear parts.now ≡ true }
    requires last { drop (length parts.now - 1) parts.now ≡ Expression ∷ [] }
    ensures cut { IfOk result (λ q.
        AreCutUnread name.now parts.now q (map string_bytes words.now)) }
    ensures wrong { IfErr result (λ fault. (e : Entry) → e.form ≡ command_form name.now parts.now
        → IsRefusal (e ∷ []) (map string_bytes words.now) fault) }
{
    let Some(_) = behind(words, name) else {
        return Err(syntax(0, 0));
    };
    let last = parts.len() - 1;
    match places_of(words, parts, last) {
        Ok(places) => {
            if places[last] + 1 != words.len() {
                return cut(words, name, parts);
            }
            let mut places = places;
            places[last + 1] = words.len();
            Ok(places)
        }
        Err(wrong) => Err(syntax((words.len() - wrong.left) as u64, wrong.byte)),
    }
}

/// The words of one part of a command.
#[derive(Clone, Copy)]
pub struct Piece<'a> {
    /// The index of the first word of the part among the words of the command.
    pub at: u64,
    /// The words of the part.
    pub words: &'a [String],
}

/// The words of part i of a command, counted from 0.
#[inline(always)]
pub fn piece_at<'a>(words: &'a [String], places: &Places, i: usize) -> Piece<'a>
    requires { i < 5 }
    ensures is { (k : ℕ) (us : List (List ℕ))
        → IsPiece places.now (map string_bytes words.now) i k us
        → (result.at ≡ k) × (map string_bytes result.words.now ≡ us) }
    ensures room { result.at + length result.words.now + 1 < 2 ^ 64 }
{
    let end = places[i + 1].min(words.len());
    let at = places[i].min(end);
    Piece {
        at: at as u64,
        words: &words[at..end],
    }
}
