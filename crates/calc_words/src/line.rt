//! The words of a line of a batch, and the lines that are skipped.
ghost use Rattle.std.specs.Prelude.{◌≡◌, ◌<◌, ◌≤◌, ◌++◌, ◌∷◌, [], IfOk, OnOk, map, string_bytes};
ghost use Rattle.std.specs.Prelude.{get_or, take, length};
ghost use Rattle.sym_model.specs.BatchLine.{words_of_line, without_return as line_without_return};
ghost use Rattle.calc_words.specs.LineBytes.{seen, seen_byte, word_with_bytes};
ghost use Rattle.calc_words.specs.LineBytes.{is_space as is_space_byte, is_passed_over};

use calc_base::NoMemory;
use std::alloc::Global;

/// Whether the byte separates words: a space or a tab.
fn is_space(byte: u8) -> bool
    ensures { result ≡ is_space_byte byte }
{
    byte == b' ' || byte == b'\t'
}

/// `?` for a byte outside ASCII, and any other byte itself. No word of a command has a byte outside
/// ASCII or a `?`.
fn kept_byte(byte: u8) -> u8
    ensures { result ≡ seen_byte byte }
{
    if byte < 128 { byte } else { b'?' }
}

/// Appends `byte` to a word, or `?` if the byte is outside ASCII.
fn add_byte(word: &mut String, byte: u8) -> Result<(), NoMemory>
    ensures { OnOk result (string_bytes word.new ≡ string_bytes word.old ++ seen_byte byte ∷ []) }
{
    word.push(char::from(kept_byte(byte)))?;
    Ok(())
}

/// Makes the word at the index `at` empty; appends an empty word if there is none at this index.
fn start_word(alloc: Global, words: &mut Vec<String>, at: usize) -> Result<(), NoMemory>
    requires { at ≤ length words.old.items }
    ensures front { OnOk result (take at (map string_bytes words.new.items)
        ≡ take at (map string_bytes words.old.items)) }
    ensures empty { OnOk result (get_or (map string_bytes words.new.items) at [] ≡ []) }
    ensures within { OnOk result (at < length words.new.items) }
{
    if at < words.len() {
        words[at].clear();
        return Ok(());
    }
    words.push(String::new(alloc))?;
    Ok(())
}

/// Ends the word at the index `done`, and makes the next one empty; does nothing if the word is
/// empty. Returns the number of words that have ended.
fn end_word(alloc: Global, words: &mut Vec<String>, done: usize) -> Result<usize, NoMemory>
    requires { done < length words.old.items }
    ensures ended { IfOk result (λ n. take n (map string_bytes words.new.items)
        ≡ take done (map string_bytes words.old.items)
        ++ word_with_bytes (get_or (map string_bytes words.old.items) done [])) }
    ensures empty { IfOk result (λ n. get_or (map string_bytes words.new.items) n [] ≡ []) }
    ensures within { IfOk result (λ n. n < length words.new.items) }
{
    if words[done].is_empty() {
        return Ok(done);
    }
    start_word(alloc, words, done + 1)?;
    Ok(done + 1)
}

/// Makes `words` the words of a line, separated by spaces and tabs, with `?` for each byte outside
/// ASCII. No word of a command has a byte outside ASCII or a `?`. The memory of the words before is
/// used again.
pub fn line_words(alloc: Global, words: &mut Vec<String>, line: &[u8]) -> Result<(), NoMemory>
    ensures { OnOk result (map string_bytes words.new.items
        ≡ map seen (words_of_line line.now)) }
{
    start_word(alloc, words, 0)?;
    let mut done: usize = 0;
    for byte in line {
        if is_space(*byte) {
            done = end_word(alloc, words, done)?;
            continue;
        }
        add_byte(&mut words[done], *byte)?;
    }
    done = end_word(alloc, words, done)?;
    words.truncate(done);
    Ok(())
}

/// The line without the carriage return at its end, if there is one.
pub fn without_return(line: &[u8]) -> &[u8]
    ensures { result.now ≡ line_without_return line.now }
{
    let Some((last, front)) = line.split_last() else {
        return line;
    };
    if *last == b'\r' { front } else { line }
}

/// Whether a line of these words is skipped: it has no word, or the first word begins with `#`.
pub fn are_passed_over(words: &[String]) -> bool
    ensures { result ≡ is_passed_over (map string_bytes words.now) }
{
    match words.first() {
        None => true,
        Some(word) => word.as_bytes().first() == Some(&b'#'),
    }
}
