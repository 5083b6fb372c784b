//! The search for the next word whose letters all fit in a board (`Board::admits`). The word found
//! is written over the current word of the board.
ghost use Rattle.std.specs.Prelude.{◌≡◌, ◌+◌, ◌-◌, ◌<◌, ◌≤◌, true, false, [], length, take, drop};
ghost use Rattle.std.specs.Bool.{OnTrue, OnFalse};
ghost use Rattle.tableau_iter.specs.Positions.{Begins, IsReady, IsSameUpTo, passes};
ghost use Rattle.tableau_iter.specs.Walks.{completions, continued, later};

use crate::board::Board;

/// Writes to the board the first word, in lexicographic order, whose letters all fit
/// (`Board::admits`) and whose letters before `place` are the current ones; false if there is no
/// such word.
#[cycle(walk)]
pub(crate) fn first(board: &mut Board, place: usize) -> bool
    requires place { place ≤ length board.old.word }
    requires ready { IsReady place board.old }
    ensures found { OnTrue result (Begins place board.new
        (completions (passes board.old) board.old.setting.letters (length board.old.word - place)
        (take place board.old.word))) }
    ensures none { OnFalse result
        (completions (passes board.old) board.old.setting.letters (length board.old.word - place)
        (take place board.old.word) ≡ []) }
    ensures same { IsSameUpTo place board.old board.new }
    ensures whole { OnTrue result (IsReady (length board.new.word) board.new) }
    ensures back { OnFalse result (IsReady place board.new) }
{
    if place == board.len() {
        return true;
    }
    first_after(board, place, 0)
}

/// Writes to the board the first word, in lexicographic order, whose letters all fit
/// (`Board::admits`), with the current letters before `place` and a letter greater than `least` at
/// `place`; false if there is no such word.
#[cycle(walk)]
fn first_after(board: &mut Board, place: usize, least: u16) -> bool
    requires few { length board.old.word ≤ 4096 }
    requires place { place < length board.old.word }
    requires ready { IsReady place board.old }
    ensures found { OnTrue result (Begins place board.new
        (continued (passes board.old) board.old.setting.letters
        (length board.old.word - (place + 1)) (take place board.old.word) least)) }
    ensures none { OnFalse result
        (continued (passes board.old) board.old.setting.letters
        (length board.old.word - (place + 1)) (take place board.old.word) least ≡ []) }
    ensures same { IsSameUpTo place board.old board.new }
    ensures whole { OnTrue result (IsReady (length board.new.word) board.new) }
    ensures back { OnFalse result (IsReady place board.new) }
{
    let mut tried = least;
    while let Some(letter) = board.next_letter(place, tried) {
        board.put(place, letter);
        if first(board, place + 1) {
            return true;
        }
        board.take_off(place);
        tried = letter;
    }
    false
}

/// Writes to the board the next word after the current one, in lexicographic order, whose letters
/// all fit (`Board::admits`) and whose letters before `place` are the current ones; false if there
/// is no such word.
pub(crate) fn next(board: &mut Board, place: usize) -> bool
    requires place { place ≤ length board.old.word }
    requires ready { IsReady (length board.old.word) board.old }
    ensures found { OnTrue result (Begins place board.new
        (later (passes board.old) board.old.setting.letters (take place board.old.word)
        (drop place board.old.word))) }
    ensures none { OnFalse result
        (later (passes board.old) board.old.setting.letters (take place board.old.word)
        (drop place board.old.word) ≡ []) }
    ensures same { IsSameUpTo place board.old board.new }
    ensures whole { OnTrue result (IsReady (length board.new.word) board.new) }
    ensures back { OnFalse result (IsReady place board.new) }
{
    if place == board.len() {
        return false;
    }
    if next(board, place + 1) {
        return true;
    }
    let letter = board.take_off(place);
    first_after(board, place, letter)
}

/// Writes the letters of `word` to the board one by one; stops and returns false if one of them
/// does not fit (`Board::admits`).
pub(crate) fn put_all(board: &mut Board, word: &[u16]) -> bool
    requires word { length word.now ≡ length board.old.word }
    requires ready { IsReady 0 board.old }
    ensures fits { result ≡ passes board.old word.now }
    ensures word { OnTrue result (board.new.word ≡ word.now) }
    ensures same { IsSameUpTo 0 board.old board.new }
    ensures whole { OnTrue result (IsReady (length board.new.word) board.new) }
{
    for place in 0..word.len() {
        if !board.admits(place, word[place]) {
            return false;
        }
        board.put(place, word[place]);
    }
    true
}
