//! One scan of a word from left to right, without allocation and recursion: whether the word is an
//! expression, the length of its longest prefix that begins an expression, and its first error. An
//! atom of an expression is a basis element such as s[2,1], with its list of numbers. A mark is a
//! number or an opening parenthesis, that is, a place at which an error is possible.
ghost use Rattle.std.specs.Prelude.{◌≡◌, ℕ, ◌+◌, ◌-◌, ◌*◌, ◌^◌, ◌<◌, ◌≤◌, option_map};
ghost use Rattle.expression_reading.specs.Symbols.{symbol_in};
ghost use Rattle.expression_reading.specs.ScanSteps.{capped, IsSoundDigit, CanCount};
ghost use Rattle.expression_reading.specs.ScanSteps.{mode_after_factor, mode_before_factor};
ghost use Rattle.expression_reading.specs.ScanSteps.{mode_after, depth_after, number_mark};
ghost use Rattle.expression_reading.specs.ScanSteps.{mark_before, is_high, scan_start, Sees};
ghost use Rattle.expression_reading.specs.ScanSteps.{StepsTo, is_whole, IsScanned};
ghost use Rattle.expression_reading.specs.Offences.{offence_in, mark_in, first_kind};

use crate::formula::MAX_DEGREE;
use crate::offence::{Before, Mark, Offence, earlier, kind_at};
use crate::symbol::{Symbol, symbol_of};
use calc_base::LIMIT;

/// The kind of text at the end of the bytes read so far. A number is stored with the byte at which
/// it begins, and is replaced by 2^127 if it is greater.
#[derive(Clone, Copy)]
pub(crate) enum Mode {
    Start,
    Operand,
    Number {
        start: u64,
        value: u128,
    },
    Slash,
    Denominator {
        start: u64,
        value: u128,
    },
    Letter,
    List {
        before: Before,
    },
    Entry {
        before: Before,
        start: u64,
        value: u128,
    },
    Whole,
}

/// The state of the scan: the mode, the number of open parentheses, the first error, and whether
/// some number of an atom exceeds 20, the greatest degree.
#[derive(Clone, Copy)]
pub(crate) struct Scan {
    pub(crate) mode: Mode,
    pub(crate) depth: u64,
    pub(crate) first: Option<Offence>,
    pub(crate) is_high: bool,
}

/// The number with the decimal digits of `value` and one more digit, whose byte is `digit`; or
/// 2^127 if the number is greater.
pub(crate) fn extended(value: u128, digit: u8) -> u128
    requires { 48 ≤ digit }
    ensures { result ≡ capped (10 * value + (digit - 48)) }
{
    value
        .saturating_mul(10)
        .saturating_add(u128::from(digit - b'0'))
        .min(LIMIT)
}

/// The mode after a symbol that follows a whole factor; None if the symbol is invalid there.
fn after_factor(symbol: Symbol) -> Option<Mode>
    ensures { result ≡ mode_after_factor (symbol_in symbol) }
{
    match symbol {
        Symbol::Plus | Symbol::Minus | Symbol::Star => Some(Mode::Operand),
        Symbol::Close => Some(Mode::Whole),
        _ => None,
    }
}

/// The mode after a symbol at the byte `at`, at which a factor is expected; None if the symbol
/// begins no factor.
fn before_factor(at: u64, symbol: Symbol) -> Option<Mode>
    requires { IsSoundDigit (symbol_in symbol) }
    ensures { result ≡ mode_before_factor at (symbol_in symbol) }
{
    match symbol {
        Symbol::Digit(byte) => Some(Mode::Number {
            start: at,
            value: u128::from(byte - b'0'),
        }),
        Symbol::Letter(_) => Some(Mode::Letter),
        Symbol::Open => Some(Mode::Start),
        _ => None,
    }
}

/// The mode after a symbol at the byte `at`, at which a number in the list of an atom may begin;
/// None if the symbol is invalid there.
fn in_list(before: Before, at: u64, symbol: Symbol) -> Option<Mode>
    requires { IsSoundDigit (symbol_in symbol) }
    ensures { result ≡ mode_after (Mode.List before) at (symbol_in symbol) }
{
    match symbol {
        Symbol::Digit(byte) => Some(Mode::Entry {
            before,
            start: at,
            value: u128::from(byte - b'0'),
        }),
        Symbol::CloseList => (before.count == 0).then_some(Mode::Whole),
        _ => None,
    }
}

/// The mode after a symbol that follows a digit of a number in the list of an atom; None if the
/// symbol is invalid there.
fn in_entry(before: Before, start: u64, value: u128, symbol: Symbol) -> Option<Mode>
    requires digit { IsSoundDigit (symbol_in symbol) }
    requires room { before.count + 1 < 2 ^ 64 }
    ensures { (at : ℕ) → result ≡ mode_after (Mode.Entry before start value) at (symbol_in symbol) }
{
    match symbol {
        Symbol::Digit(byte) => Some(Mode::Entry {
            before,
            start,
            value: extended(value, byte),
        }),
        Symbol::Comma => Some(Mode::List {
            before: Before {
                count: before.count + 1,
                last: Some(value),
            },
        }),
        Symbol::CloseList => Some(Mode::Whole),
        _ => None,
    }
}

impl Mode {
    /// The mode after a symbol at the byte `at`, if `self` is the mode before the symbol; None if
    /// the symbol is invalid there.
    fn after(self, at: u64, symbol: Symbol) -> Option<Mode>
        requires digit { IsSoundDigit (symbol_in symbol) }
        requires room { CanCount self }
        ensures { result ≡ mode_after self at (symbol_in symbol) }
    {
        match self {
            Mode::Start => match symbol {
                Symbol::Minus => Some(Mode::Operand),
                symbol => before_factor(at, symbol),
            },
            Mode::Operand => before_factor(at, symbol),
            Mode::Number { start, value } => match symbol {
                Symbol::Digit(byte) => Some(Mode::Number {
                    start,
                    value: extended(value, byte),
                }),
                Symbol::Slash => Some(Mode::Slash),
                symbol => after_factor(symbol),
            },
            Mode::Slash => match symbol {
                Symbol::Digit(byte) => Some(Mode::Denominator {
                    start: at,
                    value: u128::from(byte - b'0'),
                }),
                _ => None,
            },
            Mode::Denominator { start, value } => match symbol {
                Symbol::Digit(byte) => Some(Mode::Denominator {
                    start,
                    value: extended(value, byte),
                }),
                symbol => after_factor(symbol),
            },
            Mode::Letter => match symbol {
                Symbol::OpenList => Some(Mode::List {
                    before: Before {
                        count: 0,
                        last: None,
                    },
                }),
                _ => None,
            },
            Mode::List { before } => in_list(before, at, symbol),
            Mode::Entry {
                before,
                start,
                value,
            } => in_entry(before, start, value, symbol),
            Mode::Whole => after_factor(symbol),
        }
    }
}

/// The number of open parentheses after a symbol, given the number before it; None if the symbol
/// closes a parenthesis that is not open.
fn depth_after(depth: u64, symbol: Symbol) -> Option<u64>
    requires { depth + 1 < 2 ^ 64 }
    ensures { result ≡ depth_after depth (symbol_in symbol) }
{
    match symbol {
        Symbol::Open => Some(depth + 1),
        Symbol::Close => depth.checked_sub(1),
        _ => Some(depth),
    }
}

/// The number at the end of the bytes read, if the mode has one, with the byte at which it begins.
fn number_mark(mode: Mode) -> Option<(u64, Mark)>
    ensures { result ≡ number_mark mode }
{
    match mode {
        Mode::Number { start, value } => Some((start, Mark::Value { value })),
        Mode::Denominator { start, value } => Some((start, Mark::Denominator { value })),
        Mode::Entry {
            before,
            start,
            value,
        } => Some((start, Mark::Entry { before, value })),
        _ => None,
    }
}

/// The mark, if there is one, that is complete when a symbol is read at the byte `at`: a number
/// that ends before the symbol, or the symbol itself if it opens a parenthesis.
fn mark_before(mode: Mode, depth: u64, at: u64, symbol: Symbol) -> Option<(u64, Mark)>
    requires { depth + 1 < 2 ^ 64 }
    ensures { result ≡ mark_before mode depth at (symbol_in symbol) }
{
    match symbol {
        Symbol::Digit(_) => None,
        Symbol::Open => Some((at, Mark::Opening { depth: depth + 1 })),
        _ => number_mark(mode),
    }
}

/// The error of a mark, with the byte at which the mark begins; None if the mark is no error.
fn offence_at(mark: (u64, Mark)) -> Option<Offence>
    ensures { option_map offence_in result
        ≡ option_map (λ kind. (mark.0, kind)) (first_kind (mark_in mark.1)) }
{
    kind_at(mark.1).map(|kind| Offence { byte: mark.0, kind })
}

/// Whether a mark is a number over 20, the greatest degree, in the list of an atom.
fn is_high(mark: Mark) -> bool
    ensures { result ≡ is_high (mark_in mark) }
{
    match mark {
        Mark::Entry { value, .. } => value > u128::from(MAX_DEGREE),
        _ => false,
    }
}

impl Scan {
    /// The state of a scan before the first byte.
    fn start() -> Scan
        ensures { result ≡ scan_start }
    {
        Scan {
            mode: Mode::Start,
            depth: 0,
            first: None,
            is_high: false,
        }
    }

    /// The state of the scan with `mark`, if it is given, taken into account: the first error is
    /// the earlier one of the first error so far and the error at the mark.
    fn with_mark(self, mark: Option<(u64, Mark)>) -> Scan
        ensures sees { Sees self mark result }
        ensures mode { result.mode ≡ self.mode }
        ensures depth { result.depth ≡ self.depth }
    {
        match mark {
            None => self,
            Some(mark) => Scan {
                mode: self.mode,
                depth: self.depth,
                first: earlier(self.first, offence_at(mark)),
                is_high: self.is_high || is_high(mark.1),
            },
        }
    }

    /// The state of the scan after a symbol at the byte `at`; None if the symbol is invalid there.
    fn after(self, at: u64, symbol: Symbol) -> Option<Scan>
        requires digit { IsSoundDigit (symbol_in symbol) }
        requires room { CanCount self.mode }
        requires depth { self.depth + 1 < 2 ^ 64 }
        ensures { StepsTo self at (symbol_in symbol) result }
    {
        let mode = self.mode.after(at, symbol)?;
        let depth = depth_after(self.depth, symbol)?;
        let seen = self.with_mark(mark_before(self.mode, self.depth, at, symbol));
        Some(Scan {
            mode,
            depth,
            first: seen.first,
            is_high: seen.is_high,
        })
    }
}

impl Scan {
    /// Whether the bytes read so far are an expression.
    fn is_whole(self) -> bool
        ensures { result ≡ is_whole self }
    {
        match self.mode {
            Mode::Number { .. } | Mode::Denominator { .. } | Mode::Whole => self.depth == 0,
            _ => false,
        }
    }
}

/// If the word is an expression: its first error, apart from a length or a degree over the limit,
/// and whether a number of an atom exceeds 20, the greatest degree. If it is not: as the error, the
/// length of the longest prefix of the word that begins an expression.
pub(crate) fn scan_word(word: &[u8]) -> Result<Scan, u64>
    ensures { IsScanned word.now result }
{
    let mut scan = Scan::start();
    for (i, byte) in word.iter().enumerate() {
        match scan.after(i as u64, symbol_of(*byte)) {
            None => return Err(i as u64),
            Some(next) => scan = next,
        }
    }
    if scan.is_whole() {
        Ok(scan.with_mark(number_mark(scan.mode)))
    } else {
        Err(word.len() as u64)
    }
}
