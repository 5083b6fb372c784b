//! The errors in the word of an expression, and which of them comes first. An atom of an expression
//! is a basis element such as s[2,1]. A mark is a number or an opening parenthesis, that is,
//! something that can be an error.
ghost use Rattle.std.specs.Prelude.{◌≡◌, option_map};
ghost use Rattle.expression_reading.specs.Offences.{kind_in, offence_in, mark_in, first_kind};
ghost use Rattle.sym_model.specs.ExpressionOffence.{earlier, comes_first};

use calc_base::LIMIT;

/// The kinds of errors; errors at the same byte are in this order.
#[derive(Clone, Copy, Debug)]
pub enum Kind {
    /// A number exceeds 2^127 - 1.
    Literal,
    /// A limit is exceeded.
    Range,
    /// A number is not allowed in its list, for example because it is out of order; or a
    /// denominator is 0.
    Shape,
}

#[derive(Clone, Copy)]
pub(crate) struct Offence {
    pub(crate) byte: u64,
    pub(crate) kind: Kind,
}

/// The numbers before a given number in the list of an atom: their count, and the last of them.
#[derive(Clone, Copy)]
pub(crate) struct Before {
    pub(crate) count: u64,
    pub(crate) last: Option<u128>,
}

/// Something that begins at a byte of an expression and can be an error: a number; a denominator; a
/// number in the list of an atom, with the numbers before it; or an opening parenthesis, with the
/// number of parentheses that are open after it.
#[derive(Clone, Copy)]
pub(crate) enum Mark {
    Value { value: u128 },
    Denominator { value: u128 },
    Entry { before: Before, value: u128 },
    Opening { depth: u64 },
}

/// The kind of the error of a mark; None if the mark is no error.
pub(crate) fn kind_at(mark: Mark) -> Option<Kind>
    ensures { option_map kind_in result ≡ first_kind (mark_in mark) }
{
    match mark {
        Mark::Value { value } => (value >= LIMIT).then_some(Kind::Literal),
        Mark::Denominator { value } => {
            if value >= LIMIT {
                Some(Kind::Literal)
            } else {
                (value == 0).then_some(Kind::Shape)
            }
        }
        Mark::Entry { before, value } => {
            if value >= LIMIT {
                Some(Kind::Literal)
            } else if before.count == 64 {
                Some(Kind::Range)
            } else {
                before
                    .last
                    .is_some_and(|last| last < value)
                    .then_some(Kind::Shape)
            }
        }
        Mark::Opening { depth } => (depth == 65).then_some(Kind::Range),
    }
}

impl Offence {
    /// Whether this error comes before `other`, or equals it.
    fn comes_first(self, other: Offence) -> bool
        ensures { result ≡ comes_first (offence_in self) (offence_in other) }
    {
        self.byte < other.byte || (self.byte == other.byte && self.kind as u8 <= other.kind as u8)
    }
}

/// The first of two errors, each of which may be absent.
pub(crate) fn earlier(first: Option<Offence>, second: Option<Offence>) -> Option<Offence>
    ensures { option_map offence_in result
        ≡ earlier (option_map offence_in first) (option_map offence_in second) }
{
    match (first, second) {
        (None, found) => found,
        (found, None) => found,
        (Some(a), Some(b)) => Some(if a.comes_first(b) { a } else { b }),
    }
}
