//! Traits of coefficients. A scalar has a value, a fraction in lowest terms, and each of its
//! operations gives the exact value or `None`. The contract of an operation states its result by a
//! ghost function of the type, such as `checked_sum`, so that a contract of code over any scalar
//! can state when an operation gives `None`. The exact result, whether the type can hold it or not,
//! is also a ghost function, such as `sum`.
//!
//! The laws after the functions of a trait are for code over any scalar. Some of them require
//! `is_held`, which is true of every scalar in a program: each function states it of its arguments
//! and of its result.
ghost use Rattle.std.specs.Prelude.{◌≡◌, ◌≢◌, ◌↔◌, ℕ, ℤ, pos, List, Option, Some, IsTrue, IfSome};
ghost use Rattle.sym_model.specs.Expansion.{Fraction};
ghost use Rattle.fraction_laws.specs.Fractions.{whole, InLowestTerms, fraction_sum, fraction_product};
ghost use Rattle.fraction_laws.specs.Answers.{AnswersSum, AnswersDifference, AnswersProduct};
ghost use Rattle.fraction_laws.specs.Answers.{AnswersNegation, AnswersQuotient};
ghost use Rattle.fraction_laws.specs.Laws.{SumLaws, RingLaws, FieldLaws};
ghost use Rattle.coeff_rings.specs.Text.{decimal_text};

use crate::digits::Digits;

/// Numbers that can be added, tested for 0 and printed.
pub trait Scalar: Copy {
    // The value of a scalar, as a fraction in lowest terms.
    ghost value: { Self → Fraction };

    // The two constants 0 and 1 of the type.
    ghost zero: { Self };

    ghost one: { Self };

    // A property that every scalar of the type has in a program, such as being in lowest terms.
    ghost is_held: { Self → Type 0 };

    // The exact sum of two scalars, whether the type can hold it or not.
    ghost sum: { Self → Self → Self };

    // The result of `add`: the exact sum, or `None` if the type cannot hold it or a number of its
    // computation.
    ghost checked_sum: { Self → Self → Option Self };

    /// The scalar 0.
    fn zero() -> Self
        ensures zero { result ≡ zero }
        ensures value { value result ≡ whole (pos 0) }
        ensures held { is_held result };

    /// The scalar 1.
    fn one() -> Self
        ensures one { result ≡ one }
        ensures value { value result ≡ whole (pos 1) }
        ensures held { is_held result };

    /// Whether the value of the scalar is 0.
    fn is_zero(&self) -> bool
        ensures zero { IsTrue result ↔ (value self.now ≡ whole (pos 0)) }
        ensures held { is_held self.now };

    /// The sum, or `None` if the type cannot hold it or a number of its computation. It is not
    /// `None` if one of the scalars is 0, or if the two values are n/d and m/d for integers n and m
    /// and a positive d such that d and |n| + |m| are below 2^127.
    fn add(self, other: Self) -> Option<Self>
        ensures sum { result ≡ checked_sum self other }
        ensures answer { AnswersSum value self other result }
        ensures held { is_held self × is_held other }
        ensures held_sum { IfSome result is_held };

    /// Replaces the contents of the buffer by the decimal text of the scalar's value: `NUM/DEN` in
    /// lowest terms, or only the number if the value is an integer.
    fn digits(&self, out: &mut Digits)
        ensures text { out.new ≡ decimal_text (value self.now) }
        ensures held { is_held self.now };

    ghost zero_value: { (value zero ≡ whole (pos 0)) × is_held zero };

    ghost one_value: { (value one ≡ whole (pos 1)) × is_held one };

    ghost same_value: { (a b : Self) → value a ≡ value b → a ≡ b };

    ghost lowest: { (a : Self) → is_held a → InLowestTerms (value a) };

    ghost sum_is: { (a b s : Self) → checked_sum a b ≡ Some s → s ≡ sum a b };

    ghost sum_value: { (a b : Self) → value (sum a b) ≡ fraction_sum (value a) (value b) };

    ghost sum_answers: { (a b : Self) → is_held a → is_held b
        → AnswersSum value a b (checked_sum a b) };

    ghost sum_held: { (a b : Self) → is_held a → is_held b → IfSome (checked_sum a b) is_held };

    ghost sum_laws: { SumLaws is_held value };
}

/// Scalars that can also be negated, subtracted and multiplied.
pub trait Ring: Scalar {
    // The results of `neg` and of `sub` here, and of `mul` below: the exact value, or `None` if the
    // type cannot hold it or a number of its computation.
    ghost checked_negation: { Self → Option Self };

    ghost checked_difference: { Self → Self → Option Self };

    // The exact product of two scalars, whether the type can hold it or not.
    ghost product: { Self → Self → Self };

    ghost checked_product: { Self → Self → Option Self };

    /// The scalar whose value is the integer `v`.
    fn from_whole(v: i128) -> Self
        ensures value { Self.value result ≡ whole v }
        ensures held { Self.is_held result };

    /// The negation, or `None` if the type cannot hold it. It is not `None` if the absolute value
    /// of the numerator is below 2^127.
    fn neg(self) -> Option<Self>
        ensures negation { result ≡ checked_negation self }
        ensures answer { AnswersNegation Self.value self result }
        ensures held { Self.is_held self }
        ensures held_negation { IfSome result Self.is_held };

    /// The difference, or `None` if the type cannot hold it or a number of its computation. It is
    /// not `None` if the two values are n/d and m/d for integers n and m and a positive d such that
    /// d and |n| + |m| are below 2^127.
    fn sub(self, other: Self) -> Option<Self>
        ensures difference { result ≡ checked_difference self other }
        ensures answer { AnswersDifference Self.value self other result }
        ensures held { Self.is_held self × Self.is_held other }
        ensures held_difference { IfSome result Self.is_held };

    /// The product, or `None` if the type cannot hold it. It is not `None` if the two values are
    /// n/d and m/e for integers n and m and positive d and e such that d·e and |n·m| are below
    /// 2^127.
    fn mul(self, other: Self) -> Option<Self>
        ensures product { result ≡ checked_product self other }
        ensures answer { AnswersProduct Self.value self other result }
        ensures held { Self.is_held self × Self.is_held other }
        ensures held_product { IfSome result Self.is_held };

    ghost negation_answers: { (a : Self) → Self.is_held a
        → AnswersNegation Self.value a (checked_negation a) };

    ghost negation_held: { (a : Self) → Self.is_held a → IfSome (checked_negation a) Self.is_held };

    ghost difference_answers: { (a b : Self) → Self.is_held a → Self.is_held b
        → AnswersDifference Self.value a b (checked_difference a b) };

    ghost difference_held: { (a b : Self) → Self.is_held a → Self.is_held b
        → IfSome (checked_difference a b) Self.is_held };

    ghost product_is: { (a b p : Self) → checked_product a b ≡ Some p → p ≡ product a b };

    ghost product_value: { (a b : Self)
        → Self.value (product a b) ≡ fraction_product (Self.value a) (Self.value b) };

    ghost product_answers: { (a b : Self) → Self.is_held a → Self.is_held b
        → AnswersProduct Self.value a b (checked_product a b) };

    ghost product_held: { (a b : Self) → Self.is_held a → Self.is_held b
        → IfSome (checked_product a b) Self.is_held };

    ghost ring_laws: { RingLaws Self.is_held Self.value };
}

/// Scalars that can also be divided by scalars other than 0.
pub trait Field: Ring {
    // The result of `div`: the exact quotient, or `None` if the type cannot hold it.
    ghost checked_quotient: { Self → Self → Option Self };

    /// The quotient of `self` by `other`, which must not be 0, or `None` if the type cannot hold
    /// it. It is not `None` if the values of `self` and 1/`other` are n/d and m/e for integers n
    /// and m and positive d and e such that d·e and |n·m| are below 2^127.
    fn div(self, other: Self) -> Option<Self>
        requires { Self.value other ≢ whole (pos 0) }
        ensures quotient { result ≡ checked_quotient self other }
        ensures answer { AnswersQuotient Self.value self other result }
        ensures held { Self.is_held self × Self.is_held other }
        ensures held_quotient { IfSome result Self.is_held };

    ghost quotient_answers: { (a b : Self) → Self.is_held a → Self.is_held b
        → Self.value b ≢ whole (pos 0)
        → AnswersQuotient Self.value a b (checked_quotient a b) };

    ghost quotient_held: { (a b : Self) → Self.is_held a → Self.is_held b
        → Self.value b ≢ whole (pos 0)
        → IfSome (checked_quotient a b) Self.is_held };

    ghost field_laws: { FieldLaws Self.is_held Self.value };
}
