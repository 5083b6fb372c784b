//! Stembridge's identity and the Littlewood–Richardson rule.

ghost use Rattle.std.specs.Prelude.{◌≡◌, ℕ, ◌≤◌, ◌+◌, pos, true, cond, List, [], length};
ghost use Rattle.sym_model.specs.Partition.{IsPartition, rows, without_last_zeros};
ghost use Rattle.sym_model.specs.Polynomial.{Same, same, coefficient, nothing, join, times};
ghost use Rattle.sym_model.specs.Schur.{contains, schur, skew_schur};
ghost use Rattle.sym_model.specs.GoodTableau.{is_falling, product_count, skew_count};
ghost use Rattle.sym_model.specs.Alternant.{alternant, staircase, schur_coefficient};
ghost use Rattle.sym_model.specs.Products.{classical_product, schur_product};
ghost use Rattle.alternant_laws.specs.GoodSums.{good_alternants, good_schurs};

/// In n variables, for each partition λ with at most n rows and each skew shape μ/ν: a_(λ+ρ) times
/// s_(μ/ν) is the sum of a_(λ+ω(T)+ρ) over the good tableaux T of the shape μ/ν for the start λ,
/// with entries from 1 to n (Stembridge). Here ω(T) is the content of T, and T is good for λ if,
/// for each column, λ plus the content of that column and of the columns to its right is a
/// partition.
///
/// So a_ρ·s_μ is a_(μ+ρ) if μ has at most n rows, and s_μ is 0 if it has more.
pub fn stembridge_law()
    ensures identity { (n : ℕ) (start outer inner : List ℕ) → IsPartition start → rows start ≤ n
        → IsPartition outer → IsPartition inner
        → Same (times (alternant (join start (staircase n))) (skew_schur outer inner n))
        (good_alternants n start outer inner) }
    ensures straight { (n : ℕ) (parts : List ℕ) → IsPartition parts → rows parts ≤ n
        → Same (times (alternant (staircase n)) (schur parts n))
        (alternant (join parts (staircase n))) }
    ensures few_variables { (n : ℕ) (parts : List ℕ) → IsPartition parts → n + 1 ≤ rows parts
        → Same (schur parts n) nothing }
{}

/// The Littlewood–Richardson rule, in every number n of variables: s_λ·s_(μ/ν) is the sum of
/// s_(λ+ω(T)) over the good tableaux T of the shape μ/ν for the start λ, with entries from 1 to n;
/// so s_(μ/ν) is the sum of s_(ω(T)) over the good tableaux T of that shape for the empty start.
/// Here ω(T) is the content of T, and T is good for λ if, for each column, λ plus the content of
/// that column and of the columns to its right is a partition.
///
/// So the Schur coefficients of s_λ·s_μ and of s_(μ/ν) are counts of good tableaux. This follows
/// from the coefficients of alternants: for a decreasing α, the alternant a_(α+ρ) has at x^(ν+ρ)
/// the coefficient 1 if the partition ν is α without the zeros at its end, and 0 for other
/// partitions ν.
///
/// The classical product of several factors in k variables (`classical_product`) is a list of
/// terms. Its labels are partitions with at most k rows, and the size of each label is the sum of
/// the sizes of the factors. For each partition κ with at most k rows, of whatever size, the
/// coefficient of κ in this list is the Schur coefficient of κ in the product of the Schur
/// polynomials of the factors in k variables.
pub fn littlewood_richardson_law()
    ensures product { (n : ℕ) (start outer inner : List ℕ) → IsPartition start → IsPartition outer
        → IsPartition inner
        → Same (times (schur start n) (skew_schur outer inner n))
        (good_schurs n start outer inner) }
    ensures skew { (n : ℕ) (outer inner : List ℕ) → IsPartition outer → IsPartition inner
        → Same (skew_schur outer inner n) (good_schurs n [] outer inner) }
    ensures alternant { (n : ℕ) (α ν : List ℕ) → length α ≡ n → is_falling α ≡ true → IsPartition ν
        → rows ν ≤ n
        → coefficient (alternant (join α (staircase n))) (join ν (staircase n))
        ≡ cond (same (without_last_zeros α) ν) (pos 1) (pos 0) }
    ensures product_coefficient { (n : ℕ) (left right ν : List ℕ)
        → IsPartition left → IsPartition right → IsPartition ν → rows ν ≤ n
        → schur_coefficient n ν (times (schur left n) (schur right n))
        ≡ pos (product_count n left right ν) }
    ensures product_stable { (n m : ℕ) (left right ν : List ℕ) → n ≤ m
        → IsPartition left → IsPartition right → IsPartition ν → rows ν ≤ n
        → product_count m left right ν ≡ product_count n left right ν }
    ensures skew_coefficient { (n : ℕ) (outer inner κ : List ℕ)
        → IsPartition outer → IsPartition inner → contains outer inner ≡ true → IsPartition κ
        → rows κ ≤ n
        → schur_coefficient n κ (skew_schur outer inner n) ≡ pos (skew_count outer inner κ) }
    ensures classical { (k : ℕ) (factors : List (List ℕ)) (κ : List ℕ) → IsPartition κ
        → rows κ ≤ k
        → coefficient (classical_product k factors) κ
        ≡ schur_coefficient k κ (schur_product factors k) }
{}
