//! The coproduct of a Schur polynomial: its expansion in products of a Schur polynomial in one set
//! of variables and a Schur polynomial in another set.
ghost use Rattle.std.specs.Prelude.{◌≡◌, ℕ, ◌+◌, ℤ, pos, List, ◌⊎◌, false, None, length, IfOk};
ghost use Rattle.std.specs.Prelude.{OnOk, IsErrOf};
ghost use Rattle.fraction_laws.specs.Fractions.{whole};
ghost use Rattle.sym_model.specs.Sum.{Among};
ghost use Rattle.sym_model.specs.GoodTableau.{skew_count};
ghost use Rattle.sym_model.specs.LabelLimits.{is_label, is_pair_label};
ghost use Rattle.sym_model.specs.Partition.{IsPartition};
ghost use Rattle.sym_model.specs.Polynomial.{Same, plus};
ghost use Rattle.sym_model.specs.PrintedOrder.{pair_order};
ghost use Rattle.sym_model.specs.Schur.{schur, skew_schur};
ghost use Rattle.sym_model.specs.Expansion.{beside};
ghost use Rattle.sym_model.specs.WholeTerms.{as_fractions};
ghost use Rattle.sym_model.specs.Products.{ExpandsInSchurs, IsCoproductOf};
ghost use Rattle.sym_model.specs.PastLimit.{HasPast, IsCoefficientOfSkew, IsCoproductCoefficient};
ghost use Rattle.linear_combinations.specs.Entries.{IsCanonicalList};
ghost use Rattle.lr_coproduct.specs.InnerShapeList.{ListsShapesInside, IsAt};
ghost use Rattle.lr_coproduct.specs.SkewLists.{HaveSkewLists};
ghost use Rattle.lr_coproduct.specs.PairTerms.{pair_sum, pair_coefficient, HavePairCounts};
ghost use Rattle.lr_coproduct.specs.PairTerms.{AreBefore};

use crate::exchange::exchanged;
use crate::inner_shapes::inner_shapes;
use crate::pairs::add_list;
use calc_base::SumFault;
use coeff_rings::Int;
use linear_combinations::Terms;
use lr_product::skew;
use partitions::Partition;
use sparse_polys::Pair;
use std::alloc::Global;

/// The Schur polynomial of `shape` in two sets of variables x and y, as a linear combination of the
/// products of a Schur polynomial in x and one in y. The coefficient of the pair (μ, ν) is the
/// number of lattice tableaux of the skew shape `shape`/μ with the content ν.
///
/// Unless memory runs out, returns `Large` if and only if a coefficient exceeds 2^127 - 1.
pub fn coprod(alloc: Global, shape: &Partition) -> Result<Terms<Pair, Int>, SumFault>
    ensures meets { IfOk result
        (λ terms. IsCoproductOf shape.now (as_fractions terms)) }
    ensures counts { IfOk result (HavePairCounts shape.now) }
    ensures large { IsErrOf result SumFault.Large → HasPast (IsCoproductCoefficient shape.now) }
    ensures fits { OnOk result (HasPast (IsCoproductCoefficient shape.now) → ⊥) }
{
    let inners = inner_shapes(alloc, shape)?;
    // The partitions μ inside the shape are visited in the printed order, and for each μ the labels
    // ν of its terms come in the printed order, so the pairs (μ, ν) are in the printed order as
    // well.
    let mut pairs: Vec<(Pair, Int)> = Vec::new(alloc);
    let mut lists: Vec<Terms<Partition, Int>> = Vec::new(alloc);
    for at in 0..inners.len() {
        let inner = &inners[at];
        add_inner(alloc, &mut pairs, &mut lists, shape, &inners, inner)?;
    }
    Ok(Terms::from_pairs(pairs).unwrap())
}

/// Appends to `pairs` the terms of the coproduct whose first partition is `inner`, and to `lists`
/// the expansion of the skew Schur polynomial of `shape`/`inner`, from which these terms are made.
/// Before the call, this must have been done for all partitions that come before `inner` in the
/// list `inners`.
fn add_inner(
    alloc: Global,
    pairs: &mut Vec<(Pair, Int)>,
    lists: &mut Vec<Terms<Partition, Int>>,
    shape: &Partition,
    inners: &[Partition],
    inner: &Partition,
) -> Result<(), SumFault>
    requires listed { ListsShapesInside shape.now inners.now }
    requires here { IsAt inners.now (length lists.old.items) inner.now }
    requires lists { HaveSkewLists shape.now inners.now lists.old.items }
    ensures adds { OnOk result ((n k : ℕ) → Same (pair_sum n k pairs.new.items)
        (plus (pair_sum n k pairs.old.items)
        (beside (schur inner.now n) (skew_schur shape.now inner.now k)))) }
    ensures goes_on { OnOk result (AreBefore pairs.old.items inner.now
        → IsCanonicalList pair_order is_pair_label whole pairs.old.items
        → IsCanonicalList pair_order is_pair_label whole pairs.new.items) }
    ensures firsts { OnOk result ((t : (List ℕ × List ℕ) × ℤ) → Among t pairs.new.items
        → Among t pairs.old.items ⊎ (t.0.0 ≡ inner.now)) }
    ensures counts { OnOk result (IsPartition shape.now → AreBefore pairs.old.items inner.now
        → (second : List ℕ) → IsPartition second
        → pair_coefficient pairs.new.items inner.now second
        ≡ pos (skew_count shape.now inner.now second)) }
    ensures others { OnOk result ((first second : List ℕ) → (inner.now ≡ first → ⊥)
        → pair_coefficient pairs.new.items first second
        ≡ pair_coefficient pairs.old.items first second) }
    ensures count { OnOk result (length lists.new.items ≡ length lists.old.items + 1) }
    ensures lists { OnOk result (HaveSkewLists shape.now inners.now lists.new.items) }
    ensures fits { OnOk result (HasPast (IsCoefficientOfSkew None shape.now inner.now)
        → ⊥) }
    ensures large { IsErrOf result SumFault.Large
        → HasPast (IsCoefficientOfSkew None shape.now inner.now) }
{
    let list = list_of(alloc, shape, inners, lists, inner)?;
    add_list(pairs, lists, inner, list)?;
    Ok(())
}

/// The skew Schur polynomial of `shape`/`inner`, expanded in Schur polynomials. If `inner` has at
/// least half of the cells of `shape`, the skew shape is small, and its tableaux are counted;
/// otherwise the coefficients are read from the lists of the partitions that come before `inner`.
fn list_of(
    alloc: Global,
    shape: &Partition,
    inners: &[Partition],
    lists: &[Terms<Partition, Int>],
    inner: &Partition,
) -> Result<Terms<Partition, Int>, SumFault>
    requires listed { ListsShapesInside shape.now inners.now }
    requires here { IsAt inners.now (length lists.now) inner.now }
    requires lists { HaveSkewLists shape.now inners.now lists.now }
    ensures meets { IfOk result (λ terms. ExpandsInSchurs None (skew_schur shape.now inner.now) (as_fractions terms)) }
    ensures large { IsErrOf result SumFault.Large
        → HasPast (IsCoefficientOfSkew None shape.now inner.now) }
    ensures fits { OnOk result (HasPast (IsCoefficientOfSkew None shape.now inner.now)
        → ⊥) }
{
    if shape.size() <= 2 * inner.size() {
        return skew(alloc, shape, inner, None);
    }
    Ok(exchanged(alloc, shape, inners, lists, inner)?)
}
