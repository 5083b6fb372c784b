//! The skew Schur polynomial of one skew shape, read from those of other skew shapes: the number of
//! lattice tableaux does not change if the inner partition and the content are exchanged.
ghost use Rattle.std.specs.Prelude.{◌≡◌, ℕ, ◌*◌, ◌<◌, ℤ, pos, List, ◌∷◌, [], ◌++◌, false, None};
ghost use Rattle.std.specs.Prelude.{length, IfOk, OnOk};
ghost use Rattle.fraction_laws.specs.Fractions.{whole};
ghost use Rattle.sym_model.specs.LabelLimits.{is_label};
ghost use Rattle.sym_model.specs.Partition.{IsPartition, size};
ghost use Rattle.sym_model.specs.Polynomial.{coefficient};
ghost use Rattle.sym_model.specs.PrintedOrder.{printed_order};
ghost use Rattle.sym_model.specs.WholeTerms.{as_fractions};
ghost use Rattle.sym_model.specs.Products.{ExpandsInSchurs};
ghost use Rattle.sym_model.specs.PastLimit.{HasPast, IsCoefficientOfSkew};
ghost use Rattle.sym_model.specs.Schur.{skew_schur};
ghost use Rattle.linear_combinations.specs.Entries.{IsCanonicalList};
ghost use Rattle.lr_coproduct.specs.InnerShapeList.{ListsShapesInside, IsAt};
ghost use Rattle.lr_coproduct.specs.SkewLists.{HaveSkewLists};

use crate::inner_shapes::count_above;
use calc_base::NoMemory;
use coeff_rings::Int;
use linear_combinations::Terms;
use partitions::Partition;
use std::alloc::Global;

/// The skew Schur polynomial of `shape`/`inner`, expanded in Schur polynomials. `inner` must have
/// less than half of the cells of `shape`. The result is read from the expansions of `shape`/ν for
/// the partitions ν that come before `inner` in the list `inners`: the coefficient of ν in the
/// result is that of `inner` in the expansion of `shape`/ν.
pub(crate) fn exchanged(
    alloc: Global,
    shape: &Partition,
    inners: &[Partition],
    lists: &[Terms<Partition, Int>],
    inner: &Partition,
) -> Result<Terms<Partition, Int>, NoMemory>
    requires listed { ListsShapesInside shape.now inners.now }
    requires here { IsAt inners.now (length lists.now) inner.now }
    requires lists { HaveSkewLists shape.now inners.now lists.now }
    requires small { 2 * size inner.now < size shape.now }
    ensures meets { IfOk result (λ terms. ExpandsInSchurs None (skew_schur shape.now inner.now) (as_fractions terms)) }
    ensures fits { OnOk result (HasPast (IsCoefficientOfSkew None shape.now inner.now)
        → ⊥) }
{
    // Only partitions ν with |inner| + |ν| = |shape| can have a coefficient other than 0.
    let rest = shape.size() - inner.size();
    let first = count_above(inners, rest);
    let end = count_above(inners, rest - 1).min(lists.len());
    let mut terms: Vec<(Partition, Int)> = Vec::new(alloc);
    for at in first..end {
        let second = &inners[at];
        let c = coefficient_in(&lists[at], inner);
        add_term(&mut terms, second, c)?;
    }
    Ok(Terms::from_pairs(terms).unwrap())
}

/// Appends the term with the label `label` and the coefficient `c` to `terms`, unless `c` is 0.
fn add_term(terms: &mut Vec<(Partition, Int)>, label: &Partition, c: Int) -> Result<(), NoMemory>
    ensures none { OnOk result (c ≡ pos 0 → terms.new.items ≡ terms.old.items) }
    ensures one { OnOk result ((c ≡ pos 0 → ⊥)
        → terms.new.items ≡ terms.old.items ++ (label.now, c) ∷ []) }
{
    if c.get() == 0 {
        return Ok(());
    }
    terms.push((label.copy()?, c))?;
    Ok(())
}

/// The coefficient of `label` in the list; 0 if it is not a label of the list.
fn coefficient_in(list: &Terms<Partition, Int>, label: &Partition) -> Int
    requires { IsPartition label.now }
    ensures value { result ≡ coefficient list.now label.now }
    ensures canonical { IsCanonicalList printed_order is_label whole list.now }
{
    let terms = list.iter();
    let terms = terms.as_slice();
    match terms.binary_search_by(|term| term.0.cmp_printed(label)) {
        Ok(at) => terms[at].1,
        Err(_) => Int::new(0),
    }
}
