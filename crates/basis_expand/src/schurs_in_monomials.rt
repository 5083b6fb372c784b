//! Schur polynomials as lists of terms in the monomial basis m. The coefficient of a partition κ in
//! s_λ is the number of ways to remove all cells of λ by horizontal strips, one after another, that
//! have the parts of κ as their numbers of cells. All partitions κ are found part by part, for all
//! shapes λ of a list at once.
ghost use Rattle.std.specs.Prelude.{◌≡◌, ℕ, ◌≤◌, ◌^◌, [], ◌∷◌, ◌++◌, List, IfOk, OnOk, IsErrOf};
ghost use Rattle.sym_model.specs.Expansion.{monomials};
ghost use Rattle.sym_model.specs.Partition.{size};
ghost use Rattle.sym_model.specs.Polynomial.{Same};
ghost use Rattle.sym_model.specs.Schur.{schur};
ghost use Rattle.sym_model.specs.Weight.{growth};
ghost use Rattle.sym_model.specs.WholeTerms.{WholeTerms, combined};
ghost use Rattle.partitions.specs.Limits.{IsWithinLimits};
ghost use Rattle.linear_combinations.specs.Gains.{Overflows};
ghost use Rattle.monomial_laws.specs.ExpressionTerms.{IsList};
ghost use Rattle.basis_expand.specs.Contents.{CountsContents, HasManyWays, HasNoneBehind};
ghost use Rattle.basis_expand.specs.Contents.{IsContent, Leads};
ghost use Rattle.sparse_polys.specs.LabelSizes.{AreWithin};
ghost use Rattle.sparse_polys.specs.Tables.{equal, IsWholeTable};
ghost use Rattle.basis_expand.specs.Strips.{strip_terms};

use crate::strips_taken::HorizontalStrip;
use calc_base::{NoMemory, SumFault};
use coeff_rings::Scalar;
use linear_combinations::Lin;
use partitions::Partition;
use sparse_polys::{Whole, single};
use std::alloc::Global;

/// The shapes that remain if a horizontal strip of k cells is removed, in all ways, from each shape
/// of a list; each has the coefficient of the shape from which the strip is removed.
fn stripped(alloc: Global, terms: &Whole, k: u16) -> Result<Whole, SumFault>
    ensures value { IfOk result (λ list. Same list (strip_terms k terms.now)) }
    ensures table { IfOk result IsWholeTable }
    ensures large { IsErrOf result SumFault.Large → Overflows equal [] (strip_terms k terms.now) }
{
    let mut list = Lin::new(alloc);
    list.add_by(&HorizontalStrip { alloc, cells: k }, terms)?;
    Ok(list)
}

/// The list `parts` with `part` appended.
fn with_part(alloc: Global, parts: &[u16], part: u16) -> Result<Vec<u16>, NoMemory>
    ensures { IfOk result (λ longer. longer.items ≡ parts.now ++ part ∷ []) }
{
    let mut longer = Vec::from_slice(alloc, parts)?;
    longer.push(part)?;
    Ok(longer)
}

/// Adds to `list` the label `chosen` with the coefficient of the empty shape in `terms`, unless
/// this coefficient is 0. If `terms` is what remains of a list of shapes after strips with the
/// numbers of cells `chosen` are removed, the coefficient counts the ways to remove all cells of a
/// shape of the list by such strips, each way with the coefficient of the shape.
fn add_content(
    alloc: Global,
    terms: &Whole,
    chosen: &[u16],
    list: &mut Whole,
) -> Result<(), SumFault>
    requires limits { IsWithinLimits chosen.now }
    requires fresh { HasNoneBehind chosen.now list.old }
    requires table { IsWholeTable list.old }
    ensures counted { (left : ℕ) → OnOk result
        (CountsContents terms.now chosen.now 0 left list.old list.new) }
    ensures terms { OnOk result (IsWholeTable terms.now) }
    ensures table { OnOk result (IsWholeTable list.new) }
    ensures small { ¬ IsErrOf result SumFault.Large }
{
    let nothing = Partition::from_valid_parts(alloc, &[])?;
    let ways = terms.coefficient(&nothing);
    if ways.is_zero() {
        return Ok(());
    }
    let label = Partition::from_valid_parts(alloc, chosen)?;
    list.add_term(label, ways)
}

/// A content is the list of the numbers of cells of the horizontal strips that are removed from a
/// shape, one after another; it is weakly decreasing. `terms` is what remains of a list of shapes
/// after strips with the numbers of cells `chosen` are removed. For each weakly decreasing list
/// `rest` of parts of at most `largest` with a sum of at most `left`, adds to `list` the content
/// that consists of `chosen` and then `rest`. Its coefficient counts the ways to remove all cells
/// of a shape of `terms` by strips with the numbers of cells `rest`, each way with the coefficient
/// of the shape.
///
/// So contents that begin with the same parts are computed together; and if no shape remains after
/// the strips of the first parts, no content that begins with these parts is computed.
fn add_contents(
    alloc: Global,
    terms: &Whole,
    chosen: &[u16],
    largest: u16,
    left: u16,
    list: &mut Whole,
) -> Result<(), SumFault>
    requires limits { (rest : List ℕ) → IsContent largest left rest
        → IsWithinLimits (chosen.now ++ rest) }
    requires low { left ≤ 512 }
    requires fresh { HasNoneBehind chosen.now list.old }
    requires table { IsWholeTable list.old }
    ensures counted { OnOk result
        (CountsContents terms.now chosen.now largest left list.old list.new) }
    ensures terms { OnOk result (IsWholeTable terms.now) }
    ensures table { OnOk result (IsWholeTable list.new) }
    ensures large { IsErrOf result SumFault.Large → (start : WholeTerms) (content : List ℕ)
        → Leads start content terms.now → HasManyWays start }
{
    add_content(alloc, terms, chosen, list)?;
    for part in 1..largest.min(left) + 1 {
        let next = stripped(alloc, terms, part)?;
        if next.is_empty() {
            continue;
        }
        let longer = with_part(alloc, chosen, part)?;
        add_contents(alloc, &next, &longer, part, left - part, list)?;
    }
    Ok(())
}

/// s_λ in m, for λ = `label`: each partition κ of the size of λ with the Kostka number K(λ,κ).
pub(crate) fn schur(alloc: Global, label: &Partition) -> Result<Whole, SumFault>
    requires { size label.now ≤ 512 }
    ensures value { IfOk result (λ list. IsList list (schur label.now)) }
    ensures table { IfOk result IsWholeTable }
    ensures large { IsErrOf result SumFault.Large → 2 ^ 127 ≤ growth monomials (size label.now) }
{
    let terms = single(alloc, label.parts(), 1)?;
    let mut list = Lin::new(alloc);
    let cells = label.size();
    add_contents(alloc, &terms, &[], cells, cells, &mut list)?;
    Ok(list)
}

/// The list `terms` in Schur polynomials, none of whose labels has more than `cells` cells, as a
/// list in m: the coefficient of κ is the sum, over the terms c·s_λ, of c times the Kostka number
/// K(λ,κ) (Macdonald, I.6).
///
/// Returns `Large` only if, with |c| in place of c, such a sum is 2^127 or more.
pub fn schurs_to_monomials(alloc: Global, terms: &Whole, cells: u16) -> Result<Whole, SumFault>
    requires within { AreWithin cells terms.now }
    requires low { cells ≤ 512 }
    ensures value { IfOk result (λ list.
        IsList list (λ n. combined (λ label. schur label n) terms.now)) }
    ensures table { IfOk result IsWholeTable }
    ensures large { IsErrOf result SumFault.Large → HasManyWays terms.now }
{
    let mut list = Lin::new(alloc);
    add_contents(alloc, terms, &[], cells, cells, &mut list)?;
    Ok(list)
}
