//! The transition rule in m variables, applied to permutations with counts. A term with a factor
//! x_r for r > m is 0 in m variables, and is left out.
ghost use Rattle.std.specs.Prelude.{◌≡◌, ℕ, ◌<◌, ◌≤◌, ◌+ℤ◌, ◌*ℤ◌, ℤ, pos, ◌≤ℤ◌, List, [], ◌∷◌};
ghost use Rattle.std.specs.Prelude.{◌+◌, nat_eq, length, replicate, IfOk, OnOk, IsErrOf};
ghost use Rattle.std.specs.Cmp.Lexicographic.{pointwise};
ghost use Rattle.sym_model.specs.Permutation.{IsTransition};
ghost use Rattle.sym_model.specs.Polynomial.{pair};
ghost use Rattle.sym_model.specs.Schubert.{schubert_in};
ghost use Rattle.sym_model.specs.Sum.{total, Among};
ghost use Rattle.sym_model.specs.WholeTerms.{WholeTerms, AreCounts};
ghost use Rattle.partitions.specs.Limits.{IsWithinLimits};
ghost use Rattle.linear_combinations.specs.Gains.{Gains, Overflows, HaveLabels, over};
ghost use Rattle.transition_walk.specs.Transitions.{IsShort};
ghost use Rattle.stanley_expand.specs.Grassmannian.{IsRising, front_beta, front_shape};
ghost use Rattle.stanley_expand.specs.Walk.{AreShapes, HasLargeShape, IsHeld, IsWorkedOff};
ghost use Rattle.stanley_expand.specs.Walk.{OverflowsWith, WaitsAt, number, walked};
ghost use Rattle.linear_combinations.specs.Entries.{IsWholeTable};

use crate::letters::has_more_before;
use calc_base::{NoMemory, SumFault};
use coeff_rings::{Int, Scalar};
use linear_combinations::Lin;
use partitions::Partition;
use perm_codes::Perm;
use std::alloc::Global;
use transition_walk::transition_places;

/// The greatest number of letters of a permutation in the tables.
const MAX_LETTERS: usize = 80;

/// A sum of Schur polynomials.
pub(crate) type Schurs = Lin<Partition, Int>;

/// Permutations that are still to be expanded, each with the number of times that the transition
/// rule has reached it.
type Counts = Lin<Perm, Int>;

/// The Schubert polynomial of the permutation `start`, in `rows` variables, as a sum of Schur
/// polynomials. `start` has at most `rows` + 16 letters, and its letters at the places 1 to `rows`
/// are increasing.
///
/// The permutations that are still to be expanded are kept in numbered tables (`number`), and the
/// table with the greatest number is expanded first. The transition rule replaces a permutation by
/// others with smaller numbers. So nothing is added to a table after it is expanded, and each
/// permutation is expanded at most once.
pub(crate) fn by_transitions(alloc: Global, start: Perm, rows: u16) -> Result<Schurs, SumFault>
    requires few { rows ≤ 64 }
    requires rising { IsRising rows (rows + 16) start }
    ensures value { IfOk result (λ sum. (φ : List ℕ → ℤ)
        → walked rows φ sum [] ≡ pair (schubert_in start rows) φ) }
    ensures shapes { IfOk result (AreShapes rows) }
    ensures large { IsErrOf result SumFault.Large
        → HasLargeShape rows (λ φ. pair (schubert_in start rows) φ) }
{
    let mut todo = empty_tables(alloc, number(&start, rows) + 1)?;
    put(&mut todo, start, Int::one(), rows)?;
    let mut sum = Lin::new(alloc);
    while let Some(counts) = todo.pop() {
        work_off_each(alloc, &mut todo, &counts, rows, &mut sum)?;
    }
    Ok(sum)
}

/// A list of `count` empty tables.
fn empty_tables(alloc: Global, count: usize) -> Result<Vec<Counts>, NoMemory>
    ensures { IfOk result (λ tables. tables.items ≡ replicate count []) }
{
    let mut tables = Vec::with_capacity(alloc, count)?;
    for _ in 0..count {
        tables.push(Lin::new(alloc))?;
    }
    Ok(tables)
}

/// The number of the table in which a permutation is kept: (r - `rows`)·81 + w(r), if the last
/// descent r of the permutation w is after place `rows`, and 0 otherwise.
fn number(perm: &Perm, rows: u16) -> usize
    ensures number { result ≡ number rows perm.now }
    ensures small { result < 16777216 }
{
    match perm.last_descent() {
        Some(r) => {
            if r > rows {
                return usize::from(r - rows) * (MAX_LETTERS + 1) + usize::from(perm.letter(r));
            }
            0
        }
        None => 0,
    }
}

/// Adds `count` to the count of a permutation in the table of its number. The permutation is
/// dropped if some letter has more than `rows` greater letters before it, since its Schubert
/// polynomial in `rows` variables is then 0.
fn put(todo: &mut Vec<Counts>, perm: Perm, count: Int, rows: u16) -> Result<(), SumFault>
    requires few { rows ≤ 64 }
    requires rising { IsRising rows (rows + 16) perm }
    requires table { number rows perm < length todo.old.items }
    requires counts { pos 0 ≤ℤ count }
    ensures step { OnOk result ((sum : WholeTerms)
        → IsWorkedOff rows sum todo.old.items
        (λ φ. count *ℤ pair (schubert_in perm rows) φ) sum todo.new.items) }
    ensures large { IsErrOf result SumFault.Large → (sum : WholeTerms)
        → OverflowsWith rows sum todo.old.items
        (λ φ. count *ℤ pair (schubert_in perm rows) φ) }
{
    if has_more_before(&perm, rows) {
        return Ok(());
    }
    let at = number(&perm, rows);
    let counts = &mut todo[at];
    counts.add_owned(perm, count)
}

/// Makes one step of the transition rule for each permutation w of the table `counts`. If w has no
/// descent after place `rows`, its count times its Schur polynomial is added to `sum`. Otherwise
/// the covers v·t_ir with i < r of v = w·t_rs, for the places r and s of the transition rule, are
/// added to `todo`, each with the count of w.
fn work_off_each(
    alloc: Global,
    todo: &mut Vec<Counts>,
    counts: &Counts,
    rows: u16,
    sum: &mut Schurs,
) -> Result<(), SumFault>
    requires few { rows ≤ 64 }
    requires waiting { HaveLabels (WaitsAt rows (length todo.old.items)) counts.now }
    requires counts { AreCounts counts.now }
    ensures step { OnOk result (IsWorkedOff rows sum.old todo.old.items
        (λ φ. over (λ p. pair (schubert_in p rows) φ) counts.now) sum.new todo.new.items) }
    ensures large { IsErrOf result SumFault.Large → OverflowsWith rows sum.old todo.old.items
        (λ φ. over (λ p. pair (schubert_in p rows) φ) counts.now) }
{
    for (perm, count) in counts.iter() {
        work_off(alloc, todo, perm, *count, rows, sum)?;
    }
    Ok(())
}

/// Makes one step of the transition rule for w = `perm`. If w has no descent after place `rows`, it
/// is Grassmannian, and `count` times its Schur polynomial is added to `sum`. Otherwise the covers
/// v·t_ir with i < r of v = w·t_rs, for the places r and s of the transition rule, are added to
/// `todo`, each with the count `count`.
fn work_off(
    alloc: Global,
    todo: &mut Vec<Counts>,
    perm: &Perm,
    count: Int,
    rows: u16,
    sum: &mut Schurs,
) -> Result<(), SumFault>
    requires few { rows ≤ 64 }
    requires waiting { WaitsAt rows (length todo.old.items) perm.now }
    requires counts { pos 0 ≤ℤ count }
    ensures step { OnOk result (IsWorkedOff rows sum.old todo.old.items
        (λ φ. count *ℤ pair (schubert_in perm.now rows) φ) sum.new todo.new.items) }
    ensures large { IsErrOf result SumFault.Large → OverflowsWith rows sum.old todo.old.items
        (λ φ. count *ℤ pair (schubert_in perm.now rows) φ) }
{
    match transition_places(perm) {
        Some((r, s)) => {
            if r > rows {
                return expand(todo, perm, count, r, s, rows);
            }
        }
        None => {}
    }
    add_shape(alloc, sum, perm, count, rows)
}

/// Adds the covers v·t_ir with i < r of v = w·t_rs, for w = `perm` and the places r and s of the
/// transition rule, to the tables of their numbers (`number`), each with the count `count`. The
/// term of v is left out, since its factor x_r is 0 in `rows` < r variables.
fn expand(
    todo: &mut Vec<Counts>,
    perm: &Perm,
    count: Int,
    r: u16,
    s: u16,
    rows: u16,
) -> Result<(), SumFault>
    requires few { rows ≤ 64 }
    requires waiting { WaitsAt rows (length todo.old.items) perm.now }
    requires places { IsTransition perm.now r s }
    requires after { rows < r }
    requires counts { pos 0 ≤ℤ count }
    ensures step { OnOk result ((sum : WholeTerms)
        → IsWorkedOff rows sum todo.old.items
        (λ φ. count *ℤ pair (schubert_in perm.now rows) φ) sum todo.new.items) }
    ensures large { IsErrOf result SumFault.Large → (sum : WholeTerms)
        → OverflowsWith rows sum todo.old.items
        (λ φ. count *ℤ pair (schubert_in perm.now rows) φ) }
{
    let lower = perm.times_swap(r, s)?;
    put_each(todo, lower.covers_down(r)?, count, rows)
}

/// Adds each permutation of `perms`, with the count `count`, to the table of its number.
fn put_each(todo: &mut Vec<Counts>, perms: Vec<Perm>, count: Int, rows: u16) -> Result<(), SumFault>
    requires few { rows ≤ 64 }
    requires waiting { (p : List ℕ) → Among p perms.items
        → IsRising rows (rows + 16) p × (number rows p < length todo.old.items) }
    requires counts { pos 0 ≤ℤ count }
    ensures step { OnOk result ((sum : WholeTerms) → IsWorkedOff rows sum todo.old.items
        (λ φ. count *ℤ total (λ p. pair (schubert_in p rows) φ) perms.items)
        sum todo.new.items) }
    ensures large { IsErrOf result SumFault.Large → (sum : WholeTerms)
        → OverflowsWith rows sum todo.old.items
        (λ φ. count *ℤ total (λ p. pair (schubert_in p rows) φ) perms.items) }
{
    for perm in perms {
        put(todo, perm, count, rows)?;
    }
    Ok(())
}

/// Adds `count` times the Schur polynomial of the Grassmannian permutation `perm` to `sum`.
fn add_shape(
    alloc: Global,
    sum: &mut Schurs,
    perm: &Perm,
    count: Int,
    rows: u16,
) -> Result<(), SumFault>
    requires few { rows ≤ 64 }
    requires limits { IsWithinLimits (front_shape rows perm.now) }
    ensures gains { OnOk result (Gains sum.old ((front_shape rows perm.now, count) ∷ []) sum.new) }
    ensures table { OnOk result (IsWholeTable sum.new) }
    ensures held { OnOk result (IsHeld sum.new) }
    ensures large { IsErrOf result SumFault.Large
        → Overflows (pointwise nat_eq) sum.old ((front_shape rows perm.now, count) ∷ []) }
{
    let beta = front(alloc, perm, rows)?;
    let shape = Partition::from_beta(alloc, beta.as_slice())?;
    sum.add_owned(shape, count)
}

/// The letters of `perm` at the places `rows`, .., 1, each minus 1.
fn front(alloc: Global, perm: &Perm, rows: u16) -> Result<Vec<u16>, NoMemory>
    requires { rows ≤ 64 }
    ensures { IfOk result (λ list. list.items ≡ front_beta rows perm.now) }
{
    let mut list = Vec::new(alloc);
    let mut i = rows;
    while i > 0 {
        list.push(perm.letter(i) - 1)?;
        i -= 1;
    }
    Ok(list)
}
