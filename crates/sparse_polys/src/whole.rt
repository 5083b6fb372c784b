//! Lists of terms with integer coefficients.
ghost use Rattle.std.specs.Prelude.{◌≡◌, [], ◌∷◌, IfOk, IsErrOf};
ghost use Rattle.sym_model.specs.Partition.{size};
ghost use Rattle.sym_model.specs.Polynomial.{Same, plus, scale};
ghost use Rattle.partitions.specs.Limits.{IsWithinLimits};
ghost use Rattle.sparse_polys.specs.LabelSizes.{AreWithin};
ghost use Rattle.sparse_polys.specs.Large.{SumIsLarge};
ghost use Rattle.sparse_polys.specs.Tables.{IsWholeTable};

use calc_base::SumFault;
use coeff_rings::Int;
use linear_combinations::Lin;
use partitions::Partition;
use std::alloc::Global;

/// A list of terms with partitions as labels and integer coefficients; the basis is not stored.
pub type Whole = Lin<Partition, Int>;

/// The list with the one term c at the partition `parts`, which must be within the limits; the list
/// is empty if c is 0. `Large` is never returned.
pub fn single(alloc: Global, parts: &[u16], c: i128) -> Result<Whole, SumFault>
    requires { IsWithinLimits parts.now }
    ensures value { IfOk result (λ list. Same list ((parts.now, c) ∷ [])) }
    ensures labels { IfOk result (AreWithin (size parts.now)) }
    ensures table { IfOk result IsWholeTable }
    ensures small { ¬ IsErrOf result SumFault.Large }
{
    let mut list = Lin::new(alloc);
    list.add_term(Partition::from_valid_parts(alloc, parts)?, Int::new(c))?;
    Ok(list)
}

/// The list p·`left` + q·`right`. The shorter list is added to the longer one.
///
/// Returns `Large` only if p·`left`, q·`right` or their sum has a coefficient of absolute value
/// 2^127 or more.
pub fn sum_of(left: Whole, p: i128, right: Whole, q: i128) -> Result<Whole, SumFault>
    ensures value { IfOk result (λ sum. Same sum (plus (scale p left) (scale q right))) }
    ensures table { IfOk result IsWholeTable }
    ensures large { IsErrOf result SumFault.Large → SumIsLarge left right p q }
{
    let is_shorter = left.len() < right.len();
    let first = left.scale(Int::new(p))?;
    let second = right.scale(Int::new(q))?;
    if is_shorter {
        return second.add_all(&first);
    }
    first.add_all(&second)
}
