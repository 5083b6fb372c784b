//! The test of whether a factor has more rows than there are variables.
ghost use Rattle.std.specs.Prelude.{◌≡◌, ◌+◌, ◌≤◌, false, length, drop, IsTrue};
ghost use Rattle.partitions.specs.FactorList.{AreFactors};
ghost use Rattle.rim_hooks.specs.FactorRows.{AreFew};
ghost use Rattle.product_laws.specs.FactorSteps.{HasLong};

use partitions::Factors;

/// Whether some factor has more than `k` rows. The Schur polynomial of such a factor in `k`
/// variables is 0.
pub(crate) fn has_long(factors: &Factors, k: u16) -> bool
    ensures long { IsTrue result → HasLong k factors.now }
    ensures few { result ≡ false → AreFew k factors.now }
    ensures limits { AreFactors factors.now }
{
    has_long_from(factors, 0, k)
}

/// Whether some factor from the index `at` on has more than `k` rows.
fn has_long_from(factors: &Factors, at: usize, k: u16) -> bool
    requires { at ≤ length factors.now }
    ensures long { IsTrue result → HasLong k (drop at factors.now) }
    ensures few { result ≡ false → AreFew k (drop at factors.now) }
    ensures limits { AreFactors factors.now }
{
    let Some(factor) = factors.get(at) else {
        return false;
    };
    if factor.rows() > k {
        return true;
    }
    has_long_from(factors, at + 1, k)
}
