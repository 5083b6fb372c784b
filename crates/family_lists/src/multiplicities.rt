//! The multiplicities of the parts of a partition.
ghost use Rattle.std.specs.Prelude.{◌≡◌, ◌≢◌, ◌+◌, ◌<◌, ◌≤◌, ◌^◌};
ghost use Rattle.sym_model.specs.Partition.{IsPartition, size};
ghost use Rattle.basis_change_laws.specs.AugmentedMonomial.{multiplicity_factorials};
ghost use Rattle.family_list_laws.specs.OnePartLists.{centralizer, product_of_parts};

/// For a weakly decreasing list in which `part` is followed by `next`, and `next` occurs `times`
/// times from there on: the number of times that `part` occurs from its index on.
fn times_from(part: u16, next: u16, times: u128) -> u128
    requires { times < 2 ^ 64 }
    ensures same { part ≡ next → result ≡ times + 1 }
    ensures other { part ≢ next → result ≡ 1 }
{
    if part == next { times + 1 } else { 1 }
}

/// The product of the factorials of the multiplicities of the parts. It is computed as the product,
/// over all indices, of the number of times that the part at the index occurs from this index on.
pub(crate) fn multiplicity_factorials(parts: &[u16]) -> u128
    requires partition { IsPartition parts.now }
    requires low { size parts.now ≤ 20 }
    ensures { result ≡ multiplicity_factorials parts.now }
{
    let mut product = 1;
    let mut next = 0;
    let mut times = 0;
    for at in (0..parts.len()).rev() {
        times = times_from(parts[at], next, times);
        next = parts[at];
        product *= times;
    }
    product
}

/// The product of the parts.
fn product_of_parts(parts: &[u16]) -> u128
    requires partition { IsPartition parts.now }
    requires low { size parts.now ≤ 20 }
    ensures { result ≡ product_of_parts parts.now }
{
    let mut product = 1;
    for part in parts {
        product *= u128::from(*part);
    }
    product
}

/// The product of the parts and of the factorials of their multiplicities.
pub(crate) fn centralizer(parts: &[u16]) -> u128
    requires partition { IsPartition parts.now }
    requires low { size parts.now ≤ 20 }
    ensures { result ≡ centralizer parts.now }
{
    product_of_parts(parts) * multiplicity_factorials(parts)
}
