//! Products of lists in the basis e, h or p: the labels are multiplied by joining their parts.
ghost use Rattle.std.specs.Prelude.{◌≡◌, ◌+◌, ◌≤◌, ◌*ℤ◌, ◌++◌, ◌∷◌, [], OnOk, IsErrOf};
ghost use Rattle.sym_model.specs.Partition.{IsPartition, size};
ghost use Rattle.sparse_polys.specs.MonomialProducts.{greatest_size};
ghost use Rattle.basis_change_laws.specs.JoinedLists.{merged, joined, row};
ghost use Rattle.linear_combinations.specs.Gains.{Gains, Overflows, scaled};
ghost use Rattle.sparse_polys.specs.Tables.{equal, IsWholeTable};

use calc_base::{NoMemory, SumFault};
use coeff_rings::{Int, product_of};
use linear_combinations::Rule;
use partitions::Partition;
use sparse_polys::Whole;
use std::alloc::Global;

/// Appends the numbers `rest` to the buffer; if `rest` is empty, no other function is called.
#[inline(always)]
fn put_rest(buffer: &mut Vec<u16>, rest: &[u16]) -> Result<(), NoMemory>
    ensures { OnOk result (buffer.new.items ≡ buffer.old.items ++ rest.now) }
{
    if rest.is_empty() {
        return Ok(());
    }
    buffer.extend_from_slice(rest)?;
    Ok(())
}

/// Replaces the contents of the buffer by the parts of the partitions `more` and `parts`, merged in
/// decreasing order. On an error the buffer holds some of these parts.
#[inline(always)]
pub fn put_merged(buffer: &mut Vec<u16>, more: &[u16], parts: &[u16]) -> Result<(), NoMemory>
    requires more { IsPartition more.now }
    requires parts { IsPartition parts.now }
    ensures { OnOk result (buffer.new.items ≡ merged more.now parts.now) }
{
    buffer.clear();
    let mut i = 0;
    let mut j = 0;
    while i < more.len() && j < parts.len() {
        if more[i] < parts[j] {
            buffer.push(parts[j])?;
            j += 1;
            continue;
        }
        buffer.push(more[i])?;
        i += 1;
    }
    put_rest(buffer, &more[i..])?;
    put_rest(buffer, &parts[j..])?;
    Ok(())
}

/// Adds to `sum` the product of z·`left` and the list `right`: for each term c·μ of `right`, z·c at
/// the label that has the parts of `left` and of μ. The size of `left` and the greatest size of a
/// label of `right` add up to at most 512. The parts are joined in one vector, which is used again
/// for each term; its capacity is enough for a short label from the start.
///
/// Returns `Large` only if, at some label, the absolute values of the old coefficient and of the
/// terms to be added have a sum of 2^127 or more. On an error some of the terms have been added.
pub fn add_row(
    alloc: Global,
    sum: &mut Whole,
    left: &Partition,
    z: Int,
    right: &Whole,
) -> Result<(), SumFault>
    requires { size left.now + greatest_size right.now ≤ 512 }
    ensures gains { OnOk result (Gains sum.old (row left.now z right.now) sum.new) }
    ensures large { IsErrOf result SumFault.Large
        → Overflows equal sum.old (row left.now z right.now) }
{
    let mut parts = Vec::with_capacity(alloc, 16)?;
    for (label, c) in right.iter() {
        add_joined(alloc, sum, &mut parts, left, label, z, *c)?;
    }
    Ok(())
}

/// Adds z·c to the coefficient in `sum` of the label that has the parts of `left` and of `label`;
/// these are merged in the buffer `parts`.
#[inline(always)]
fn add_joined(
    alloc: Global,
    sum: &mut Whole,
    parts: &mut Vec<u16>,
    left: &Partition,
    label: &Partition,
    z: Int,
    c: Int,
) -> Result<(), SumFault>
    requires { size left.now + size label.now ≤ 512 }
    ensures gains { OnOk result (Gains sum.old ((merged left.now label.now, z *ℤ c) ∷ []) sum.new) }
    ensures large { IsErrOf result SumFault.Large
        → Overflows equal sum.old ((merged left.now label.now, z *ℤ c) ∷ []) }
{
    let product = product_of(z, c)?;
    put_merged(parts, left.parts(), label.parts())?;
    sum.add_owned(
        Partition::from_valid_parts(alloc, parts.as_slice())?,
        product,
    )
}

/// The rule that replaces a label by the product of the label, the number `c` and the list `list`.
#[derive(Drop)]
struct TimesList<'a> {
    alloc: Global,
    list: &'a Whole,
    c: Int,
}

impl Rule<Partition, Partition> for TimesList<'_> {
    ghost use Rattle.std.specs.Prelude.{◌+◌, ◌≤◌};
    ghost use Rattle.sym_model.specs.Partition.{size};
    ghost use Rattle.sparse_polys.specs.MonomialProducts.{greatest_size};
    ghost use Rattle.basis_change_laws.specs.JoinedLists.{row};

    ghost takes = { λ rule label. size label + greatest_size rule.list.now ≤ 512 };

    ghost image = { λ rule label. row label rule.c rule.list.now };

    fn add_image(&self, label: &Partition, x: Int, sum: &mut Whole) -> Result<(), SumFault> {
        if self.list.len() == 0 {
            return Ok(());
        }
        let c = product_of(x, self.c)?;
        add_row(self.alloc, sum, label, c, self.list)
    }
}

/// Adds to `sum` c times the product of the lists `left` and `right`, whose labels are multiplied
/// by joining their parts; the greatest sizes of their labels add up to at most 512.
///
/// Returns `Large` only if, at some label, the absolute values of the old coefficient and of the
/// terms to be added have a sum of 2^127 or more. On an error some of the terms have been added.
pub fn add_products(
    alloc: Global,
    sum: &mut Whole,
    left: &Whole,
    c: Int,
    right: &Whole,
) -> Result<(), SumFault>
    requires { greatest_size left.now + greatest_size right.now ≤ 512 }
    ensures gains { OnOk result (Gains sum.old (joined (scaled c left.now) right.now) sum.new) }
    ensures table { OnOk result (IsWholeTable sum.new) }
    ensures large { IsErrOf result SumFault.Large
        → Overflows equal sum.old (joined (scaled c left.now) right.now) }
{
    let rule = TimesList {
        alloc,
        list: right,
        c,
    };
    sum.add_by(&rule, left)
}
