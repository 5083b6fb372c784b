//! The list of the partitions inside a partition.
ghost use Rattle.std.specs.Prelude.{◌≡◌, ◌+◌, ◌≤◌, List, [], ◌∷◌, ◌++◌, map, length, IfOk, OnOk};
ghost use Rattle.std.specs.Prelude.{IsSorted};
ghost use Rattle.std.specs.List.Sorted.{IsPermutation};
ghost use Rattle.sym_model.specs.Partition.{Falls, IsPartition, columns, size, without_last_zeros};
ghost use Rattle.sym_model.specs.PrintedOrder.{printed_order};
ghost use Rattle.schur_laws.specs.InnerShapes.{shapes_inside};
ghost use Rattle.lr_coproduct.specs.InnerShapeList.{IsInPrintedOrder, ListsShapesInside};
ghost use Rattle.lr_coproduct.specs.InnerShapeList.{IsCountAbove};

use calc_base::NoMemory;
use partitions::Partition;
use std::alloc::Global;

/// The partitions inside the partition `shape`, each once, in the printed order.
pub(crate) fn inner_shapes(alloc: Global, shape: &Partition) -> Result<Vec<Partition>, NoMemory>
    ensures listed { IfOk result (λ shapes. ListsShapesInside shape.now shapes.items) }
    ensures shape { OnOk result (IsPartition shape.now) }
{
    let mut shapes = Vec::new(alloc);
    add_shapes(alloc, &mut shapes, &[], shape.parts(), shape.part(1))?;
    sort_shapes(&mut shapes);
    Ok(shapes)
}

/// Sorts the partitions into the printed order.
fn sort_shapes(shapes: &mut Vec<Partition>)
    ensures permutation { IsPermutation shapes.old.items shapes.new.items }
    ensures sorted { IsSorted printed_order shapes.new.items }
{
    shapes.sort_unstable_by(|a, b| a.cmp_printed(b));
}

/// The number of partitions of the list `inners` with more than `cells` cells. The list must be in
/// the printed order, in which these partitions come first.
pub(crate) fn count_above(inners: &[Partition], cells: u16) -> usize
    requires { IsInPrintedOrder inners.now }
    ensures { IsCountAbove inners.now cells result }
{
    inners.partition_point(|inner| cells < inner.size())
}

/// Appends to `shapes` one partition for each partition inside `rows` whose first part is at most
/// `most`: the numbers `front`, followed by the parts of the partition inside `rows`, without the
/// zeros at the end of the list.
fn add_shapes(
    alloc: Global,
    shapes: &mut Vec<Partition>,
    front: &[u16],
    rows: &[u16],
    most: u16,
) -> Result<(), NoMemory>
    requires falls { Falls (front.now ++ most ∷ []) }
    requires few { length front.now + length rows.now ≤ 512 }
    requires small { size front.now + size rows.now ≤ 4096 }
    ensures { OnOk result (shapes.new.items
        ≡ shapes.old.items ++ map (λ inner. without_last_zeros (front.now ++ inner))
        (shapes_inside rows.now most)) }
{
    let Some((row, below)) = rows.split_first() else {
        shapes.push(Partition::from_valid_numbers(alloc, front)?)?;
        return Ok(());
    };
    for part in 0..most.min(*row) + 1 {
        let next = with_part(alloc, front, part)?;
        add_shapes(alloc, shapes, &next, below, part)?;
    }
    Ok(())
}

/// The list `numbers` with `part` appended.
fn with_part(alloc: Global, numbers: &[u16], part: u16) -> Result<Vec<u16>, NoMemory>
    ensures { IfOk result (λ next. next.items ≡ numbers.now ++ part ∷ []) }
{
    let mut next = Vec::from_slice(alloc, numbers)?;
    next.push(part)?;
    Ok(next)
}
