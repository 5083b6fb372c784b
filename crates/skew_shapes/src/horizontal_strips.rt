//! The partitions made by adding a horizontal strip of k cells to a partition, as a list and by a
//! lister, which is an iterator that is moved on by `advance`.
ghost use Rattle.std.specs.Prelude.{◌≡◌, ◌+◌, ◌^◌, ◌<◌, ◌≤◌, ◌∷◌, ◌++◌, [], None, ℕ, List, map};
ghost use Rattle.std.specs.Prelude.{IfOk, OnOk};
ghost use Rattle.sym_model.specs.Partition.{Falls, rows, size};
ghost use Rattle.sym_model.specs.Sum.{Among};
ghost use Rattle.partitions.specs.Limits.{IsWithinLimits};
ghost use Rattle.skew_shapes.specs.HorizontalStrips.{strips_on, AreHorizontalStrips};

use calc_base::{Lister, NoMemory};
use partitions::Partition;
use std::alloc::Global;
use std::marker::Model;

/// A lister (trait `Lister`) of the partitions ν such that ν/inner is a horizontal strip of k
/// cells, for given inner and k, in decreasing lexicographic order, each once. All of them are
/// computed when the lister is made.
#[derive(Drop)]
pub struct HorizontalStrips {
    shapes: Vec<Partition>,
    // The number of shapes listed so far; after the end, the number of all shapes plus 1.
    listed: usize,
}

impl Model for HorizontalStrips {
    ghost use Rattle.std.specs.Prelude.{ℕ, List, Option, drop};

    ghost Value = { List (List ℕ) × Option (List ℕ) };

    ghost use Rattle.skew_shapes.specs.HorizontalStrips.{last_of};

    ghost view = { λ l. (drop l.listed l.shapes.items, last_of l.listed l.shapes.items) };
}

impl HorizontalStrips {
    /// A lister of the partitions made by adding a horizontal strip of `k` cells to `inner`. At
    /// first none of them is the current one. `inner` must have at most 4,096 - k cells and at most
    /// 512 - k rows. For k = 0 the only listed partition is `inner`.
    pub fn new(alloc: Global, inner: &Partition, k: u16) -> Result<HorizontalStrips, NoMemory>
        requires cells { size inner.now + k ≤ 4096 }
        requires rows { rows inner.now + k ≤ 512 }
        ensures strips { IfOk result (λ l.
            AreHorizontalStrips inner.now k (⟦<HorizontalStrips as Lister>⟧.rest l)) }
        ensures item { IfOk result (λ l. ⟦<HorizontalStrips as Lister>⟧.item l ≡ None) }
    {
        Ok(HorizontalStrips {
            shapes: with_horizontal_strip(alloc, inner, k)?,
            listed: 0,
        })
    }
}

impl Lister for HorizontalStrips {
    ghost rest = { λ l. l.0 };

    ghost item = { λ l. l.1 };

    fn advance(&mut self) -> bool {
        if self.listed < self.shapes.len() {
            self.listed += 1;
            return true;
        }
        self.listed = self.shapes.len() + 1;
        false
    }

    fn current(&self) -> &[u16] {
        self.shapes[self.listed - 1].parts()
    }
}

/// The partitions ν such that ν/inner is a horizontal strip of `k` cells, in decreasing
/// lexicographic order, each once. `inner` must have at most 4,096 - k cells and at most 512 - k
/// rows. For k = 0 the only one is `inner`.
pub fn with_horizontal_strip(
    alloc: Global,
    inner: &Partition,
    k: u16,
) -> Result<Vec<Partition>, NoMemory>
    requires cells { size inner.now + k ≤ 4096 }
    requires rows { rows inner.now + k ≤ 512 }
    ensures { IfOk result (λ shapes. AreHorizontalStrips inner.now k shapes.items) }
{
    let mut shapes = Vec::new(alloc);
    let mut above = Vec::with_capacity(alloc, usize::from(inner.rows()) + 1)?;
    add_strips(
        alloc,
        inner.part(1) + k,
        k,
        inner.parts(),
        &mut above,
        &mut shapes,
    )?;
    Ok(shapes)
}

/// Appends to `shapes` one partition for each partition ν whose first row has at most `most` cells
/// and that is made by adding a horizontal strip of `left` cells to `inner` (these are `strips_on
/// most left inner`): the partition with the rows of `above` followed by those of ν. At the end
/// `above` is unchanged.
fn add_strips(
    alloc: Global,
    most: u16,
    left: u16,
    inner: &[u16],
    above: &mut Vec<u16>,
    shapes: &mut Vec<Partition>,
) -> Result<(), NoMemory>
    requires falls { Falls (most ∷ inner.now) }
    requires room { left ≤ most }
    requires small { most < 2 ^ 15 }
    requires limits { (rest : List ℕ) → Among rest (strips_on most left inner.now)
        → IsWithinLimits (above.old.items ++ rest) }
    ensures same { OnOk result (above.new.items ≡ above.old.items) }
    ensures shapes { OnOk result (shapes.new.items
        ≡ shapes.old.items ++ map (λ rest. above.old.items ++ rest)
        (strips_on most left inner.now)) }
{
    let [first, below @ ..] = inner else {
        return add_last(alloc, left, above, shapes);
    };
    let len = above.len();
    let longest = most.min(*first + left);
    let shortest = left.max(*first);
    for shorter in 0..longest + 1 - shortest {
        let row = longest - shorter;
        above.push(row)?;
        add_strips(alloc, *first, left + *first - row, below, above, shapes)?;
        above.truncate(len);
    }
    Ok(())
}

/// Appends to `shapes` the partition with the rows of `above` and, if `left` is not 0, a last row
/// of `left` cells. At the end `above` is unchanged.
fn add_last(
    alloc: Global,
    left: u16,
    above: &mut Vec<u16>,
    shapes: &mut Vec<Partition>,
) -> Result<(), NoMemory>
    requires { (rest : List ℕ) → Among rest (strips_on left left [])
        → IsWithinLimits (above.old.items ++ rest) }
    ensures same { OnOk result (above.new.items ≡ above.old.items) }
    ensures shapes { OnOk result (shapes.new.items
        ≡ shapes.old.items ++ map (λ rest. above.old.items ++ rest) (strips_on left left [])) }
{
    if left == 0 {
        shapes.push(Partition::from_valid_parts(alloc, above)?)?;
        return Ok(());
    }
    let len = above.len();
    above.push(left)?;
    shapes.push(Partition::from_valid_parts(alloc, above)?)?;
    above.truncate(len);
    Ok(())
}
