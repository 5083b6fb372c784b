//! The partitions made by adding a vertical strip of k cells to a partition, as a list and by a
//! lister, which is an iterator that is moved on by `advance`.
ghost use Rattle.std.specs.Prelude.{◌≡◌, ◌+◌, ◌^◌, ◌<◌, ◌≤◌, ◌∷◌, ◌++◌, [], None, ℕ, List, map};
ghost use Rattle.std.specs.Prelude.{replicate, IfOk, OnOk};
ghost use Rattle.sym_model.specs.Partition.{Falls, rows, size};
ghost use Rattle.sym_model.specs.Sum.{Among};
ghost use Rattle.partitions.specs.Limits.{IsWithinLimits};
ghost use Rattle.skew_shapes.specs.VerticalStrips.{vertical_on, AreVerticalStrips};

use calc_base::{Lister, NoMemory};
use partitions::Partition;
use std::alloc::Global;
use std::marker::Model;

/// A lister (trait `Lister`) of the partitions ν such that ν/inner is a vertical strip of k cells,
/// for given inner and k, in decreasing lexicographic order, each once. All of them are computed
/// when the lister is made.
#[derive(Drop)]
pub struct VerticalStrips {
    shapes: Vec<Partition>,
    // The number of shapes listed so far; after the end, the number of all shapes plus 1.
    listed: usize,
}

impl Model for VerticalStrips {
    ghost use Rattle.std.specs.Prelude.{ℕ, List, Option, drop};

    ghost Value = { List (List ℕ) × Option (List ℕ) };

    ghost use Rattle.skew_shapes.specs.HorizontalStrips.{last_of};

    ghost view = { λ l. (drop l.listed l.shapes.items, last_of l.listed l.shapes.items) };
}

impl VerticalStrips {
    /// A lister of the partitions made by adding a vertical strip of `k` cells to `inner`. At first
    /// none of them is the current one. `inner` must have at most 4,096 - k cells and at most
    /// 512 - k rows. For k = 0 the only listed partition is `inner`.
    pub fn new(alloc: Global, inner: &Partition, k: u16) -> Result<VerticalStrips, NoMemory>
        requires cells { size inner.now + k ≤ 4096 }
        requires rows { rows inner.now + k ≤ 512 }
        ensures strips { IfOk result (λ l.
            AreVerticalStrips inner.now k (⟦<VerticalStrips as Lister>⟧.rest l)) }
        ensures item { IfOk result (λ l. ⟦<VerticalStrips as Lister>⟧.item l ≡ None) }
    {
        Ok(VerticalStrips {
            shapes: with_vertical_strip(alloc, inner, k)?,
            listed: 0,
        })
    }
}

impl Lister for VerticalStrips {
    ghost rest = { λ l. l.0 };

    ghost item = { λ l. l.1 };

    fn advance(&mut self) -> bool {
        if self.listed < self.shapes.len() {
            self.listed += 1;
            return true;
        }
        self.listed = self.shapes.len() + 1;
        false
    }

    fn current(&self) -> &[u16] {
        self.shapes[self.listed - 1].parts()
    }
}

/// The partitions ν such that ν/inner is a vertical strip of `k` cells, in decreasing lexicographic
/// order, each once. `inner` must have at most 4,096 - k cells and at most 512 - k rows. For k = 0
/// the only one is `inner`.
pub fn with_vertical_strip(
    alloc: Global,
    inner: &Partition,
    k: u16,
) -> Result<Vec<Partition>, NoMemory>
    requires cells { size inner.now + k ≤ 4096 }
    requires rows { rows inner.now + k ≤ 512 }
    ensures { IfOk result (λ shapes. AreVerticalStrips inner.now k shapes.items) }
{
    let mut shapes = Vec::new(alloc);
    let mut above = Vec::with_capacity(alloc, usize::from(inner.rows() + k))?;
    add_strips(
        alloc,
        inner.part(1) + 1,
        k,
        inner.parts(),
        &mut above,
        &mut shapes,
    )?;
    Ok(shapes)
}

/// Appends to `shapes` one partition for each partition ν whose first row has at most `most` cells
/// and that is made by adding a vertical strip of `left` cells to `inner` (these are `vertical_on
/// most left inner`): the partition with the rows of `above` followed by those of ν. At the end
/// `above` is unchanged.
fn add_strips(
    alloc: Global,
    most: u16,
    left: u16,
    inner: &[u16],
    above: &mut Vec<u16>,
    shapes: &mut Vec<Partition>,
) -> Result<(), NoMemory>
    requires falls { Falls (most ∷ inner.now) }
    requires small { most + left < 2 ^ 14 }
    requires limits { (rest : List ℕ) → Among rest (vertical_on most left inner.now)
        → IsWithinLimits (above.old.items ++ rest) }
    ensures same { OnOk result (above.new.items ≡ above.old.items) }
    ensures shapes { OnOk result (shapes.new.items
        ≡ shapes.old.items ++ map (λ rest. above.old.items ++ rest)
        (vertical_on most left inner.now)) }
{
    let [first, below @ ..] = inner else {
        return add_ones(alloc, left, above, shapes);
    };
    let len = above.len();
    let longest = most.min(*first + left.min(1));
    for shorter in 0..longest + 1 - *first {
        let row = longest - shorter;
        above.push(row)?;
        add_strips(alloc, row, left + *first - row, below, above, shapes)?;
        above.truncate(len);
    }
    Ok(())
}

/// Appends to `shapes` the partition with the rows of `above`, followed by `left` rows of one cell.
/// At the end `above` is unchanged.
fn add_ones(
    alloc: Global,
    left: u16,
    above: &mut Vec<u16>,
    shapes: &mut Vec<Partition>,
) -> Result<(), NoMemory>
    requires limits { IsWithinLimits (above.old.items ++ replicate left 1) }
    ensures same { OnOk result (above.new.items ≡ above.old.items) }
    ensures shapes { OnOk result (shapes.new.items
        ≡ shapes.old.items ++ ((above.old.items ++ replicate left 1) ∷ [])) }
{
    let len = above.len();
    above.resize(len + usize::from(left), 1)?;
    shapes.push(Partition::from_valid_parts(alloc, above)?)?;
    above.truncate(len);
    Ok(())
}
