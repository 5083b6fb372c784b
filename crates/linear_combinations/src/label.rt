//! The trait of labels, and partitions as labels.
ghost use Rattle.std.specs.Prelude.{◌≡◌, nat_le, Bool, true, IsTrue, IsOk, IfOk};
ghost use Rattle.std.specs.Cmp.{IsTotalOrder};
ghost use Rattle.std.specs.declared.cmp.Ordering.{Ordering};
ghost use Rattle.std.specs.declared.cmp.Ordering.TheVariants.{Equal};
ghost use Rattle.sym_model.specs.Canonical.{is_label};
ghost use Rattle.sym_model.specs.Partition.{rows};
ghost use Rattle.sym_model.specs.PrintedOrder.{printed_order};

use calc_base::NoMemory;
use partitions::Partition;
use std::cmp::Ordering;
use std::hash::Hash;

/// Labels of terms. Labels that compare as equal are the same value. Each type of labels has one
/// total order, in which its labels are printed.
pub trait Label: Eq + Hash + Drop {
    // Whether a label is within the limits of its type, as every value of the type is.
    ghost is_label: { Self → Bool };

    // Whether a label is so short that it can be stored without allocating memory.
    ghost is_short: { Self → Bool };

    // The order in which labels are printed.
    ghost order: { Self → Self → Ordering };

    /// Compares this label with `other` in the printed order. The result is `Equal` only if the two
    /// labels are equal.
    fn cmp_printed(&self, other: &Self) -> Ordering
        ensures value { result ≡ order self.now other.now }
        ensures equal { result ≡ Ordering.Equal → self.now ≡ other.now }
        ensures limits { IsTrue (is_label self.now) };

    /// An equal label. A short label is copied without allocating memory.
    fn copy(&self) -> Result<Self, NoMemory>
        ensures ok { IfOk result (λ copy. copy ≡ self.now) }
        ensures inline { IsTrue (is_short self.now) → IsOk result };

    ghost same_label: { (a b : Self) → Self.eq a b ≡ true → a ≡ b };

    ghost order_total: { IsTotalOrder order };

    ghost order_equal: { (a b : Self) → IsTrue (is_label a) → IsTrue (is_label b)
        → order a b ≡ Equal → a ≡ b };
}

impl Label for Partition {
    ghost use Rattle.sym_model.proofs.Orders.{printed_order-total};
    ghost use Rattle.printing_laws.proofs.Labels.{same_partition, partition_order_equal};

    ghost is_label = { is_label };

    ghost is_short = { λ parts. nat_le (rows parts) 16 };

    ghost order = { printed_order };

    fn cmp_printed(&self, other: &Partition) -> Ordering {
        Partition::cmp_printed(self, other)
    }

    fn copy(&self) -> Result<Partition, NoMemory> {
        Partition::copy(self)
    }

    ghost same_label = { same_partition };

    ghost order_total = { printed_order-total };

    ghost order_equal = { partition_order_equal };
}

/// Does nothing at run time: its `ensures` clause proves that `label` is within the limits of its
/// type.
pub(crate) fn lies_in_limits<L: Label>(label: &L)
    ensures { IsTrue (L.is_label label.now) }
{
    let _ = label.cmp_printed(label);
}
