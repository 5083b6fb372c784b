//! Terms labelled by pairs of partitions, made from terms labelled by partitions.
ghost use Rattle.std.specs.Prelude.{◌≡◌, [], ◌∷◌, ◌++◌, OnOk};
ghost use Rattle.fraction_laws.specs.Fractions.{whole};
ghost use Rattle.sym_model.specs.LabelLimits.{is_label};
ghost use Rattle.sym_model.specs.PrintedOrder.{printed_order};
ghost use Rattle.linear_combinations.specs.Entries.{IsCanonicalList};
ghost use Rattle.lr_coproduct.specs.PairTerms.{with_first};

use calc_base::NoMemory;
use coeff_rings::Int;
use linear_combinations::Terms;
use partitions::Partition;
use sparse_polys::Pair;

/// Appends to `pairs` the terms of `list`, with the pair (`first`, ν) in place of each label ν, and
/// appends `list` to `lists`.
pub(crate) fn add_list(
    pairs: &mut Vec<(Pair, Int)>,
    lists: &mut Vec<Terms<Partition, Int>>,
    first: &Partition,
    list: Terms<Partition, Int>,
) -> Result<(), NoMemory>
    ensures adds { OnOk result (pairs.new.items ≡ pairs.old.items ++ with_first first.now list) }
    ensures kept { OnOk result (lists.new.items ≡ lists.old.items ++ list ∷ []) }
    ensures canonical { IsCanonicalList printed_order is_label whole list }
{
    add_pairs(pairs, first, &list)?;
    lists.push(list)?;
    Ok(())
}

/// Appends to `pairs` the terms of `list`, with the pair (`first`, ν) in place of each label ν.
fn add_pairs(
    pairs: &mut Vec<(Pair, Int)>,
    first: &Partition,
    list: &Terms<Partition, Int>,
) -> Result<(), NoMemory>
    ensures adds { OnOk result
        (pairs.new.items ≡ pairs.old.items ++ with_first first.now list.now) }
    ensures canonical { IsCanonicalList printed_order is_label whole list.now }
{
    for (second, c) in list.iter() {
        add_pair(pairs, first, second, *c)?;
    }
    Ok(())
}

/// Appends to `pairs` the term with the label (`first`, `second`) and the coefficient `c`.
fn add_pair(
    pairs: &mut Vec<(Pair, Int)>,
    first: &Partition,
    second: &Partition,
    c: Int,
) -> Result<(), NoMemory>
    ensures { OnOk result
        (pairs.new.items ≡ pairs.old.items ++ ((first.now, second.now), c) ∷ []) }
{
    let pair = Pair {
        first: first.copy()?,
        second: second.copy()?,
    };
    pairs.push((pair, c))?;
    Ok(())
}
