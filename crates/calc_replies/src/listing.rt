//! The tableaux that the command `tab` lists. Each tableau is written as soon as it is found.
ghost use Rattle.std.specs.Prelude.{◌≡◌, ◌≤◌, true, length, IfOk};
ghost use Rattle.std.specs.List.{flat_map};
ghost use Rattle.calc_base.specs.Puts.{Puts};
ghost use Rattle.sym_model.specs.Command as commands;
ghost use Rattle.sym_model.specs.Outcome.{readings_after};
ghost use Rattle.sym_model.specs.Partition.{size};
ghost use Rattle.sym_model.specs.TableauList.{filling_of};
ghost use Rattle.sym_model.specs.TableauText.{tableau_line, readings_text};
ghost use Rattle.calc_words.specs.Commands.{KeepsLimits};
ghost use Rattle.calc_words.specs.WrittenLimits.{IsInList};
ghost use Rattle.calc_replies.specs.Computed.{IsReplyTo, listing_text};

use crate::outcome::Outcome;
use crate::tableau_answer::{TableauAnswer, told};
use calc_base::{Lister, NoMemory, Sink, Word, put_if};
use expansion_printer::{ReadingOrder, print_in_order};
use partitions::Partition;
use skew_shapes::Skew;
use std::alloc::Global;
use tableau_iter::{Lattice, ResumeFault};

/// The lattice tableaux of a skew shape that have not been listed yet.
#[derive(Drop)]
pub struct Listing {
    /// The skew shape, with the order in which its cells are printed.
    pub order: ReadingOrder,
    /// The column readings of the tableaux that have not been listed yet.
    pub lattice: Lattice,
}

/// The list (of the type `Lattice`, which gives its items one at a time) of the column readings of
/// the lattice tableaux of a shape: of all of them, or of those after the tableau with the column
/// reading `after`, which must be in the list.
fn listed(alloc: Global, shape: &Skew, after: &Option<Word>) -> Result<Lattice, NoMemory>
    requires small { size shape.now.0 ≤ 512 }
    requires listed { IsInList shape.now.0 shape.now.1 after.now }
    ensures { IfOk result (λ l. l.rest ≡ readings_after shape.now.0 shape.now.1 after.now) }
{
    let rows = shape.outer().rows();
    let start = Partition::from_valid_parts(alloc, &[])?;
    let Some(last) = after else {
        return Lattice::new(alloc, shape, &start, rows);
    };
    match Lattice::resume(alloc, shape, &start, rows, last.as_slice()) {
        Ok(lattice) => Ok(lattice),
        Err(ResumeFault::NotInList) => unreachable!(),
        Err(ResumeFault::NoMemory) => Err(NoMemory),
    }
}

/// The outcome of `tab`: the lattice tableaux of shape outer/inner, all of them, or those after the
/// tableau with the column reading `after`, which must be in the list. If the outer shape does not
/// contain the inner one, there is no tableau.
pub(crate) fn tab(
    alloc: Global,
    outer: &Partition,
    inner: &Partition,
    after: &Option<Word>,
) -> Result<Outcome, NoMemory>
    requires { KeepsLimits (commands.tab outer.now inner.now after.now) }
    ensures { IsReplyTo (commands.tab outer.now inner.now after.now) result }
{
    let Some(shape) = Skew::new(outer.copy()?, inner.copy()?) else {
        return Ok(told(TableauAnswer::Listed { list: None }));
    };
    let lattice = listed(alloc, &shape, after)?;
    let order = ReadingOrder::new(alloc, shape)?;
    Ok(told(TableauAnswer::Listed {
        list: Some(Listing { order, lattice }),
    }))
}

/// Writes the tableaux of the list to the sink, a line for each, or the line `0` if there is no
/// tableau. Returns whether all calls of the sink succeeded.
pub(crate) fn put_listed<K: Sink>(list: &mut Option<Listing>, sink: &mut K) -> bool
    ensures { Puts true (K.seen sink.old) result (K.seen sink.new) (listing_text list.old) }
{
    match list {
        None => put_if(true, sink, b"0\n"),
        Some(list) => put_listing(list, sink),
    }
}

/// Writes a line to the sink for each tableau not listed yet, or the line `0` if there is no such
/// tableau. Returns whether all calls of the sink succeeded.
fn put_listing<K: Sink>(list: &mut Listing, sink: &mut K) -> bool
    ensures { Puts true (K.seen sink.old) result (K.seen sink.new)
        (readings_text list.old.order.0 list.old.order.1 list.old.lattice.rest) }
{
    if !list.lattice.advance() {
        return put_if(true, sink, b"0\n");
    }
    let well = print_in_order(&list.order, list.lattice.current(), sink).is_ok();
    put_lines(well, &list.order, &mut list.lattice, sink)
}

/// If `well` is true, that is, if no call of the sink has failed so far, writes a line for each
/// tableau not listed yet, until a call fails. Returns whether all calls of the sink succeeded.
fn put_lines<K: Sink>(well: bool, order: &ReadingOrder, lattice: &mut Lattice, sink: &mut K) -> bool
    ensures { Puts well (K.seen sink.old) result (K.seen sink.new)
        (flat_map (λ w. tableau_line (filling_of order.now.0 order.now.1 w)) lattice.old.rest) }
{
    let mut well = well;
    while well && lattice.advance() {
        well = print_in_order(order, lattice.current(), sink).is_ok();
    }
    well
}
