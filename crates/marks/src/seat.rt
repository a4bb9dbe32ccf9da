//! A seat at the marks, and the name by which it belongs to them.

ghost use Rattle.std.specs.Prelude.{◌≡◌};

use crate::view::View;
use std::marker::{Brand, PhantomData};

/// Names marks by a type. The marks and their seats have the same name, and a seat of other marks has another one, so that
/// it can't be handed to these. Whoever opens the marks picks the name, as a type parameter of a function that gets them
/// `Opened`.
pub trait MarksName {
    ghost use Rattle.atomic_table.specs.Seated.{TableId};

    /// The table of the marks of this name.
    ghost table: { TableId };
}

impl MarksName for Brand {
    ghost use Rattle.marks.specs.Names.{no_table};

    ghost table = { no_table };
}

/// A place at the marks: whoever has it reads each of them, and raises those of the outputs of one node, its own. There is
/// one seat of a node, so what is raised for an output comes from one thread at a time. The driver's is of no node, and so is
/// each seat that only reads.
#[derive(Drop)]
pub struct Seat<N: MarksName> {
    pub(crate) seat: atomic_table::Seat<(), View>,
    node: Option<u8>,
    name: PhantomData<N>,
    ghost own_node: { seat.me.0.node ≡ node },
    ghost here: { seat.table_id ≡ N.table },
}

impl<N: MarksName> Seat<N> {
    ghost use Rattle.marks.specs.Seats.{node_of};

    // A seat of the table by the name `N`. It stands by itself, since in a loop a struct's ghost fields are lost.
    pub(crate) fn of_table(seat: atomic_table::Seat<(), View>, node: Option<u8>) -> Seat<N>
        requires here { seat.table_id ≡ N.table }
        requires own_node { seat.me.0.node ≡ node }
        ensures seat { result.seat.me ≡ seat.me }
        ensures node { node_of result ≡ node }
    {
        Seat {
            seat,
            node,
            name: PhantomData,
        }
    }

    /// The node whose outputs the seat raises. None is the driver's, or that of a seat that only reads: it raises no output.
    pub fn node(&self) -> Option<u8>
        ensures { result ≡ node_of self.now }
    {
        self.node
    }
}
