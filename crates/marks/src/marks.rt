//! The marks of a network.

ghost use Rattle.std.specs.Prelude.{◌≡◌, ◌≢◌, ◌+◌, ◌≤◌, ◌⊎◌, ◌↔◌, ℕ, [], ◌∷◌, ◌++◌, length, map, IfOk, IsTrue, IsSome};
ghost use Rattle.std.specs.Prelude.{None};
ghost use Rattle.marks.specs.Known.{known_of};

use crate::owners::{count_nodes, list_owners};
use crate::seat::{MarksName, Seat};
use crate::view::{Dealing, Entering, Raising, Reading, Rising, View};
use atomic_table::Table;
use net_check::Net;
use std::alloc::{AllocError, Global};
use std::marker::PhantomData;
use stream_eq::Freed;

/// A network's marks at 0, before they have a name.
#[derive(Drop)]
pub struct Opened {
    table: Table<(), View, Vec<Option<u8>>, Rising, Global>,
    owners: Vec<Option<u8>>,
    nodes: u8,
    driver: atomic_table::Seat<(), View>,
    ghost same: { table.shared.key ≡ owners },
    ghost room: { table.shared.table_id.words ≡ length owners.items + 1 },
    ghost here: { driver.table_id ≡ table.shared.table_id },
    ghost first: { driver.id ≡ 0 },
    ghost of_no_node: { driver.me.0.node ≡ None },
    ghost deals: { driver.me.0.dealt ≡ 0 },
    ghost knows_nothing: { (channel : ℕ) → known_of driver.me.0 channel ≡ [] },
}

impl Opened {
    ghost use Rattle.kahn_net.specs.Common.{node_count, network_of};
    ghost use Rattle.marks.specs.Owners.{nodes_from, owners_in};
    ghost use Rattle.std.specs.List.{All};
    ghost use Rattle.marks.specs.Seats.{known, node_of, opened_nodes, opened_owners, owners_of, table_of};

    /// The marks of this network, each at 0. Refused only where there is no memory.
    pub fn new(alloc: Global, net: &Net) -> Result<Opened, AllocError>
        ensures owners { IfOk result
            (λ opened. opened_owners opened ≡ owners_in (network_of net.now.program)) }
        ensures nodes { IfOk result
            (λ opened. opened_nodes opened ≡ node_count (network_of net.now.program)) }
    {
        let owners = list_owners(alloc, net)?;
        // A word for each channel, and one more: the table of a network without channels has to have one too.
        let words = vec![in alloc; 0u64; owners.len() + 1]?;
        let (table, driver) = Table::of_words(alloc, words.as_slice(), &owners)?;
        Ok(Opened {
            table,
            owners,
            nodes: count_nodes(net),
            driver,
        })
    }

    /// The marks by a name, and their seats: one for each node, in order, and last the driver's, which is of no node.
    /// Refused only where there is no memory.
    pub fn named<N: MarksName>(self, alloc: Global) -> Result<(Marks<N>, Vec<Seat<N>>), AllocError>
        requires here { table_of self ≡ N.table }
        ensures owners { IfOk result (λ made. owners_of made.0 ≡ opened_owners self) }
        ensures seats { IfOk result
            (λ made. map node_of made.1.items ≡ nodes_from 0 (opened_nodes self)) }
        ensures fresh { IfOk result
            (λ made. (channel : ℕ) → All (λ seat. known seat channel ≡ []) made.1.items) }
    {
        let Opened {
            table,
            owners,
            nodes,
            mut driver,
        } = self;
        let mut seats = Vec::with_capacity(alloc, usize::from(nodes) + 1)?;
        for node in 0..nodes {
            let seat = table.shared.split_seat::<Dealing>(&mut driver);
            seats.push_reserved(Seat::of_table(seat, Some(node)));
        }
        seats.push_reserved(Seat::of_table(driver, None));
        let marks = Marks {
            table,
            owners,
            name: PhantomData,
        };
        Ok((marks, seats))
    }
}

/// For each output of a network a number that only rises. Each number is a word of a table that changes by single steps
/// alone, so threads share the marks by `&`, and no call waits for another.
#[derive(Drop)]
pub struct Marks<N: MarksName> {
    table: Table<(), View, Vec<Option<u8>>, Rising, Global>,
    owners: Vec<Option<u8>>,
    name: PhantomData<N>,
    ghost same: { table.shared.key ≡ owners },
    ghost room: { table.shared.table_id.words ≡ length owners.items + 1 },
    ghost here: { table.shared.table_id ≡ N.table },
}

impl<N: MarksName> Marks<N> {
    ghost use Rattle.marks.specs.Owners.{IsOutputOf, owner_at};
    ghost use Rattle.marks.specs.Known.{BeginsWith, greatest};
    ghost use Rattle.marks.specs.Seats.{known, node_of, owners_of};
    ghost use Rattle.std.specs.List.{Contains};

    // The owner of a channel; none where it is no output, and beyond the channels.
    fn owner(&self, channel: u8) -> Option<u8>
        ensures { result ≡ owner_at (owners_of self.now) channel }
    {
        match self.owners.get(usize::from(channel)) {
            Some(owner) => *owner,
            None => None,
        }
    }

    /// How many channels the network has.
    pub fn channels(&self) -> usize
        ensures { result ≡ length (owners_of self.now) }
    {
        self.owners.len()
    }

    /// Whether the channel is an output of the seat's node.
    pub fn owns(&self, seat: &Seat<N>, channel: u8) -> bool
        ensures { IsTrue result ↔ IsOutputOf (owners_of self.now) (node_of seat.now) channel }
    {
        match self.owner(channel) {
            Some(owner) => seat.node() == Some(owner),
            None => false,
        }
    }

    /// Whether the seat may raise what has left: the output is one of these marks' network, and the seat is that of its
    /// node.
    pub fn fits(&self, seat: &Seat<N>, freed: &Freed) -> bool
        ensures { IsTrue result
            ↔ IsOutputOf (owners_of self.now) (node_of seat.now) freed.now.output }
    {
        self.owns(seat, freed.output)
    }

    /// Raises the mark of an output to the number of its items that have left, where it isn't as high yet. The seat then
    /// knows of it.
    pub fn raise(&self, seat: &mut Seat<N>, freed: Freed)
        requires fits { IsOutputOf (owners_of self.now) (node_of seat.old) freed.output }
        ensures node { node_of seat.new ≡ node_of seat.old }
        ensures raised { known seat.new freed.output
            ≡ known seat.old freed.output ++ freed.number ∷ [] }
        ensures others { (other : ℕ) → other ≢ freed.output
            → known seat.new other ≡ known seat.old other }
    {
        self.table
            .shared
            .fetch_max::<Raising>(&mut seat.seat, usize::from(freed.output), freed.number);
    }

    /// A further seat, which only reads: it is of no node, and knows of no raise yet. It takes no memory.
    pub fn reader(&self) -> Seat<N>
        ensures node { node_of result ≡ None }
        ensures fresh { (channel : ℕ) → known result channel ≡ [] }
    {
        let (_word, seat) = self.table.shared.load_new_seat::<Entering>(0);
        Seat::of_table(seat, None)
    }

    /// Reads the mark of a channel: 0 where the channel is no output, and else 0 or a number that the seat of the output's
    /// node raised. It is never below what this seat raised or read there before.
    pub fn read(&self, seat: &mut Seat<N>, channel: u8) -> u64
        ensures node { node_of seat.new ≡ node_of seat.old }
        ensures no_output { owner_at (owners_of self.now) channel ≡ None → result ≡ 0 }
        ensures was_raised { (result ≡ 0) ⊎ Contains (known seat.new channel) result }
        ensures is_greatest { IsSome (owner_at (owners_of self.now) channel)
            → result ≡ greatest (known seat.new channel) }
        ensures rises { IsSome (owner_at (owners_of self.now) channel)
            → greatest (known seat.old channel) ≤ result }
        ensures grows { BeginsWith (known seat.new channel) (known seat.old channel) }
        ensures others { (other : ℕ) → other ≢ channel
            → known seat.new other ≡ known seat.old other }
    {
        match self.owner(channel) {
            Some(_) => self
                .table
                .shared
                .load::<Reading>(&mut seat.seat, usize::from(channel)),
            None => 0,
        }
    }
}
