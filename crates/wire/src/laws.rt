// What holds of all packets in flight.
ghost use Rattle.std.specs.Prelude.{◌≡◌, ◌++◌, ℕ, Bool, List, IsTrue, Some, slice_get, option_map, remove};
ghost use Rattle.wire.specs.declared.queue.Flight.{Flight};
ghost use Rattle.wire.specs.declared.rule.Fate.{Fate};
ghost use Rattle.wire.specs.Queue.{AllPackets, flights_of, with_delay, with_copy};

/// Whatever arrives was sent: a test that each packet in flight passes, and each packet that is sent, is passed by each
/// packet in flight after every act, and so by each that arrives.
pub fn nothing_is_made_up()
    ensures sent { (test : List ℕ → Bool) (flights : List Flight) (fate : Fate)
        (packet : List ℕ) (round : ℕ) → AllPackets test flights → IsTrue (test packet)
        → AllPackets test (flights ++ flights_of fate packet round) }
    ensures repeated { (test : List ℕ → Bool) (flights : List Flight) (place : ℕ)
        → AllPackets test flights → AllPackets test (with_copy flights place) }
    ensures delayed { (test : List ℕ → Bool) (flights : List Flight) (place rounds : ℕ)
        → AllPackets test flights → AllPackets test (with_delay flights place rounds) }
    ensures gone { (test : List ℕ → Bool) (flights : List Flight) (place : ℕ)
        → AllPackets test flights → AllPackets test (remove flights place) }
    ensures arrives { (test : List ℕ → Bool) (flights : List Flight) (place : ℕ) (packet : List ℕ)
        → AllPackets test flights
        → option_map (λ f. f.packet) (slice_get flights place) ≡ Some packet
        → IsTrue (test packet) }
{}
