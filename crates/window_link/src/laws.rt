// The law of a link.
ghost use Rattle.std.specs.Prelude.{◌≡◌, ◌≤◌, List, ℕ, length};
ghost use Rattle.kahn_net.specs.Common.{IsPrefix};
ghost use Rattle.window_link.specs.Link.{LinkEvent, run, opening, IsOneItemEach};

/// Whatever is lost, repeated or reordered, and whenever an end is set back: what the receiver has taken is a beginning of
/// the longest list that was ever appended, if two items appended at one position are equal. And what the sender
/// takes for acknowledged the receiver has reached, in the same epoch.
pub fn link_law()
    ensures prefix { (size : ℕ) (events : List LinkEvent) → let link = run events (opening size)
        in IsOneItemEach link.appends → IsPrefix link.taken link.longest }
    ensures next { (size : ℕ) (events : List LinkEvent) → let link = run events (opening size)
        in length link.taken ≡ link.receiver.next }
    ensures present { (size : ℕ) (events : List LinkEvent) → let link = run events (opening size)
        in link.reached link.receiver.epoch ≡ link.receiver.next }
    ensures acknowledged { (size : ℕ) (events : List LinkEvent) →
        let link = run events (opening size)
        in link.sender.acknowledged ≤ link.reached link.sender.epoch }
{}
