// Laws of worlds that begin where processes were run again.
ghost use Rattle.resuming.specs.Resuming.{IsLeftThere};

/// The images that the nodes have there, and what has left by then, are such as some world of the network leaves. So all that is true of a
/// world, whatever events came before, is true of one that begins with them.
pub fn resuming_law()
    ensures { IsLeftThere }
{}
