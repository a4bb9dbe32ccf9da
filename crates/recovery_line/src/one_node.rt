//! Laws of one node.

ghost use Rattle.recovery_line.specs.Laws.{NodeOpens, NodeStaysOk, NodeHearsOk};
ghost use Rattle.recovery_line.specs.Laws.{NodeIsSound, OwnIsNotEffective, NodeNeverFallsBack};

/// A node of the opening world is in order.
pub fn node_opening_law()
    ensures { NodeOpens }
{}

/// Whatever steps a node makes by itself, it stays in order: it works, trims a log, releases an
/// item, rolls back, crashes, recovers, starts an instance, gives up or decides.
pub fn node_law()
    ensures { NodeStaysOk }
{}

/// A packet that comes leaves a node in order too. A verdict has to be on another's instance.
pub fn node_packet_law()
    ensures { NodeHearsOk }
{}

/// A node in order can restart from its permanent image: on its local channels nothing is an
/// orphan and nothing is lost, what was released is covered, and the rest of what it has put
/// stands in the current log. That image is the node's part of the recovery line, unless it holds
/// another's image.
pub fn node_sound_law()
    ensures restarts { NodeIsSound }
    ensures in_line { OwnIsNotEffective }
{}

/// No step that a node makes by itself lowers a count of its permanent image, or shortens an
/// outlet.
pub fn node_line_law()
    ensures { NodeNeverFallsBack }
{}
