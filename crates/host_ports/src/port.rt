//! A source of an input, and how far its items are read.

ghost use Rattle.std.specs.Prelude.{◌≡◌, ◌≢◌, ◌∷◌, [], ℕ, List, IfErr, IfOk, IfSome, None, OnErr, OnOk, false, true};
ghost use Rattle.host.specs.Answers.{answered};
ghost use Rattle.host.specs.Requests.{Request, Took};
ghost use Rattle.host_ports.specs.Forms.{IsReadAs, fault_in, is_end, reader_by};
ghost use Rattle.host_ports.specs.declared.form.Form.{Form as FormValue};
ghost use Rattle.host_ports.specs.Ports.{IsFaultOf, IsOpenOrNot, IsReadOn, PortStands};
ghost use Rattle.host_ports.specs.declared.fault.PortFault.TheVariants.{NoMemory};

use crate::fault::PortFault;
use crate::reader::Reader;
use host::HostFault;

/// A source of an input, and how far its items are read.
#[derive(Drop)]
pub struct Port<S: Drop> {
    pub source: S,
    pub reader: Reader,
    pub has_ended: bool,
    /// There was no memory for something that came, so that the source can't be read on.
    pub is_lost: bool,
}

// Reads what came of a source that wasn't at its end, or its end. Where there is no memory for that the source is lost.
fn read_piece<S: Drop>(
    port: &mut Port<S>,
    piece: &[u8],
    items: &mut Vec<i64>,
) -> Result<(), PortFault>
    requires opened { port.old.has_ended ≡ false }
    requires empty { items.old.items ≡ [] }
    ensures read { OnOk result ((form : FormValue) (came : List ℕ) → port.old.reader ≡ reader_by form came false
        → IsReadAs form came piece.now port.new.reader items.new.items) }
    ensures kept { OnOk result (port.new.is_lost ≡ port.old.is_lost) }
    ensures lost { OnErr result (port.new.is_lost ≡ true) }
    ensures source { port.new.source ≡ port.old.source }
    ensures ended { port.new.has_ended ≡ is_end piece.now }
    ensures failed { IfErr result (λ fault. fault ≡ NoMemory) }
{
    port.has_ended = piece.is_empty();
    match port.reader.read(piece, items) {
        Ok(()) => Ok(()),
        Err(_) => {
            port.is_lost = true;
            Err(PortFault::NoMemory)
        }
    }
}

// Why a source can't be read on, if it can't.
fn fault_of<S: Drop>(input: u8, port: &Port<S>) -> Option<PortFault>
    ensures fault { IfSome result (IsFaultOf input port.now) }
    ensures none { result ≡ None → (port.now.is_lost ≡ false) × (fault_in port.now.reader port.now.has_ended ≡ None) }
{
    if port.is_lost {
        return Some(PortFault::NoMemory);
    }
    match port.reader.fault(port.has_ended) {
        Some(fault) => Some(PortFault::Item { input, fault }),
        None => None,
    }
}

/// Whether more may come of an input's source, if it has one. A fault of what came is told here, by the call behind the one that gave the items
/// before it.
pub(crate) fn goes_on<S: Drop>(input: u8, port: &Option<Port<S>>) -> Result<bool, PortFault>
    ensures on { IfOk result (λ more. IsOpenOrNot more port.now) }
    ensures fault { IfErr result (λ fault. IfSome port.now (λ one. IsFaultOf input one fault)) }
    ensures none { OnErr result (port.now ≢ None) }
{
    let Some(port) = port else {
        return Ok(false);
    };
    match fault_of(input, port) {
        Some(fault) => Err(fault),
        None => Ok(!port.has_ended),
    }
}

/// What came next of a source that wasn't at its end, as the host answered, is read behind what was read before. Whether more may come.
pub(crate) fn read_answer<S: Drop>(
    input: u8,
    port: &mut Port<S>,
    answer: Result<(), HostFault>,
    piece: &Vec<u8>,
    items: &mut Vec<i64>,
) -> Result<bool, PortFault>
    requires opened { (port.old.has_ended ≡ false) × (port.old.is_lost ≡ false) }
    requires empty { items.old.items ≡ [] }
    ensures source { port.new.source ≡ port.old.source }
    // Whatever the log was before.
    ensures read { (form : FormValue) (e : List Request) → PortStands form e input port.old
        → IsReadOn form e (Took input (answered (λ done. piece.now.items) answer) ∷ e) input port.new items.new.items result }
{
    if let Err(fault) = answer {
        return Err(match fault {
            HostFault::NoMemory => PortFault::NoMemory,
            _ => PortFault::Unread { input },
        });
    }
    match read_piece(port, piece.as_slice(), items) {
        // A fault at the end is told by the next call.
        Ok(()) => Ok(!port.has_ended || port.reader.fault(true).is_some()),
        Err(fault) => Err(fault),
    }
}
