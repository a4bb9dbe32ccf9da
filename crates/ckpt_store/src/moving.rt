// The moves of a record, each in place, with what takes it back. No image is copied.
ghost use Rattle.std.specs.Prelude.{◌≡◌, ◌<◌, length, IsSome, IsTrue, None};
ghost use Rattle.ckpt_codec.specs.Common.{highest_seen, with_tentative, with_permanent, without_tentative};
ghost use Rattle.ckpt_codec.specs.Common.{with_epoch, without_own, IsRecord};
ghost use Rattle.ckpt_codec.specs.Lengths.{with_decided};
ghost use Rattle.ckpt_store.specs.Refusals.{is_held, refusal_to_take};
ghost use Rattle.ckpt_store.specs.Restoring.{with_held, own_in};
ghost use Rattle.ckpt_store.specs.Undoing.{TakesBack};

use crate::refusing::is_own_held;
use crate::undo::Undo;
use kahn_net::MAX_COUNT;
use record::{Decision, Image, Record, Tentative};
use std::mem;

// The highest number seen of an initiator.
fn entry_of(kept: &Record, initiator: u8) -> u64
    requires { initiator < length kept.now.highest }
    ensures { result ≡ highest_seen initiator kept.now }
{
    kept.highest[usize::from(initiator)]
}

/// Takes a tentative image of an instance.
pub fn take(kept: &mut Record, initiator: u8, number: u64, image: Image) -> Undo
    requires record { IsRecord kept.old }
    requires listed { initiator < length kept.old.highest }
    requires fine { refusal_to_take initiator number kept.old ≡ None }
    ensures next { kept.new ≡ with_tentative initiator number image kept.old }
    ensures back { TakesBack kept.old kept.new result }
{
    let entry = entry_of(kept, initiator);
    kept.highest[usize::from(initiator)] = number;
    kept.tentative = Some(Tentative {
        initiator,
        number,
        image,
    });
    Undo::Take { initiator, entry }
}

// Makes the tentative image permanent, and gives the permanent one that stood before.
fn swap_image(kept: &mut Record) -> Image
    requires { IsSome kept.old.tentative }
    ensures next { kept.new ≡ with_permanent kept.old }
    ensures permanent { result ≡ kept.old.permanent }
{
    let Tentative {
        initiator: _,
        number: _,
        image,
    } = kept.tentative.take().unwrap();
    mem::replace(&mut kept.permanent, image)
}

/// Makes the tentative image of an instance permanent.
pub fn promote(kept: &mut Record, initiator: u8, number: u64) -> Undo
    requires { IsTrue (is_held initiator number kept.old.tentative) }
    ensures next { kept.new ≡ with_permanent kept.old }
    ensures back { TakesBack kept.old kept.new result }
{
    let permanent = swap_image(kept);
    Undo::Promote {
        initiator,
        number,
        permanent,
    }
}

/// Lets go of the tentative image.
pub fn give_up(kept: &mut Record) -> Undo
    ensures next { kept.new ≡ without_tentative kept.old }
    ensures back { TakesBack kept.old kept.new result }
{
    let held = kept.tentative.take();
    Undo::GiveUp { held }
}

/// Makes the tentative image of the node's own instance permanent, and puts these decisions in the place of those before.
pub fn decide(kept: &mut Record, number: u64, decisions: Vec<Decision>) -> Undo
    requires { IsTrue (is_held kept.old.node number kept.old.tentative) }
    ensures next { kept.new ≡ with_decided decisions.items (with_permanent kept.old) }
    ensures back { TakesBack kept.old kept.new result }
{
    let initiator = kept.node;
    let permanent = swap_image(kept);
    let decisions = mem::replace(&mut kept.decisions, decisions);
    Undo::Decide {
        initiator,
        number,
        permanent,
        decisions,
    }
}

/// Puts decisions in the place of those before.
pub fn settle(kept: &mut Record, decisions: Vec<Decision>) -> Undo
    ensures next { kept.new ≡ with_decided decisions.items kept.old }
    ensures back { TakesBack kept.old kept.new result }
{
    let decisions = mem::replace(&mut kept.decisions, decisions);
    Undo::Settle { decisions }
}

// Lets go of a tentative image of the node's own, and gives that.
fn give_up_own(kept: &mut Record) -> Option<Tentative>
    ensures next { kept.new ≡ with_held (without_own kept.old.node kept.old.tentative) kept.old }
    ensures own { result ≡ own_in kept.old.node kept.old.tentative }
{
    if is_own_held(kept) {
        kept.tentative.take()
    } else {
        None
    }
}

/// Raises the epoch, and lets go of a tentative image of the node's own.
pub fn raise(kept: &mut Record) -> Undo
    requires { kept.old.epoch < MAX_COUNT }
    ensures next { kept.new ≡ with_epoch kept.old }
    ensures back { TakesBack kept.old kept.new result }
{
    kept.epoch += 1;
    let own = give_up_own(kept);
    Undo::Raise { own }
}
