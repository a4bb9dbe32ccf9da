// What the processes tell of a folder's files that were run again.

ghost use Rattle.std.specs.Prelude.{◌≡◌, IfErr, IfOk, map, true};
ghost use Rattle.protocol.specs.World.Common.{output_channels};
ghost use Rattle.rerun.specs.Resting.{IsAll};
ghost use Rattle.rerun.specs.Whole.{inputs_in, net_in, table_in};
ghost use Rattle.folder_status.specs.Endings.{AreRight, AreStreams, HasOther, IsEnding, is_differing};

use crate::again::Again;
use crate::comparing::{are_same, first_short, first_wrong, list_compared};
use crate::ending::Ending;
use crate::kept::KeptOutput;
use std::alloc::{AllocError, Global};

/// By output how many items of its file were compared; and whether more will come.
#[derive(Drop)]
pub(crate) struct Verdict {
    pub compared: Vec<u64>,
    pub ending: Ending,
}

/// Why there is no verdict.
#[derive(Clone, Copy)]
pub(crate) enum NoVerdict {
    NoMemory,
    /// The file of this place has other items.
    Differs { place: usize },
}

impl From<AllocError> for NoVerdict {
    ghost use Rattle.std.specs.Prelude.{◌≡◌};
    ghost use Rattle.folder_status.specs.declared.verdict.NoVerdict.TheVariants.{NoMemory};

    ghost from_gives = { λ _ none. none ≡ NoMemory };

    fn from(_: AllocError) -> Self {
        NoVerdict::NoMemory
    }
}

// Whether more will come, where the files are right.
fn ending_of(again: &Again, kept: &[KeptOutput], all: bool) -> Ending
    requires listed { map (λ output. output.channel) kept.now ≡ output_channels 0 (net_in again.now.rerun).channels }
    requires right { AreRight all kept.now again.now.outputs.items }
    requires has { all ≡ true → ∥ IsAll (net_in again.now.rerun) (inputs_in again.now.rerun) (table_in again.now.rerun) ∥₁ }
    ensures { IsEnding (net_in again.now.rerun) (inputs_in again.now.rerun) kept.now result }
{
    again.rerun.place_law();
    match first_short(kept, &again.outputs) {
        Some(_) => Ending::Partial,
        None => {
            if all && are_same(kept, &again.outputs) {
                Ending::Complete
            } else {
                Ending::Unsettled
            }
        }
    }
}

/// What the processes tell of the files.
pub(crate) fn find_verdict(
    alloc: Global,
    again: &Again,
    kept: &[KeptOutput],
) -> Result<Verdict, NoVerdict>
    requires { map (λ output. output.channel) kept.now ≡ output_channels 0 (net_in again.now.rerun).channels }
    ensures streams { IfOk result (λ told. AreStreams (net_in again.now.rerun) (inputs_in again.now.rerun) kept.now told.compared.items) }
    ensures ending { IfOk result (λ told. IsEnding (net_in again.now.rerun) (inputs_in again.now.rerun) kept.now told.ending) }
    ensures other { IfErr result (λ none. is_differing none ≡ true
        → HasOther (net_in again.now.rerun) (inputs_in again.now.rerun) kept.now) }
{
    let all = again.has_all();
    match first_wrong(kept, &again.outputs, all) {
        Some(place) => Err(NoVerdict::Differs { place }),
        None => Ok(Verdict {
            compared: list_compared(alloc, kept, &again.outputs)?,
            ending: ending_of(again, kept, all),
        }),
    }
}
