// The file of an output in a folder, as it was opened.
ghost use Rattle.std.specs.Prelude.{◌≡◌, []};

use host::LineFile;
use output_file::HeldItems;
use std::snapshot::Snapshot;

/// The file of an output, which was just opened, and the items that it holds.
#[derive(Drop)]
pub struct HeldFile<F: LineFile> {
    pub file: F,
    pub held: HeldItems,
    pub ghost unasked: { F.asked file ≡ [] },
}

/// The name of a file that was opened, and what it held.
#[derive(Drop)]
pub struct OpenedName {
    pub name: String,
    pub bytes: Snapshot<Vec<u8>>,
}
