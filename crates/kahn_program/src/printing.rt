//! The line that the program writes where it ends without a host, and its exit status.

ghost use Rattle.std.specs.Prelude.{◌≡◌, ◌≢◌, ◌⊎◌};
ghost use Rattle.std.specs.Io.KnownBytes.{Appends};
ghost use Rattle.kahn_program.specs.Failures.{failure_line, status_of};

use crate::failure::Failure;
use std::io::Write;

/// Writes the line of a failure, and gives its exit status: 1 where the line can't be written.
pub fn print_failure<W: Write>(failure: Failure, err: &mut W) -> u8
    ensures status { (result ≡ 1) ⊎ (result ≡ status_of failure) }
    // Unless the status is 1, the line was written.
    ensures written { result ≢ 1
        → Appends (W.contents err.old) (W.contents err.new) (failure_line failure) }
{
    if writeln!(err, "{failure}").is_err() {
        return 1;
    }
    failure.status()
}
