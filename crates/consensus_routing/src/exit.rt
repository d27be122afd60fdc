//! How the process ends.
ghost use Rattle.std.specs.Prelude.{◌≡◌};
ghost use Rattle.std.specs.Process.{exit_status};
ghost use Rattle.topology.specs.Codes.{code_of};

use std::process::ExitCode;
use topology::Status;

/// What the process ends with after a run that ended so.
pub fn exit_of(status: &Status) -> ExitCode
    ensures { exit_status result ≡ code_of status.now }
{
    ExitCode::from(status.code())
}
