//! `--version`: which version the program is.
ghost use Rattle.std.specs.Prelude.{◌≡◌, IfErr, OnOk};
ghost use Rattle.std.specs.Io.KnownBytes.{Appends};
ghost use Rattle.fax_tool.specs.code.Transfers.{IsGivenInPart};
ghost use Rattle.fax_tool.specs.Run.{HasWorked};
ghost use Rattle.fax_tool.specs.Streams.{no_faults};
ghost use Rattle.fax_tool.specs.Words.{version_text};

use crate::refusal::Refusal;
use crate::streams::Sink;
use crate::streams::transfer::{RetryCount, write_all};

/// The program's name and the version, which is that of the file `VERSION`.
const VERSION_TEXT: &str = "faxpages 1.15.0\n";

/// Writes the version.
pub fn version<W: Sink>(out: &mut W) -> Result<(), Refusal>
    requires { W.counts out.old ≡ no_faults }
    ensures ok { OnOk result (Appends (W.written out.old) (W.written out.new) version_text) }
    ensures worked { OnOk result (HasWorked (W.counts out.new)) }
    ensures err { IfErr result (IsGivenInPart (W.written out.old) (W.written out.new) version_text
        (W.counts out.new)) }
{
    let mut interruptions = RetryCount::NONE;
    write_all(out, &mut interruptions, VERSION_TEXT.as_bytes())
}
