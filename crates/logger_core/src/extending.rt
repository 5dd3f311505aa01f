//! Metadata that become known.
ghost use Rattle.std.specs.Prelude.{◌≡◌, OnOk, OnErr};
ghost use Rattle.archive_meta.specs.Records.{Adds};

use archive_meta::MetaState;
use pcp_base::NoMemory;
use std::alloc::Global;

/// Adds framed records that contradict none.
pub(crate) fn extend(meta: &mut MetaState, alloc: Global, bytes: &[u8]) -> Result<(), NoMemory>
    ensures ok { OnOk result (Adds meta.old bytes.now meta.new) }
    ensures err { OnErr result (meta.new ≡ meta.old) }
{
    match meta.extend(alloc, bytes) {
        Ok(()) => Ok(()),
        Err(_) => Err(NoMemory),
    }
}
