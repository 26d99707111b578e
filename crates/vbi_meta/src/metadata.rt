//! The bytes of a metadata file as a JSON document.

ghost use Rattle.std.specs.Prelude.{◌<◌, ◌↔◌, length, IfOk, IfErr, IsErrOf};
ghost use Rattle.serde_json.specs.View.{view};
ghost use Rattle.vbi_meta.specs.Settings.{IsMetadata, IsUnread};

use crate::fault::MetaFault;
use serde_json::Value;
use std::alloc::Global;

/// The most bytes of metadata that are read.
pub const META_LIMIT: usize = 268_435_456;

/// Reads a metadata document. It takes memory for the document: as measured, 15 times its bytes in ld-decode's form,
/// and up to 130 times on other JSON.
pub fn read_meta(alloc: Global, bytes: &[u8]) -> Result<Value, MetaFault>
    ensures ok { IfOk result (λ v. IsMetadata bytes.now (view v)) }
    ensures too_large { IsErrOf result MetaFault.TooLarge ↔ (META_LIMIT < length bytes.now) }
    ensures err { IfErr result (IsUnread bytes.now) }
{
    if bytes.len() > META_LIMIT {
        return Err(MetaFault::TooLarge);
    }
    match Value::from_slice(alloc, bytes) {
        Ok(value) => Ok(value),
        Err(fault) if fault.is_memory() => Err(MetaFault::OutOfMemory),
        Err(_) => Err(MetaFault::NotJson),
    }
}
