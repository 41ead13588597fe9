//! `encode_core` and `decode_core`, a core as bytes.

ghost use Rattle.std.specs.Prelude.{IfOk, IsTrue};
ghost use Rattle.checkpoint_bytes.specs.Cores as spec;
ghost use Rattle.field_forms.specs.Spellings.{IsSpelling, IsWhole};

use crate::CoreForm;
use crate::core_form::AnyCore;
use crate::in_order::is_core_in_order;
use event_value::{Memory, Seq};
use field_forms::{decode_whole, encode_whole};
use std::alloc::Global;

/// The bytes of a core, of which the marks of each lane are in order of key and the waiting events
/// in order of time, segment and index, none twice.
///
/// # Errors
/// `Memory` where there was none for them, or where a list or a text in it has 2^32 items or more.
pub fn encode_core(alloc: Global, core: &CoreForm) -> Result<Seq<u8>, Memory>
    requires { IsTrue (spec.is_core_in_order core.now) }
    ensures { IfOk result (λ bytes. IsSpelling spec.core_form core.now bytes) }
{
    encode_whole::<CoreForm, AnyCore>(alloc, core)
}

/// The core whose bytes these are, and none exactly where they are no core's: also where a list of
/// a lane isn't in order.
///
/// # Errors
/// `Memory` where there was none for it.
pub fn decode_core(alloc: Global, bytes: &[u8]) -> Result<Option<CoreForm>, Memory>
    ensures { IfOk result (λ core. IsWhole spec.core_form bytes.now core) }
{
    match decode_whole::<CoreForm, AnyCore>(alloc, bytes)? {
        Some(core) => {
            if is_core_in_order(&core) {
                Ok(Some(core))
            } else {
                Ok(None)
            }
        }
        None => Ok(None),
    }
}
