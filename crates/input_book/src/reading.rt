//! The inputs of a document.

ghost use Rattle.std.specs.Prelude.{◌≡◌, IfOk, IfErr, Ok};
ghost use Rattle.input_book.specs.Inputs.{inputs_of, inputs_of_short};
ghost use Rattle.input_book.specs.Refusals.{IsRefusal};

use crate::InputErr;
use crate::document::read_document;
use crate::effective_check::check_effective;
use crate::limit_check::check_limits;
use crate::limits::MAX_DOCUMENT;
use crate::name_check::check_names;
use crate::order_check::check_order;
use crate::root::root_of;
use input_types::Inputs;
use std::alloc::Global;

#[tactic(auto, unfolding(crate::specs::Inputs::inputs_of_short))]
fn read_short(alloc: Global, text: &[u8]) -> Result<Inputs, InputErr>
    ensures ok { IfOk result (λ inputs. inputs_of_short text.now ≡ Ok inputs) }
    ensures err { IfErr result (IsRefusal (inputs_of_short text.now)) }
{
    let Some(root) = read_document(alloc, text)? else {
        return Err(InputErr::Toml);
    };
    let inputs = root_of(alloc, &root)?;
    check_limits(alloc, &inputs)?;
    check_names(alloc, &inputs)?;
    check_order(alloc, &inputs)?;
    check_effective(alloc, &inputs)?;
    Ok(inputs)
}

/// The inputs that a document says.
///
/// # Errors
/// The first cause for which the document is refused, or `Memory` where there was none to read it.
#[tactic(auto, unfolding(crate::specs::Inputs::inputs_of))]
pub fn read_inputs(alloc: Global, text: &[u8]) -> Result<Inputs, InputErr>
    ensures ok { IfOk result (λ inputs. inputs_of text.now ≡ Ok inputs) }
    ensures err { IfErr result (IsRefusal (inputs_of text.now)) }
{
    if MAX_DOCUMENT < text.len() {
        return Err(InputErr::TooLong);
    }
    read_short(alloc, text)
}
