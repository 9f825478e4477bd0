// Writing an answer as road text.
ghost use Rattle.std.specs.Prelude.{◌≡◌, IfOk, string_bytes};
ghost use Rattle.roadtext.specs.Answer.{answer_bytes};

use std::alloc::{AllocError, Global};

// The line that answers an ask: the two junctions and the value between them, or `none`. It has no line end.
pub fn answer_line(
    heap: Global,
    from: u64,
    to: u64,
    value: Option<u64>,
) -> Result<String, AllocError>
    ensures { IfOk result (λ t. string_bytes t ≡ answer_bytes from to value) }
{
    match value {
        Some(x) => format!(in heap; "{from} {to} {x}"),
        None => format!(in heap; "{from} {to} none"),
    }
}
