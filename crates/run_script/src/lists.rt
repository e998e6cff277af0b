// Lists as a script has them, made as texts to be compared with its own.
ghost use Rattle.std.specs.Prelude.{◌≡◌, IfOk, string_bytes, map};
ghost use Rattle.run_script.specs.Lists.{list_text, time_written};

use itertools::Itertools;
use std::alloc::{AllocError, Global};

// The pieces with a space between each two, as `0-1 0-2`, or `none`.
pub fn listed(heap: Global, pieces: &[String]) -> Result<String, AllocError>
    ensures { IfOk result (λ text. string_bytes text ≡ list_text (map string_bytes pieces.now)) }
{
    if pieces.is_empty() {
        return String::from_str(heap, "none");
    }
    pieces.iter().join(heap, " ")
}

// A time, as `(1,0)`.
pub fn time_text(heap: Global, time: &[u32]) -> Result<String, AllocError>
    ensures { IfOk result (λ text. string_bytes text ≡ time_written time.now) }
{
    let entries = time.iter().join(heap, ",")?;
    format!(in heap; "({entries})")
}
