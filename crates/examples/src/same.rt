//! Whether two heads are the same.
ghost use Rattle.std.specs.Prelude.{◌≡◌};
ghost use Rattle.head.specs.Words.{head_of};
ghost use Rattle.examples.specs.Same.{Exactly};

use head::dictionary::od_of;
use head::errors::errors_of;
use head::machines::{dll_of, nmt_of};
use head::memory::{history_of, queue_of};
use head::state::Head;
use head::watch::{earliest_of, soc_of};

/// Whether two heads are the same, part by part.
pub fn same_head(a: &Head, b: &Head) -> bool
    ensures { Exactly result (head_of a.now ≡ head_of b.now) }
{
    (nmt_of(a) == nmt_of(b))
        & (dll_of(a) == dll_of(b))
        & (errors_of(a) == errors_of(b))
        & (soc_of(a) == soc_of(b))
        & (od_of(a) == od_of(b))
        & (queue_of(a) == queue_of(b))
        & (history_of(a) == history_of(b))
        & (earliest_of(a) == earliest_of(b))
}
