//! Room for steps, and how one is stored.

ghost use Rattle.std.specs.Prelude.{◌≡◌, ◌+◌, ◌-◌, ◌<◌, ◌≤◌, ◌/◌, ◌^◌, ◌++◌, [], ◌∷◌};
ghost use Rattle.std.specs.Prelude.{IsOk, OnOk, max, min, vec_capacity, vec_len};
ghost use Rattle.roam_core.specs.Shown.{shown_event};
ghost use Rattle.roam_shard.specs.Stored.{HasNoClock};
ghost use Rattle.roam_shard.specs.Steps.{octets_came};

use crate::octets::octets_of;
use crate::step::Step;
use roam_core::Event;
use roam_wire::NoMemory;
use std::alloc::Allocator;

/// Makes room for one step more, where fewer than the limit are stored. A full list grows by an eighth of
/// its steps and by eight, but not past the limit: so what stands unused is at most that, where a list
/// that doubles could have as much again as its steps take.
pub(crate) fn reserve_one<A: Allocator>(
    steps: &mut Vec<Step<A>, A>,
    limit: usize,
) -> Result<(), NoMemory>
    requires { vec_len steps.old < limit }
    ensures items { steps.new.items ≡ steps.old.items }
    ensures room { OnOk result (vec_len steps.new < vec_capacity steps.new) }
    ensures unused { vec_capacity steps.new
        ≤ max (vec_capacity steps.old) (min limit (vec_len steps.old + vec_len steps.old / 8 + 8)) }
    ensures succeeds { vec_len steps.old < vec_capacity steps.old → IsOk result }
{
    let len = steps.len();
    if len < steps.capacity() {
        return Ok(());
    }
    let more = (len / 8 + 8).min(limit - len);
    steps.reserve_exact(more)?;
    Ok(())
}

/// Stores the step of an event for which there is room, with its octets. Takes no memory.
pub(crate) fn store<A: Allocator>(steps: &mut Vec<Step<A>, A>, octets: &mut u64, event: Event<A>)
    requires room { vec_len steps.old < vec_capacity steps.old }
    requires clock { HasNoClock (shown_event event) }
    ensures items { steps.new.items ≡ steps.old.items ++ shown_event event ∷ [] }
    ensures octets { octets.new ≡ min (octets.old + octets_came (shown_event event)) (2 ^ 64 - 1) }
{
    *octets = octets.saturating_add(octets_of(&event));
    steps.push_reserved(Step::new(event));
}
