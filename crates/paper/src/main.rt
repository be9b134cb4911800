// What no log reaches, run: tables that no boot and no action comes to, an action by itself, a call's own refusals, lists. Each line is a frame, the
// answer's number and word, and every place of the tables that changed, as old>new: holders are 0 nobody, 1 the hypervisor, 2 + g guest g.
#![tactic(auto)]

use std::io;

mod built;
mod many;
mod show;

fn main(rt: HostRuntime) -> io::Result<()> {
    built::second_pair(&rt)?;
    built::reversed_pair(&rt)?;
    built::cached_alone(&rt)?;
    built::too_short(&rt)?;
    many::example(&rt)?;
    many::decoded(&rt)?;
    many::refused(&rt)
}
