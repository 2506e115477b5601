//! A machine's map, run by run.
ghost use Rattle.std.specs.Prelude.{◌≡◌, ◌++◌, ◌+◌, ◌<◌, ◌^◌, All, OnOk, OnErr};
ghost use Rattle.std.specs.List.{flat_map};
ghost use Rattle.program_say.specs.BootAndMapLines as says;
ghost use Rattle.program_say.specs.BootAndMapLines.{run_line};

use crate::lines::hex16::say_hex16;
use crate::say;
use bl_map::Region;
use std::alloc::{AllocError, Allocator};
use std::ops::Range;

fn say_run<A: Allocator + Copy>(out: &mut Vec<u8, A>, run: &Region) -> Result<(), AllocError>
    requires { run.now.base + run.now.length < 2 ^ 64 }
    ensures { OnOk result (out.new.items ≡ out.old.items ++ says.run_line run.now) }
{
    say_hex16(out, "", run.base, " ")?;
    say_hex16(out, "", run.base + run.length, " ")?;
    say!(out, "{}\n", run.kind.name())
}

fn say_runs<A: Allocator + Copy>(out: &mut Vec<u8, A>, runs: &[Region]) -> Result<(), AllocError>
    requires { All (λ run. run.base + run.length < 2 ^ 64) runs.now }
    ensures { OnOk result (out.new.items ≡ out.old.items ++ flat_map run_line runs.now) }
{
    for run in runs {
        say_run(out, run)?;
    }
    Ok(())
}

/// Appends the lines of a map: its runs, how many KiB are usable from 0 and from 1 MiB on, and the
/// pool. They are formed in `alloc` first, so that an error leaves the text as it was.
pub fn say_map<A: Allocator + Copy, B: Allocator>(
    alloc: A,
    runs: &[Region],
    low: u64,
    high: u64,
    pool: &Range<u64>,
    out: &mut Vec<u8, B>,
) -> Result<(), AllocError>
    requires { All (λ run. run.base + run.length < 2 ^ 64) runs.now }
    ensures ok { OnOk result
        (out.new.items ≡ out.old.items ++ says.map_lines runs.now low high pool.now) }
    ensures err { OnErr result (out.new.items ≡ out.old.items) }
{
    let mut lines = Vec::new(alloc);
    say_runs(&mut lines, runs)?;
    say!(&mut lines, "low {low}\nhigh {high}\n")?;
    say_hex16(&mut lines, "pool ", pool.start, " ")?;
    say_hex16(&mut lines, "", pool.end, "\n")?;
    out.extend_from_slice(&lines)
}
