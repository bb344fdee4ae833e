//! The state in which a machine starts.
ghost use Rattle.std.specs.Prelude.{◌≡◌, ◌≤◌, IfOk, All, length, map};
ghost use Rattle.sx_elf.specs.Loading.{view, part_in, parts_in, IsPlaced, IsLoadable};
ghost use Rattle.sx_rv_machine.specs.Load.{start_of, area_of, zeros};

use crate::NoMemory;
use crate::machine::Machine;
use crate::memory::MemoryArea;
use std::alloc::{AllocError, Global};
use sx_elf::{Loadable, Segment};

/// A machine at its start: all memory that its run can need is taken here, and no step takes any.
pub fn load(alloc: Global, loadable: &Loadable) -> Result<Machine, NoMemory>
    requires { IsLoadable (view loadable.now) }
    ensures { IfOk result (λ m. m ≡ start_of (view loadable.now)) }
{
    let areas = areas_of(alloc, &loadable.segments)?;
    Ok(Machine::at_start(areas, loadable.entry))
}

fn areas_of(alloc: Global, segments: &[Segment]) -> Result<Vec<MemoryArea>, AllocError>
    requires { All IsPlaced (parts_in segments.now) }
    ensures { IfOk result (λ areas. areas.items ≡ map area_of (parts_in segments.now)) }
{
    let mut areas = Vec::new(alloc);
    for segment in segments {
        areas.push(area_from(alloc, segment)?)?;
    }
    Ok(areas)
}

#[tactic(auto, unfolding(crate::specs::Load::zeros))]
fn area_from(alloc: Global, segment: &Segment) -> Result<MemoryArea, AllocError>
    requires { length segment.now.bytes.items ≤ segment.now.size }
    ensures { IfOk result (λ a. a ≡ area_of (part_in segment.now)) }
{
    let size = segment.size as usize;
    let mut bytes = Vec::with_capacity(alloc, size)?;
    bytes.extend_from_slice(&segment.bytes)?;
    bytes.resize(size, 0)?;
    Ok(MemoryArea {
        start: segment.start,
        flags: segment.flags,
        bytes,
    })
}
