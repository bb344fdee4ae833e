//! From instructions that stand one behind another to steps of the machine.
ghost use Rattle.std.specs.Prelude.{◌≡◌, ◌+◌, ◌*◌, ◌%◌, ◌≤◌, ℕ, List, Some, length};
ghost use Rattle.sx_rv_isa.specs.declared.instructions.Instr.{Instr};
ghost use Rattle.sx_rv_asm.specs.Fetching.{Fetches};
ghost use Rattle.sx_rv_asm.specs.Walking.{Hart, through};
ghost use Rattle.sx_rv_machine.specs.State.{State};
ghost use Rattle.sx_rv_link.specs.Following.{HasCode, Shows, Follows};

/// The law that the machine follows a walk through instructions that stand in its memory: in at most
/// a step for each of them it comes to the state in which the walk ends, and it writes nothing.
pub fn walks_are_followed()
    ensures { (code : List ℕ) (base at : ℕ) (is : List Instr) (s : State) (before after : Hart) → (base + at) % 4 ≡ 0 → at + 4 * length is ≤ length code → Fetches code at is → HasCode s base code → Shows s before → through (base + at) is before ≡ Some after → Follows s after (length is) }
{}
