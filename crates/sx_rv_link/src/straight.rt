//! Instructions one behind another that go straight on.
ghost use Rattle.std.specs.Prelude.{◌≡◌, ◌+◌, ◌*◌, ◌%◌, ◌≤◌, ℕ, List, Some, None, length};
ghost use Rattle.sx_rv_isa.specs.declared.instructions.Instr.{Instr};
ghost use Rattle.sx_rv_asm.specs.Fetching.{Fetches};
ghost use Rattle.sx_rv_machine.specs.State.{State};
ghost use Rattle.sx_rv_link.specs.Following.{LiesFirst};
ghost use Rattle.sx_rv_link.specs.Straight.{straight, WentStraight};

/// The law that the machine carries out instructions that go straight on, each in one step.
pub fn straight_is_followed()
    ensures { (code : List ℕ) (base at : ℕ) (is : List Instr) (s after : State) → (base + at) % 4 ≡ 0 → at + 4 * length is ≤ length code → Fetches code at is → LiesFirst s.memory base code → s.ending ≡ None → s.pc ≡ base + at → straight is s ≡ Some after → WentStraight s after (length is) (base + (at + 4 * length is)) }
{}
