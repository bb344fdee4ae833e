//! What the machine does at the items of a program that are no plain instructions.
ghost use Rattle.std.specs.Prelude.{ℕ, Bool, List};
ghost use Rattle.sx_rv_isa.specs.declared.fields.Reg.{Reg};
ghost use Rattle.sx_rv_isa.specs.declared.instructions.BranchOp.{BranchOp};
ghost use Rattle.sx_rv_isa.specs.declared.instructions.Instr.{Instr};
ghost use Rattle.sx_rv_asm.specs.declared.items.Item.TheVariants.{Plain, Branch, Jump, Address};
ghost use Rattle.sx_rv_machine.specs.State.{State};
ghost use Rattle.sx_rv_link.specs.Items.{IsAt, IsCarriedOut, BranchGoes, JumpGoes, AddressGoes};

/// The law that the machine at a branch comes to the label or behind the branch, in at most three
/// steps that change no register but x31.
pub fn branches_are_met()
    ensures { (code : List ℕ) (place : ℕ → ℕ) (s : State) (base at : ℕ) (near : Bool) (cond : BranchOp) (rs1 rs2 : Reg) (to : ℕ) → IsAt s code place base at near (Branch cond rs1 rs2 to) → BranchGoes s place base at near cond rs1 rs2 to }
{}

/// The law that the machine at a jump comes to the label, in at most two steps, with the address
/// behind the jump in rd.
pub fn jumps_are_met()
    ensures { (code : List ℕ) (place : ℕ → ℕ) (s : State) (base at : ℕ) (near : Bool) (rd : Reg) (to : ℕ) → IsAt s code place base at near (Jump rd to) → JumpGoes s place base at near rd to }
{}

/// The law that the machine at an address puts the label's address into rd, in two steps.
pub fn addresses_are_met()
    ensures { (code : List ℕ) (place : ℕ → ℕ) (s : State) (base at : ℕ) (near : Bool) (rd : Reg) (to : ℕ) → IsAt s code place base at near (Address rd to) → AddressGoes s place base at rd to }
{}

/// The law that the machine at a plain instruction carries it out.
pub fn instructions_are_met()
    ensures { (code : List ℕ) (place : ℕ → ℕ) (s : State) (base at : ℕ) (near : Bool) (i : Instr) → IsAt s code place base at near (Plain i) → IsCarriedOut s i }
{}
