//! What the code of a program is, as laws over the definitions: a caller that knows the code by
//! [`assemble`](crate::assemble) cites them.
ghost use Rattle.std.specs.Prelude.{◌≡◌, ◌≤◌, ◌+◌, ◌++◌, ℕ, Bool, List, length};
ghost use Rattle.std.specs.Bool.{OnTrue};
ghost use Rattle.sx_rv_isa.specs.declared.fields.Reg.{Reg};
ghost use Rattle.sx_rv_isa.specs.declared.instructions.BranchOp.{BranchOp};
ghost use Rattle.sx_rv_asm.specs.Arriving.{BranchArrives, JumpArrives, AddressArrives};
ghost use Rattle.sx_rv_asm.specs.Fetching.{Lies, LieInParts};
ghost use Rattle.sx_rv_asm.specs.Forms.{form_of};
ghost use Rattle.sx_rv_asm.specs.Items.{form_size};
ghost use Rattle.sx_rv_asm.specs.Walking.{InCode};
ghost use Rattle.sx_rv_asm.specs.Layout.{code_of, place_of, size_of, all_far, IsProgram, Stands, HasPlaces};
ghost use Rattle.sx_rv_asm.specs.declared.items.Item.{Item};

/// The law that the items of a program stand in its code one behind another, each in one of its
/// forms, with each label at its place.
pub fn code_stands()
    ensures { (items : List Item) → IsProgram items → Stands (place_of items) 0 items (code_of items) }
{}

/// The law that the items of a program lie in its code one behind another, so that a fetch finds
/// the instructions and data of each at its address.
pub fn code_lies()
    ensures { (items : List Item) → IsProgram items → Lies (code_of items) (place_of items) 0 items (length (code_of items)) }
{}

/// The law that items which lie in code can be taken apart.
pub fn items_lie_in_parts()
    ensures { (code : List ℕ) (place : ℕ → ℕ) (at : ℕ) (first second : List Item) (behind : ℕ) → Lies code place at (first ++ second) behind → LieInParts code place at first second behind }
{}

/// The law that labels stand within the code, at multiples of four bytes.
pub fn labels_have_places()
    ensures { (items : List Item) → IsProgram items → HasPlaces (place_of items) (length (code_of items)) }
{}

/// The law that each form has its size.
pub fn forms_have_sizes()
    ensures { (place : ℕ → ℕ) (at : ℕ) (near : Bool) (item : Item) → length (form_of place at near item) ≡ form_size near item }
{}

/// The law that the code is at most as long as with every item in its far form.
pub fn code_is_short()
    ensures { (items : List Item) → length (code_of items) ≤ size_of items (all_far items) }
{}

/// The law that a branch goes to its target where its condition holds, and else behind itself; its
/// far form changes no register but x31.
pub fn branch_arrives()
    ensures { (near : Bool) (cond : BranchOp) (rs1 rs2 : Reg) (base at target : ℕ) (registers : ℕ → ℕ) → InCode base at target → OnTrue near ((target ≤ at + 4094) × (at ≤ target + 4096)) → BranchArrives near cond rs1 rs2 base at target registers }
{}

/// The law that a jump goes to its target and leaves the address behind it in rd; its far form
/// changes no register but rd, and x31 where rd is x0.
pub fn jump_arrives()
    ensures { (near : Bool) (rd : Reg) (base at target : ℕ) (registers : ℕ → ℕ) → InCode base at target → OnTrue near ((target ≤ at + 1048574) × (at ≤ target + 1048576)) → JumpArrives near rd base at target registers }
{}

/// The law that an address is that of its target, in rd, and no other register changes.
pub fn address_arrives()
    ensures { (rd : Reg) (base at target : ℕ) (registers : ℕ → ℕ) → InCode base at target → AddressArrives rd base at target registers }
{}
