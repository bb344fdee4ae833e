// Where variables are stored, and accesses to them.

ghost use Rattle.std.specs.Prelude.{◌≡◌, ◌↔◌, IsTrue};
ghost use Rattle.sx_typed.specs.Storage.{Conflicts, ConflictBothWays, IsDynamic, IsPrefix, PartedFieldsAgree, ReadsAgree};

use sqlite_items::Items;

/// Where a path begins. A root that is made while a program runs has a number that no root before
/// it has had.
#[derive(Clone, Copy, Debug, PartialEq, Eq)]
pub enum Root {
    /// A stored global.
    Global(u32),
    /// The stored property with this number of an object.
    Property(u64, u32),
    /// A local in a box.
    Boxed(u64),
    /// A local of an activation.
    Local(u64),
    /// An in-out parameter of an activation, or the `self` of a body that mutates a structure.
    InOut(u64),
    /// A temporary.
    Temp(u64),
}

/// An access to the variable at a path: a root and stored properties that each lead further into
/// it.
#[derive(Debug, Drop)]
pub struct Access {
    pub root: Root,
    pub fields: Items<u32>,
    pub modifies: bool,
    /// The place where it is made.
    pub site: u32,
}

/// Whether two accesses conflict: they have one root, at least one of them modifies, and one of the
/// two variables holds the other. Where the root is a global, a property of an object or a box, the
/// whole of it counts as one variable.
pub fn conflict(a: &Access, b: &Access) -> bool
    ensures { IsTrue result ↔ Conflicts a.now b.now }
{
    a.root == b.root
        && (a.modifies || b.modifies)
        && (is_dynamic(a.root)
            || is_prefix(&a.fields, &b.fields)
            || is_prefix(&b.fields, &a.fields))
}

/// Whether the accesses to the root are compared while the program runs.
pub fn is_dynamic(root: Root) -> bool
    ensures { IsTrue result ↔ IsDynamic root }
{
    matches!(
        root,
        Root::Global(_) | Root::Property(_, _) | Root::Boxed(_)
    )
}

fn is_prefix(fields: &Items<u32>, longer: &Items<u32>) -> bool
    ensures { IsTrue result ↔ IsPrefix fields.now longer.now }
{
    longer.as_slice().starts_with(fields.as_slice())
}

/// Which of two accesses comes first doesn't matter.
pub fn conflicts_are_symmetric()
    ensures { ConflictBothWays }
{}

/// Two reads never conflict.
pub fn reads_never_conflict()
    ensures { ReadsAgree }
{}

/// Accesses to different stored properties of one variable that is no global, no property of an
/// object and in no box never conflict.
pub fn different_fields_never_conflict()
    ensures { PartedFieldsAgree }
{}
