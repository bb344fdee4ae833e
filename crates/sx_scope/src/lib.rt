//! What names mean, and where.
#![tactic(auto)]

mod agreement;
mod callees;
mod declarations;
mod found;
mod locals;
mod members;
mod names;
mod own;
mod paths;
mod stack;
mod stop;
mod table;
mod variables;
mod walk;
mod written;

pub use agreement::is_agreed;
pub use callees::{callable, called_member, called_name};
pub use declarations::{
    Declarations, DeclaredType, Known, Member, Signature, SignatureParameter, Storage,
    StoredProperty, Subscript, Symbol, TypeName, Variable, VariableType,
};
pub use found::{both, demand, joined};
pub use members::declared_type;
pub use names::{member_value, name_value};
pub use own::self_value;
pub use paths::{into_path, is_modifiable, subscript_of};
pub use stack::Stack;
pub use stop::{TypeKind, TypeStop};
pub use table::Table;
pub use variables::known_of;
pub use walk::{
    Asked, Callee, Found, Gives, Judged, JudgedCallee, Local, LocalKind, Place, SelfValue, Use,
    Walk,
};
pub use written::{function_number, is_void, type_option, type_written};
