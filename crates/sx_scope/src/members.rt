// What is declared, by types, names and numbers.

ghost use Rattle.std.specs.Prelude.{◌≡◌, option_copied};
ghost use Rattle.sx_scope.specs.Names as names;
ghost use Rattle.sx_scope.specs.Verdict.{Answers};

use crate::declarations::{Declarations, DeclaredType, Member, Signature};
use crate::stop::TypeKind;
use crate::walk::{Found, Judged, Walk};
use sx_span::Node;
use sx_types::Ty;

/// The structure or class that is this type.
pub fn declared_type(declarations: &Declarations, ty: Ty) -> Option<&DeclaredType>
    ensures { option_copied result ≡ names.declared_type declarations.now ty }
{
    match ty {
        Ty::Struct(number) => declarations.structures.get(number as usize),
        Ty::Class(number) => declarations.classes.get(number as usize),
        _ => None,
    }
}

/// Whether the type is a structure or class whose declaration has failed.
pub fn type_failed(declarations: &Declarations, ty: Ty) -> bool
    ensures { result ≡ names.type_failed declarations.now ty }
{
    match declared_type(declarations, ty) {
        None => false,
        Some(declared) => declared.failed,
    }
}

/// The node that declares the type, if it is a structure or class.
pub fn type_node(declarations: &Declarations, ty: Ty) -> Node
    ensures { result ≡ names.type_node declarations.now ty }
{
    match declared_type(declarations, ty) {
        None => Node(0),
        Some(declared) => declared.node,
    }
}

/// The member of the type with this name.
pub fn find_member(declarations: &Declarations, ty: Ty, name: u32) -> Option<Member>
    ensures { result ≡ names.member declarations.now ty name }
{
    match declared_type(declarations, ty) {
        None => None,
        Some(declared) => declared.members.get(name),
    }
}

/// The member of the type with this name, if there is a type.
pub fn member_here(declarations: &Declarations, ty: Option<Ty>, name: u32) -> Option<Member>
    ensures { result ≡ names.member_here declarations.now ty name }
{
    match ty {
        None => None,
        Some(ty) => find_member(declarations, ty, name),
    }
}

/// The function or method with this number.
pub fn find_function(declarations: &Declarations, number: u32) -> Option<&Signature>
    ensures { option_copied result ≡ names.function declarations.now number }
{
    declarations.functions.get(number as usize)
}

/// A method where a value stands, which it can't.
pub fn method_value(declarations: &Declarations, walk: &Walk, node: Node, number: u32) -> Judged
    ensures { Answers result walk.now (names.method_value declarations.now node (names.function declarations.now number) walk.now) }
{
    match find_function(declarations, number) {
        None => Ok(Found::Depends),
        Some(signature) => {
            if signature.failed {
                Ok(Found::Depends)
            } else {
                walk.fails(TypeKind::NotAValue, node)
            }
        }
    }
}
