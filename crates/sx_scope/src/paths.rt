// Expressions and paths of the typed tree.

ghost use Rattle.std.specs.Prelude.{◌≡◌, [], IfOk, map};
ghost use Rattle.sx_typed.specs.Layers.{component_of};
ghost use Rattle.sx_typed.specs.declared.code.HeadForm.{out-HeadForm};
ghost use Rattle.sx_typed.specs.declared.code.HeadForm.TheVariants as heads;
ghost use Rattle.sx_scope.specs.Paths as paths;

use crate::declarations::Storage;
use sqlite_items::{Boxed, Items};
use std::alloc::{AllocError, Global};
use sx_span::Node;
use sx_typed::{
    Accessors, Component, ComponentForm, Expr, Form, GlobalMention, Head, HeadForm, Lvalue,
};
use sx_types::Ty;

/// Whether the value stands at a path that can be modified: a variable or what has a setter, and
/// behind it stored properties and what has a setter.
pub fn is_modifiable(expr: &Expr) -> bool
    ensures { result ≡ paths.modifiable expr.now }
{
    match &expr.form {
        Form::Read(path) => is_modifiable_path(path),
        _ => false,
    }
}

fn is_modifiable_path(path: &Lvalue) -> bool
    ensures { result ≡ paths.modifiable_path path.now }
{
    is_modifiable_head(&path.head.form) && are_modifiable(path.components.as_slice())
}

fn are_modifiable(components: &[Component]) -> bool
    ensures { result ≡ paths.all_modifiable (map component_of components.now) }
{
    'turns: for component in components {
        if !is_modifiable_component(component) {
            return false;
        }
    }
    true
}

fn is_modifiable_head(form: &HeadForm) -> bool
    ensures { result ≡ paths.modifiable_head (out-HeadForm form.now) }
{
    match form {
        HeadForm::Variable(_)
        | HeadForm::Global(_)
        | HeadForm::GlobalObserved(_, _)
        | HeadForm::Property(_, _)
        | HeadForm::PropertyObserved(_, _, _) => true,
        HeadForm::GlobalComputed(accessors)
        | HeadForm::PropertyComputed(_, accessors)
        | HeadForm::PropertySubscript(_, _, accessors) => accessors.setter.is_some(),
        HeadForm::Evaluated(_) => false,
    }
}

fn is_modifiable_component(component: &Component) -> bool
    ensures { result ≡ paths.modifiable_component (component_of component.now) }
{
    match &component.form {
        ComponentForm::Field(_) | ComponentForm::Observed(_, _) | ComponentForm::Element(_) => true,
        ComponentForm::Computed(accessors) | ComponentForm::Subscript(_, accessors) => {
            accessors.setter.is_some()
        }
    }
}

fn head_alone(alloc: Global, node: Node, site: u32, ty: Ty, form: HeadForm) -> Lvalue
    ensures { result ≡ paths.a_path node site (paths.a_head node ty form) [] }
{
    Lvalue {
        node,
        site,
        head: Head { node, ty, form },
        components: Items::new(alloc),
    }
}

/// What is read where the path is a head alone.
pub fn read_head(alloc: Global, node: Node, site: u32, ty: Ty, form: HeadForm) -> Expr
    ensures { result ≡ paths.read_head node site ty form }
{
    Expr {
        node,
        site,
        ty,
        form: Form::Read(head_alone(alloc, node, site, ty, form)),
    }
}

/// The path at which a value stands: its own, or that of a value that is no variable.
pub fn into_path(alloc: Global, expr: Expr) -> Result<Lvalue, AllocError>
    ensures { IfOk result (λ l. l ≡ paths.path_of expr) }
{
    let node = expr.node;
    let site = expr.site;
    let ty = expr.ty;
    match expr.form {
        Form::Read(path) => Ok(path),
        form => {
            let value = Boxed::new(
                alloc,
                Expr {
                    node,
                    site,
                    ty,
                    form,
                },
            )?;
            Ok(head_alone(alloc, node, site, ty, HeadForm::Evaluated(value)))
        }
    }
}

/// The path, and one component behind it.
fn extended(
    node: Node,
    site: u32,
    ty: Ty,
    path: Lvalue,
    form: ComponentForm,
) -> Result<Lvalue, AllocError>
    ensures { IfOk result (λ l. l ≡ paths.extended node site ty path form) }
{
    let mut components = path.components;
    components.push(Component { node, ty, form })?;
    Ok(Lvalue {
        node,
        site,
        head: path.head,
        components,
    })
}

fn read_component(
    alloc: Global,
    node: Node,
    site: u32,
    ty: Ty,
    base: Expr,
    form: ComponentForm,
) -> Result<Expr, AllocError>
    ensures { IfOk result (λ e. e ≡ paths.read_component node site ty base form) }
{
    let path = into_path(alloc, base)?;
    let path = extended(node, site, ty, path, form)?;
    Ok(Expr {
        node,
        site,
        ty,
        form: Form::Read(path),
    })
}

/// A property of a value. In its own observers it is `plain`: stored without observers.
pub fn property_of(
    alloc: Global,
    node: Node,
    site: u32,
    ty: Ty,
    plain: bool,
    base: Expr,
    storage: Storage,
) -> Result<Expr, AllocError>
    ensures { IfOk result (λ e. e ≡ paths.property_of node site ty plain base storage) }
{
    match base.ty {
        Ty::Class(_) => {
            let form = object_form(alloc, plain, base, storage)?;
            Ok(read_head(alloc, node, site, ty, form))
        }
        _ => read_component(alloc, node, site, ty, base, component_form(plain, storage)),
    }
}

/// A subscript of a value, with its arguments.
pub fn subscript_of(
    alloc: Global,
    node: Node,
    site: u32,
    ty: Ty,
    base: Expr,
    indices: Items<Expr>,
    accessors: Accessors,
) -> Result<Expr, AllocError>
    ensures { IfOk result (λ e. e ≡ paths.subscript_of node site ty base indices accessors) }
{
    match base.ty {
        Ty::Class(_) => {
            let form = object_subscript(alloc, base, indices, accessors)?;
            Ok(read_head(alloc, node, site, ty, form))
        }
        _ => {
            let form = ComponentForm::Subscript(indices, accessors);
            read_component(alloc, node, site, ty, base, form)
        }
    }
}

fn object_subscript(
    alloc: Global,
    base: Expr,
    indices: Items<Expr>,
    accessors: Accessors,
) -> Result<HeadForm, AllocError>
    ensures { IfOk result (λ f. f ≡ heads.PropertySubscript base indices accessors) }
{
    Ok(HeadForm::PropertySubscript(Boxed::new(alloc, base)?, indices, accessors))
}

/// A stored or computed global. In its own observers it is `plain`: stored without observers.
pub fn global_of(
    alloc: Global,
    node: Node,
    site: u32,
    ty: Ty,
    plain: bool,
    storage: Storage,
) -> Expr
    ensures { result ≡ paths.global_of node site ty plain storage }
{
    match storage {
        Storage::Constant(global) => Expr {
            node,
            site,
            ty,
            form: Form::GlobalConstant(mention_of_global(global)),
        },
        Storage::Stored(global) => {
            let form = HeadForm::Global(mention_of_global(global));
            read_head(alloc, node, site, ty, form)
        }
        Storage::Observed(global, observers) => {
            let mention = mention_of_global(global);
            let form = if plain {
                HeadForm::Global(mention)
            } else {
                HeadForm::GlobalObserved(mention, observers)
            };
            read_head(alloc, node, site, ty, form)
        }
        Storage::Computed(accessors) => {
            read_head(alloc, node, site, ty, HeadForm::GlobalComputed(accessors))
        }
    }
}

fn mention_of_global(global: u32) -> GlobalMention
    ensures { result ≡ paths.mention_of_global global }
{
    GlobalMention {
        global,
        before: None,
    }
}

fn object_form(
    alloc: Global,
    plain: bool,
    base: Expr,
    storage: Storage,
) -> Result<HeadForm, AllocError>
    ensures { IfOk result (λ f. f ≡ paths.object_form plain base storage) }
{
    let base = Boxed::new(alloc, base)?;
    match storage {
        Storage::Constant(property) => Ok(HeadForm::Property(base, property)),
        Storage::Stored(property) => Ok(HeadForm::Property(base, property)),
        Storage::Observed(property, observers) => {
            if plain {
                Ok(HeadForm::Property(base, property))
            } else {
                Ok(HeadForm::PropertyObserved(base, property, observers))
            }
        }
        Storage::Computed(accessors) => Ok(HeadForm::PropertyComputed(base, accessors)),
    }
}

fn component_form(plain: bool, storage: Storage) -> ComponentForm
    ensures { result ≡ paths.component_form plain storage }
{
    match storage {
        Storage::Constant(property) => ComponentForm::Field(property),
        Storage::Stored(property) => ComponentForm::Field(property),
        Storage::Observed(property, observers) => {
            if plain {
                ComponentForm::Field(property)
            } else {
                ComponentForm::Observed(property, observers)
            }
        }
        Storage::Computed(accessors) => ComponentForm::Computed(accessors),
    }
}
