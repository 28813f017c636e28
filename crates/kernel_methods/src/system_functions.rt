//! System functions.
ghost use Rattle.std.specs.Prelude.{◌≡◌, IfOk, None, OnOk, Some, cond};
ghost use Rattle.std.specs.Str.{bytes_eq};
ghost use Rattle.mo_types.specs.Heads.{map_option};
ghost use Rattle.abstract_tree.specs.TreeView.{declaration_form, expression};
ghost use Rattle.desugaring.specs.Programs as programs;
ghost use Rattle.judged_parts.specs.Parts.{See};
ghost use Rattle.kernel_types.specs.Numbers.{definitions, number};
ghost use Rattle.kernel_parts.specs.Views.{list_in};
ghost use Rattle.kernel_parts.specs.Writing.{Writes};
ghost use Rattle.kernel_roles.specs.Roles.{list_seen, role_of};
ghost use Rattle.kernel_methods.specs.Methods.{body_at, first_body, system_in};

use crate::bodies::system_body;
use abstract_tree::{Declaration, DeclarationForm, Expression};
use kernel_counts::count_expression;
use kernel_frames::Frames;
use kernel_parts::{Layer, Part, Written};
use kernel_roles::{Role, actor_role};
use mo_num::{Memory, Sequence};
use mo_syntax::Items;
use mo_types::Sort;
use typed_tree::Function;
use value_scopes::Note;

fn is_name(name: &[u8], other: &[u8]) -> bool
    ensures { result ≡ bytes_eq name.now other.now }
{
    name == other
}

/// The body, if the first name is the second.
fn named<'a>(x: &[u8], name: &[u8], body: &'a Expression<Note>) -> Option<&'a Expression<Note>>
    ensures { (see : See) → map_option (λ e. expression see e.now) result ≡ cond (bytes_eq x.now name.now) (Some (expression see body.now)) None }
{
    if is_name(x, name) { Some(body) } else { None }
}

/// The body of the declaration, if it is a system function of this name.
fn body_of<'a>(name: &[u8], form: &'a DeclarationForm<Note>) -> Option<&'a Expression<Note>>
    ensures { (see : See) → map_option (λ e. expression see e.now) result ≡ body_at name.now (role_of (declaration_form see form.now)) }
{
    match actor_role(form) {
        Role::Method(_, _, _, _, _) => None,
        Role::System(x, body) => named(x.as_slice(), name, body),
        Role::Stable(_) => None,
        Role::Function => None,
        Role::Other => None,
    }
}

/// The body of the first system function of this name.
fn find_body<'a>(name: &[u8], fields: &'a [Declaration<Note>]) -> Option<&'a Expression<Note>>
    ensures { (see : See) → map_option (λ e. expression see e.now) result ≡ first_body name.now (list_seen see fields.now) }
{
    for one in fields {
        let body = body_of(name, one.form.get());
        if body.is_some() {
            return body;
        }
    }
    None
}

fn system_function<F: Fn(&mut Frames, Part<'_>) -> Written>(
    layer: &Layer<'_, F>,
    frames: &mut Frames,
    body: &Expression<Note>,
) -> Result<Function, Memory>
    requires writes { Writes layer.now.depth (F.pre layer.now.write) (F.post layer.now.write) }
    ensures made { IfOk result (λ made. made ≡ system_in layer.now.types.now frames.old body.now) }
    ensures same { OnOk result (frames.new ≡ frames.old) }
{
    let nodes = count_expression(body, 0)?;
    let made = system_body(layer, frames, body)?;
    Ok(Function {
        sort: Sort::Local,
        type_parameters: Sequence::new(layer.alloc),
        nodes,
        parameters: Items::new(layer.alloc),
        body: made,
    })
}

/// The system function of this name, if there is one: Motoko language manual, section "System functions".
pub fn system<F: Fn(&mut Frames, Part<'_>) -> Written>(
    layer: &Layer<'_, F>,
    frames: &mut Frames,
    name: &[u8],
    fields: &[Declaration<Note>],
) -> Result<Option<Function>, Memory>
    requires writes { Writes layer.now.depth (F.pre layer.now.write) (F.post layer.now.write) }
    ensures made { IfOk result (λ made. made ≡ programs.system_of (definitions layer.now.types.now) (number layer.now.types.now) frames.old name.now (list_in layer.now.types.now fields.now)) }
    ensures same { OnOk result (frames.new ≡ frames.old) }
{
    match find_body(name, fields) {
        Some(body) => {
            let made = system_function(layer, frames, body)?;
            Ok(Some(made))
        }
        None => Ok(None),
    }
}
