//! What is assigned to, what stands under a label, and what stands behind `-`.
ghost use Rattle.std.specs.Prelude.{◌≡◌};
ghost use Rattle.abstract_tree.specs.TreeView.{expression_form};
ghost use Rattle.judged_parts.specs.Parts.{See};
ghost use Rattle.kernel_shapes.specs.Kinds.{as_looped, as_number, as_place, looped_of, number_of, place_of, seen_looped, seen_place};
ghost use Rattle.kernel_shapes.specs.Shapes.{seen_shape};

use crate::shapes::{Shape, shape_of_form};
use abstract_tree::{Expression, ExpressionForm};
use abstract_types::Pattern;
use value_scopes::Note;

/// What is assigned to.
#[derive(Clone, Copy)]
pub enum Place<'a> {
    Name(&'a [u8]),
    /// `a.x`
    Member(&'a Expression<Note>, &'a [u8]),
    /// `a[i]`
    Element(&'a Expression<Note>, &'a Expression<Note>),
    Other,
}

/// What stands under a label.
#[derive(Clone, Copy)]
pub enum Looped<'a> {
    /// `while c a`
    While(&'a Expression<Note>, &'a Expression<Note>),
    /// `loop a`
    Loop(&'a Expression<Note>),
    /// `loop a while c`
    LoopWhile(&'a Expression<Note>, &'a Expression<Note>),
    /// `for (p in a) b`
    For(&'a Pattern<Note>, &'a Expression<Note>, &'a Expression<Note>),
    Other,
}

fn as_place(of: Shape<'_>) -> Place<'_>
    ensures { (see : See) → seen_place see result ≡ as_place (seen_shape see of.entry) }
{
    match of {
        Shape::Name(name) => Place::Name(name),
        Shape::Member(a, name) => Place::Member(a, name),
        Shape::Element(a, i) => Place::Element(a, i),
        Shape::Numeral(_) => Place::Other,
        Shape::While(_, _) => Place::Other,
        Shape::Loop(_) => Place::Other,
        Shape::LoopWhile(_, _) => Place::Other,
        Shape::For(_, _, _) => Place::Other,
        Shape::Other => Place::Other,
    }
}

fn as_looped(of: Shape<'_>) -> Looped<'_>
    ensures { (see : See) → seen_looped see result ≡ as_looped (seen_shape see of.entry) }
{
    match of {
        Shape::While(c, a) => Looped::While(c, a),
        Shape::Loop(a) => Looped::Loop(a),
        Shape::LoopWhile(a, c) => Looped::LoopWhile(a, c),
        Shape::For(q, a, b) => Looped::For(q, a, b),
        Shape::Numeral(_) => Looped::Other,
        Shape::Name(_) => Looped::Other,
        Shape::Member(_, _) => Looped::Other,
        Shape::Element(_, _) => Looped::Other,
        Shape::Other => Looped::Other,
    }
}

fn as_number(of: Shape<'_>) -> Option<u64>
    ensures { (see : See) → result ≡ as_number (seen_shape see of.entry) }
{
    match of {
        Shape::Numeral(number) => Some(number),
        Shape::Name(_) => None,
        Shape::Member(_, _) => None,
        Shape::Element(_, _) => None,
        Shape::While(_, _) => None,
        Shape::Loop(_) => None,
        Shape::LoopWhile(_, _) => None,
        Shape::For(_, _, _) => None,
        Shape::Other => None,
    }
}

/// What is assigned to, by its form: Motoko language manual, section "Assignment".
pub fn place_form(form: &ExpressionForm<Note>) -> Place<'_>
    ensures { (see : See) → seen_place see result ≡ place_of (expression_form see form.now) }
{
    as_place(shape_of_form(form))
}

/// What stands under a label, by its form: Motoko language manual, section "Labelled expressions".
pub fn looped_form(form: &ExpressionForm<Note>) -> Looped<'_>
    ensures { (see : See) → seen_looped see result ≡ looped_of (expression_form see form.now) }
{
    as_looped(shape_of_form(form))
}

/// The number, where the form is one: Motoko language manual, section "Literals".
pub fn number_form(form: &ExpressionForm<Note>) -> Option<u64>
    ensures { (see : See) → result ≡ number_of (expression_form see form.now) }
{
    as_number(shape_of_form(form))
}
