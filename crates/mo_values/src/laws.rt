//! Laws of the table: no operation looks into a function value, and wrapping is that of arithmetic.
ghost use Rattle.std.specs.Prelude.{◌≡◌, Bool, true, List, ℤ};
ghost use Rattle.mo_num.specs.declared.kind.Kind.{Kind};
ghost use Rattle.mo_num.specs.Arith.{IsWrapped};
ghost use Rattle.mo_types.specs.Values.{IsPartOf};
ghost use Rattle.mo_types.specs.declared.datum.Datum.{Datum};
ghost use Rattle.mo_types.specs.declared.node.Node.{Node};
ghost use Rattle.mo_types.specs.declared.node.TypeId.{TypeId};
ghost use Rattle.mo_values.specs.declared.operation.Operation.{Operation};
ghost use Rattle.mo_values.specs.Alike.{AlikeAnswers, AlikeEach};
ghost use Rattle.mo_values.specs.Costs.{operation_cost};
ghost use Rattle.mo_values.specs.Numbers.{wrapped};
ghost use Rattle.mo_values.specs.Operations.{operate};
ghost use Rattle.mo_values.specs.Parts.{is_leaf_of};
ghost use Rattle.mo_values.specs.Recoding.{recode, recode_answer, recodes};
ghost use Rattle.mo_values.specs.Shapes.{Shape};
ghost use Rattle.mo_values.specs.Views.{Answer};

/// Where the functions in the operands are others, the answer is the same but for these functions.
pub fn operations_see_no_function<F, G>()
    ensures { (head : TypeId → Node TypeId) (code : F → G) (o : Operation) (vs : List (Shape F)) → operate head o (recodes code vs) ≡ recode_answer code (operate head o vs) }
{}

/// And it costs the same.
pub fn costs_see_no_function<F, G>()
    ensures { (code : F → G) (o : Operation) (vs : List (Shape F)) (answer : Answer F) → operation_cost o (recodes code vs) (recode_answer code answer) ≡ operation_cost o vs answer }
{}

/// So where a relation ties the functions of two languages, operands that are alike by it have answers that are alike by it,
/// at the same cost: a pass from one language to the other needs no lemma of a single operation.
pub fn alike_operands_have_alike_answers<F, G>()
    ensures answers { (head : TypeId → Node TypeId) (related : F → G → Bool) (o : Operation) (vs : List (Shape F)) (ws : List (Shape G)) → AlikeEach (λ f g. related f g ≡ true) vs ws → AlikeAnswers (λ f g. related f g ≡ true) (operate head o vs) (operate head o ws) }
    ensures costs { (head : TypeId → Node TypeId) (related : F → G → Bool) (o : Operation) (vs : List (Shape F)) (ws : List (Shape G)) → AlikeEach (λ f g. related f g ≡ true) vs ws → operation_cost o vs (operate head o vs) ≡ operation_cost o ws (operate head o ws) }
{}

/// With the same functions a value is the same, and two recodings in turn are one.
pub fn recodings_compose<F, G, H>()
    ensures same { (v : Shape F) → recode (λ f. f) v ≡ v }
    ensures twice { (first : F → G) (second : G → H) (v : Shape F) → recode second (recode first v) ≡ recode (λ f. second (first f)) v }
{}

/// What a number wraps to is a value of the kind that differs from it by whole turns of the kind's width.
pub fn wrapping_goes_by_whole_turns()
    ensures { (kind : Kind) (n : ℤ) → IsWrapped kind n (wrapped kind n) }
{}

/// What passes for a value without parts of a type is the outermost part of a value of it.
pub fn leaves_are_of_their_types()
    ensures { (t : Node TypeId) (p : Datum) → is_leaf_of t p ≡ true → IsPartOf t p }
{}
