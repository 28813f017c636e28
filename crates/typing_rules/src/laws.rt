//! Laws of the rules: a program has one answer, and a judgement goes by the judgements of its parts.
ghost use Rattle.std.specs.Prelude.{◌≡◌, ◌↔◌, ◌⊎◌, List, Result, length, ℕ};
ghost use Rattle.mo_syntax.specs.TypeGrammar.{type_tokens};
ghost use Rattle.mo_syntax.specs.PatternGrammar.{pattern_tokens};
ghost use Rattle.mo_syntax.specs.ExpressionGrammar.{declaration_tokens, expression_tokens};
ghost use Rattle.std.specs.List.{flat_map};
ghost use Rattle.mo_syntax.specs.ProgramGrammar.{actor_field_tokens, import_tokens};
ghost use Rattle.mo_syntax.specs.declared.program.ActorField.{ActorField};
ghost use Rattle.mo_syntax.specs.declared.program.Import.{Import};
ghost use Rattle.mo_syntax.specs.declared.declarations.Declaration.{Declaration};
ghost use Rattle.mo_syntax.specs.declared.expressions.Expression.{Expression};
ghost use Rattle.mo_syntax.specs.declared.patterns.Pattern.{Pattern};
ghost use Rattle.mo_syntax.specs.declared.types.TypeExpression.{TypeExpression};
ghost use Rattle.typing_rules.specs.AbstractSyntax.{Program};
ghost use Rattle.typing_rules.specs.AbstractTypes.{in_type};
ghost use Rattle.typing_rules.specs.AbstractPatterns.{in_pattern};
ghost use Rattle.typing_rules.specs.AbstractExpressions.{in_declaration, in_expression};
ghost use Rattle.typing_rules.specs.AbstractPrograms.{imports_size, in_field};
ghost use Rattle.typing_rules.specs.Terms.{Term};
ghost use Rattle.typing_rules.specs.Definitions.{Definitions};
ghost use Rattle.typing_rules.specs.Counts.{FewTypes};
ghost use Rattle.typing_rules.specs.Judgements.{Judgement, Part, Question};
ghost use Rattle.typing_rules.specs.Answers.{Answer, Comes, Fault, Holds};
ghost use Rattle.typing_rules.specs.Parted.{Parted};
ghost use Rattle.typing_rules.specs.TypedTrees.{Note};
ghost use Rattle.typing_rules.specs.Programs.{Checks};

/// A program is typed in one way, or one condition is false at one place, and not both.
pub fn programs_have_one_answer()
    ensures { (program : Program ℕ) (r s : Result (Program Note) Fault) → Checks program r → Checks program s → r ≡ s }
{}

/// So has each judgement.
pub fn judgements_have_one_answer<A>()
    ensures { (defs : Definitions) (j : Judgement A) (met : List Term) (p q : Answer A) → Comes defs j met p → Comes defs j met q → p ≡ q }
{}

/// A judgement that begins with a part comes to what follows from what the part gives, or to the part's fault.
pub fn judgements_go_by_their_parts<A, B>()
    ensures { (defs : Definitions) (j : Judgement B) (k : B → Judgement A) (met : List Term) (r : Answer A) → Comes defs (Part j k) met r ↔ Parted defs j k met r }
{}

/// A judgement has an answer, where what rules ask has one, and it can be told whether few types are met.
pub fn judgements_have_answers<A>()
    ensures { (defs : Definitions) → ((q : Question) → Holds defs q ⊎ (Holds defs q → ⊥)) → ((met : List Term) → FewTypes defs met ⊎ (FewTypes defs met → ⊥)) → (j : Judgement A) (met : List Term) → (r : Answer A) × Comes defs j met r }
{}

/// Each part of a tree takes as many tokens as it is written in, so that the parts behind it have the right numbers.
pub fn parts_are_as_long_as_written()
    ensures types { (a : TypeExpression) → (in_type a).size ≡ length (type_tokens a) }
    ensures patterns { (q : Pattern) → (in_pattern q).size ≡ length (pattern_tokens q) }
    ensures expressions { (a : Expression) → (in_expression a).size ≡ length (expression_tokens a) }
    ensures declarations { (d : Declaration) → (in_declaration d).size ≡ length (declaration_tokens d) }
    ensures fields { (x : ActorField) → (in_field x).size ≡ length (actor_field_tokens x) }
    ensures imports { (xs : List Import) → imports_size xs ≡ length (flat_map import_tokens xs) }
{}
