//! Judgements by their parts.
ghost use Rattle.std.specs.Prelude.{◌≡◌, List};
ghost use Rattle.type_terms.specs.declared.form.Form.{Form};
ghost use Rattle.typing_rules.specs.Judgements.{Judgement, Part};
ghost use Rattle.typing_rules.specs.Answers.{Fault};
ghost use Rattle.met_types.specs.States.{Goes, Left, State};
ghost use Rattle.type_judgements.specs.Judged.{Gave, Names};

/// A part is judged, and then what follows from what it gives; where the part or what follows names a fault, that is the fault.
pub fn parts_are_judged_in_turn<A, B>()
    ensures gives { (j : List Form → Judgement B) (k : List Form → B → Judgement A) (old mid new : State) (b : List Form → B) (a : List Form → A) → Gave j old mid b → Goes mid new → Gave (λ later. k later (b later)) mid new a → Gave (λ later. Part (j later) (k later)) old new a }
    ensures first { (j : List Form → Judgement B) (k : List Form → B → Judgement A) (old new : State) (f : Fault) → Names j old new f → Names (λ later. Part (j later) (k later)) old new f }
    ensures then { (j : List Form → Judgement B) (k : List Form → B → Judgement A) (old mid new : State) (b : List Form → B) (f : Fault) → Gave j old mid b → Left mid new → Names (λ later. k later (b later)) mid new f → Names (λ later. Part (j later) (k later)) old new f }
{}
