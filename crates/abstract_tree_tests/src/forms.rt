//! An actor in which each form of the language stands.
use abstract_programs::abstract_program;
use mo_lexer::lex;
use mo_parser::parse;
use std::test::Fail;

const SOURCE: &[u8] = b"import P \"mo:base/Principal\";
actor Forms = {
  let (a, ?b) : (Nat, ?Nat) = (1, null);
  var v : [var Nat] = [var 1, 2];
  stable var s : { x : Nat; var y : { #t } } = { x = 1; var y = #t };
  private type T<U, V> = { #a; #b : U -> async V };
  type S = actor { m : shared query (n : Nat, [T<Nat, ()>]) -> async (); };
  func f<X <: Any>(p : X, { q; r = _ }) : X { return p };
  class C n { public let m = n; private var k : Nat = 0 };
  object o { public func g() : () { return } };
  public shared query ({ caller }) func q(x : Nat) : async Nat { x };
  public func u() : async () {
    v[0] := 1; v[0] +%= 2;
    if true 1; if (true) { } else { };
    switch 1 { case 0 { }; case (-1 or 2) { }; case \"x\" { }; case (#k _) { }; case (#n : { #n }) { } };
    while false { }; loop { break l }; loop { } while true;
    for (i in a.vals()) { };
    label l : Nat { break l 5; continue l };
    label k { };
    ignore do ? { b! };
    try { await u() } catch e { throw e };
    assert not true; debug { };
    let g = func (z : Nat) : Nat = z + 1;
    f<Nat>(1, { q = 1 }); object { public let i = 1 };
    - 1; #x (1); (1, 2).0; ((1 : Int)); actor \"aaaaa-aa\"; actor (\"aaaaa-aa\"); 'c'; do { };
  };
  system func preupgrade() { };
  u()
};
";

#[test]
fn each_form_is_made(rt: HostRuntime) -> Result<(), Fail> {
    let tokens = lex(rt.alloc(), SOURCE)?;
    let tree = parse(rt.alloc(), tokens.as_slice())?;
    let program = abstract_program(rt.alloc(), &tree)?;
    assert!(rt; program.fields.len() == 12);
    Ok(())
}
