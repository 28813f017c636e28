//! What the program says of itself.

/// The answer to `--version`.
pub const VERSION: &str = "mo 0.1.0\n";

/// The answer to `--help`.
pub const HELP: &str =
    "mo: a compiler from Motoko to WebAssembly canisters, and a host that replays scripts

  mo build SRC OUT
      compiles the actor in the file SRC and writes its module to OUT
      for example: mo build examples/answer.mo answer.wasm
  mo check SRC
      says whether the actor in the file SRC is accepted, or prints the first fault with its
      line and column; of an accepted one it prints a line uncovered LINE:COLUMN for each
      switch that misses a value
      for example: mo check examples/ledger.mo
  mo explain SRC
      of a source that is refused it prints the line of the fault, with a mark under its place,
      and what the fault means; of an accepted one each switch that misses a value, and a case
      that it misses
      for example: mo explain examples/ledger.mo
  mo play [options] SCRIPT MODULE..
      plays the script in the file SCRIPT on the modules in the files MODULE.., and prints
      the transcript
      for example: mo play script.txt answer.wasm
  mo run [options] SCRIPT SRC..
      compiles the actors in the files SRC.. and plays the script on them
      for example: mo run script.txt examples/answer.mo
  mo --help
      prints this text
  mo --version
      prints the version

There are 1 to 16 modules or sources, which a script numbers from 0. Each option stands at
most once, as two words before SCRIPT, and says what each execution may use:
  --steps N   instructions, 10000 to 1000000000000; without it 100000000
  --pages N   pages of memory, 1 to 8192; without it 1024
  --stack N   words of stack, 8192 to 16777216; without it 4194304

A script has one event on each line, and begins with install:
  install M                    query METHOD CALLER BYTES    reject K CODE TEXT
  upgrade M                    call METHOD CALLER BYTES     reply K BYTES
M is the number of a module, K that of a call that the canister made. CALLER, BYTES and
TEXT are hexadecimal digits, or - for none. Empty lines and lines after # are skipped.

What check accepts is Motoko. What build and run take are actors of constant queries for
now, as
  actor { public query func answer() : async Nat { 42 } }
and with them run takes no upgrade, and calls without arguments alone (4449444c0000).

The exit status is 0, or
  1 where a source is refused          5 where there was no memory
  2 where the words are no form        6 where the script is refused
  3 where a read failed                7 where a file is no valid module
  4 where a write failed               8 where a file is not there
A line on the error stream says more.
";
