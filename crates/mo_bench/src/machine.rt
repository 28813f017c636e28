//! The methods of a module in turn, by the clock.
ghost use Rattle.std.specs.Prelude.{◌≡◌, IfOk};
ghost use Rattle.wasm_instance.specs.Fits.{IsInstanceOf};

use crate::fault::{invalid, lacking};
use crate::machine_method::run;
use mo_num::{Principal, principal_of};
use module_entries::exported;
use std::alloc::Global;
use std::time::{Duration, Instant};
use std::{fs, io};
use wasm_instance::{Instance, Limits, Outcome};
use wasm_read::read;
use wasm_valid::{Valid, validate};

// Measurements of each method, of which the fastest counts.
const TRIES: u32 = 3;

// The defaults of the command line but for the steps, of which there are enough.
const LIMITS: Limits = Limits {
    steps: 1_000_000_000_000,
    pages: 1_024,
    stack: 4_194_304,
};

fn judged(alloc: Global, bytes: &[u8]) -> io::Result<Valid> {
    let Ok(tree) = read(alloc, bytes) else {
        return Err(invalid());
    };
    match validate(alloc, tree) {
        Ok(valid) => Ok(valid),
        Err(_) => Err(invalid()),
    }
}

fn module_of(rt: &HostRuntime, alloc: Global, file: &str) -> io::Result<Valid> {
    let bytes = fs::read(rt, file)?;
    judged(alloc, bytes.as_slice())
}

fn loaded(alloc: Global, tree: &Valid) -> io::Result<Instance>
    ensures { IfOk result (λ instance. IsInstanceOf tree.now instance.kept) }
{
    let Ok(mut instance) = Instance::new(alloc, LIMITS) else {
        return Err(lacking());
    };
    if instance.load(tree).is_err() {
        return Err(invalid());
    }
    instance.commit();
    Ok(instance)
}

/// Prints a line for each update method of the module in the file, with its time and its steps a second.
pub fn all(rt: &HostRuntime, alloc: Global, file: &str) -> io::Result<()> {
    let tree = module_of(rt, alloc, file)?;
    let mut instance = loaded(alloc, &tree)?;
    methods(rt, alloc, &tree, &mut instance)
}

// What update methods are exported as.
const UPDATE: &[u8] = b"canister_update ";

fn methods(rt: &HostRuntime, alloc: Global, tree: &Valid, instance: &mut Instance) -> io::Result<()>
    requires { IsInstanceOf tree.now instance.old.kept }
{
    let Some(nobody) = principal_of(alloc, &[]) else {
        return Ok(());
    };
    for export in tree.module().exports.as_slice() {
        let name = export.name.as_slice();
        if name.starts_with(UPDATE) {
            method(rt, alloc, tree, instance, name, &nobody)?;
        }
    }
    Ok(())
}

fn method(
    rt: &HostRuntime,
    alloc: Global,
    tree: &Valid,
    instance: &mut Instance,
    name: &[u8],
    nobody: &Principal,
) -> io::Result<()>
    requires { IsInstanceOf tree.now instance.old.kept }
    ensures { instance.new.kept ≡ instance.old.kept }
{
    let Some(function) = exported(tree, name) else {
        return Ok(());
    };
    let mut time = Duration::MAX;
    let mut done = true;
    for _ in 0..TRIES {
        let start = Instant::now(rt)?;
        let Ok(outcome) = run(alloc, tree, instance, function, nobody) else {
            return Err(lacking());
        };
        time = time.min(start.elapsed(rt)?);
        done = done && outcome == Outcome::Done;
    }
    report(
        rt,
        alloc,
        name,
        LIMITS.steps.saturating_sub(instance.left()),
        time,
        done,
    )
}

fn report(
    rt: &HostRuntime,
    alloc: Global,
    name: &[u8],
    steps: u64,
    time: Duration,
    done: bool,
) -> io::Result<()> {
    let speed = steps as u128 / time.as_micros().max(1);
    let millis = time.as_millis();
    let name = String::from_utf8_lossy(alloc, name)?;
    println!(rt; "{name}: {millis} ms, {steps} steps, {speed} million steps a second, done: {done}")
}
