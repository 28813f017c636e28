//! Measures the parts of the program on large inputs, by the clock.
#![tactic(auto)]

mod fault;
mod front;
mod front_source;
mod kernels;
mod kernels_plain;
mod machine;
mod machine_method;
mod message_values;
mod messages;
mod modules;
mod modules_large;
mod names;
mod names_source;
mod subtyping;
mod subtyping_question;

use std::{env, io};

fn main(rt: HostRuntime) -> io::Result<()> {
    let mut words = env::args(&rt)?;
    let _ = words.next();
    let what = words.next();
    let file = words.next();
    match (&what, &file) {
        (Some(what), Some(file)) => with_file(&rt, what.as_str(), file.as_str()),
        (Some(what), None) => by_itself(&rt, what.as_str()),
        _ => usage(&rt),
    }
}

// What needs no file.
fn by_itself(rt: &HostRuntime, what: &str) -> io::Result<()> {
    if what == "kernels" {
        kernels::all(rt, rt.alloc())
    } else if what == "front" {
        front::all(rt, rt.alloc())
    } else if what == "names" {
        names::all(rt, rt.alloc())
    } else if what == "subtyping" {
        subtyping::all(rt, rt.alloc())
    } else if what == "messages" {
        messages::all(rt, rt.alloc())
    } else {
        usage(rt)
    }
}

// What writes a module to the file, or reads the one there.
fn with_file(rt: &HostRuntime, what: &str, file: &str) -> io::Result<()> {
    if what == "modules" {
        modules::all(rt, rt.alloc(), file)
    } else if what == "machine" {
        machine::all(rt, rt.alloc(), file)
    } else {
        usage(rt)
    }
}

fn usage(rt: &HostRuntime) -> io::Result<()> {
    println!(rt; "usage: mo_bench kernels, front, names, subtyping or messages")?;
    println!(rt; "       mo_bench modules FILE or machine FILE")
}
