//! What the program prints.
use std::fmt::Debug;

/// Says that the call of which growths may be refused comes next.
pub fn call_begins(rt: &impl Eprint) {
    let _ = rt.eprintln("call begins");
}

/// Says that it was made.
pub fn call_ends(rt: &impl Eprint) {
    let _ = rt.eprintln("call ends");
}

/// What the call has left.
pub fn state(is_as_before: bool) -> &'static str {
    if is_as_before { "as before" } else { "changed" }
}

/// Prints whether a call that changes nothing has made its value, or why not.
pub fn tell_made<T: Drop, E: Debug + Drop>(
    rt: &impl Print,
    answer: Result<T, E>,
) -> anyhow::Result<()> {
    match answer {
        Ok(_) => Ok(println!(rt; "Ok")?),
        Err(fault) => Ok(println!(rt; "Err({fault:?})")?),
    }
}

/// Prints an answer, and what the call has left.
pub fn tell<A: Debug>(rt: &impl Print, answer: &A, left: &str) -> anyhow::Result<()> {
    Ok(println!(rt; "{answer:?} | {left}")?)
}

/// The same, and what the same call answers when it is made again.
pub fn tell_twice<A: Debug>(
    rt: &impl Print,
    answer: &A,
    left: &str,
    again: &A,
) -> anyhow::Result<()> {
    Ok(println!(rt; "{answer:?} | {left} | {again:?}")?)
}
