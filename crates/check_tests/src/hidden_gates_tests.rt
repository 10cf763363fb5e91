//! Systems with gates hidden around their behaviour, each worked out by hand.
use super::table_texts::{assert_text, checked, joined, system_text};
use lotos_check::Checked;
use lotos_text::{Name, Placed, TextFault, parse};
use std::alloc::{AllocError, Global};
use std::process::Abort;
use std::test::Fail;

/// Its gates are not in the order of their names, and a process has a formal gate of another name.
const SYSTEM: &str =
    "specification S [c,a,b] : noexit behaviour a; b; P[c] where process P [x] : noexit := x; stop endproc endspec";

/// What is tested, the gates to hide, and the system.
type HiddenRow = (&'static str, &'static str, &'static str);

const HIDDEN: &[HiddenRow] = &[
    (
        "one gate",
        "[a]",
        " C B: (hide A in (A; (B; 0 C))); P X noexit (X; stop)",
    ),
    (
        "two gates in another order than that of their names",
        "[c,b]",
        " A: (hide B C in (A; (B; 0 C))); P X noexit (X; stop)",
    ),
    (
        "a gate twice",
        "[b,a,b]",
        " C: (hide A B in (A; (B; 0 C))); P X noexit (X; stop)",
    ),
    (
        "the formal gate of the process, which is no gate of the specification",
        "[x]",
        " C A B: (hide X in (A; (B; 0 C))); P X noexit (X; stop)",
    ),
    (
        "a gate and a name that is none",
        "[d,a]",
        " C B: (hide A D in (A; (B; 0 C))); P X noexit (X; stop)",
    ),
    (
        "all gates",
        "[a,b,c]",
        ": (hide A B C in (A; (B; 0 C))); P X noexit (X; stop)",
    ),
    (
        "no gates",
        "",
        " C A B: (hide in (A; (B; 0 C))); P X noexit (X; stop)",
    ),
];

/// The names of a list of gates as it stands in a specification.
fn names_in(alloc: Global, list: &str) -> Result<Vec<Name>, TextFault> {
    let text = joined(
        alloc,
        &["specification T ", list, " : noexit behaviour stop endspec"],
    )?;
    let parsed = parse(alloc, text.as_bytes())?;
    Ok(copied(alloc, parsed.whole.formals.as_slice())?)
}

fn copied(alloc: Global, placed: &[Placed]) -> Result<Vec<Name>, AllocError> {
    let mut names = Vec::new(alloc);
    for one in placed {
        names.push(one.name.copy(alloc)?)?;
    }
    Ok(names)
}

/// The system with these gates hidden, as text.
fn hidden_answer(alloc: Global, list: &str) -> Result<String, TextFault> {
    let names = names_in(alloc, list)?;
    match checked(alloc, SYSTEM)? {
        Ok(system) => Ok(hidden_text(alloc, system, names.as_slice())?),
        Err(_) => Ok(joined(alloc, &["not accepted"])?),
    }
}

fn hidden_text(alloc: Global, system: Checked, names: &[Name]) -> Result<String, AllocError> {
    let hidden = system.with_hidden(alloc, names)?;
    system_text(alloc, &hidden)
}

/// The system with gates hidden, and then others around these, as text.
fn hidden_twice_answer(alloc: Global, first: &str, then: &str) -> Result<String, TextFault> {
    let names = names_in(alloc, first)?;
    let others = names_in(alloc, then)?;
    match checked(alloc, SYSTEM)? {
        Ok(system) => {
            let hidden = system.with_hidden(alloc, names.as_slice())?;
            Ok(hidden_text(alloc, hidden, others.as_slice())?)
        }
        Err(_) => Ok(joined(alloc, &["not accepted"])?),
    }
}

fn assert_hidden(
    rt: &impl Abort,
    alloc: Global,
    words: &str,
    list: &str,
    expected: &str,
) -> Result<(), TextFault> {
    let found = hidden_answer(alloc, list)?;
    assert_text(rt, words, found.as_str(), expected);
    Ok(())
}

fn assert_all_hidden(rt: &impl Abort, alloc: Global, rows: &[HiddenRow]) -> Result<(), TextFault> {
    for (words, list, expected) in rows {
        assert_hidden(rt, alloc, words, list, expected)?;
    }
    Ok(())
}

#[test]
fn hides_gates_around_the_behaviour(rt: HostRuntime) -> Result<(), Fail> {
    Ok(assert_all_hidden(&rt, rt.alloc(), HIDDEN)?)
}

#[test]
fn hides_gates_around_hidden_ones(rt: HostRuntime) -> Result<(), Fail> {
    let found = hidden_twice_answer(rt.alloc(), "[b]", "[c,b]")?;
    assert_text(
        &rt,
        "gates hidden twice",
        found.as_str(),
        " A: (hide B C in (hide B in (A; (B; 0 C)))); P X noexit (X; stop)",
    );
    Ok(())
}
