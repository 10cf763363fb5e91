//! The calls of a specification in the order of the text: by name, and by the numbers of their processes.
ghost use Rattle.std.specs.Prelude.{◌≡◌, ◌++◌, ◌∷◌, [], OnOk, map};
ghost use Rattle.lotos_text.specs.AstOf.{behaviour_view, definition_view};
ghost use Rattle.lotos_text.specs.AstView.{body_of};
ghost use Rattle.lotos_check.specs.CheckedView.{flat_of, process_of};
ghost use Rattle.lotos_warn.specs.CallSites.{numbers_in, numbers_of_all, site_of, sites_from, sites_in};

use lotos_check::{Code, Process};
use lotos_text::{Behaviour, Definition, Placed};
use std::alloc::AllocError;

/// A call: the index of its definition among all, of which the specification is the first, its name and its actual gates.
#[derive(Drop)]
pub(crate) struct CallSite<'a> {
    pub caller: usize,
    pub callee: &'a Placed,
    pub actuals: &'a [Placed],
}

/// Appends the calls in the bodies of definitions.
pub(crate) fn add_sites_of_all<'a>(
    definitions: &[&'a Definition],
    into: &mut Vec<CallSite<'a>>,
) -> Result<(), AllocError>
    ensures { OnOk result (map site_of into.new.items ≡ map site_of into.old.items
        ++ sites_from 0 (map (λ d. definition_view d.now) definitions.now)) }
{
    for index in 0..definitions.len() {
        let definition = definitions[index];
        add_sites_of(definition, index, into)?;
    }
    Ok(())
}

/// Appends the calls in the body of the definition with this index.
fn add_sites_of<'a>(
    definition: &'a Definition,
    index: usize,
    into: &mut Vec<CallSite<'a>>,
) -> Result<(), AllocError>
    ensures { OnOk result (map site_of into.new.items ≡ map site_of into.old.items
        ++ sites_in index (body_of (definition_view definition.now))) }
{
    add_sites(&definition.body, index, into)
}

/// Appends the calls of a behaviour, which is part of the body of the definition with this index.
fn add_sites<'a>(
    behaviour: &'a Behaviour,
    index: usize,
    into: &mut Vec<CallSite<'a>>,
) -> Result<(), AllocError>
    ensures { OnOk result (map site_of into.new.items ≡ map site_of into.old.items
        ++ sites_in index (behaviour_view behaviour.now)) }
{
    match behaviour {
        Behaviour::Stop | Behaviour::Exit => Ok(()),
        Behaviour::Prefix { body, .. } | Behaviour::Hide { body, .. } => {
            add_sites(body, index, into)
        }
        Behaviour::Choice { left, right }
        | Behaviour::Par { left, right, .. }
        | Behaviour::Enable { left, right, .. }
        | Behaviour::Disable { left, right } => {
            add_sites(left, index, into)?;
            add_sites(right, index, into)
        }
        Behaviour::Call { name, gates } => add_site(index, name, gates.as_slice(), into),
    }
}

fn add_site<'a>(
    caller: usize,
    callee: &'a Placed,
    actuals: &'a [Placed],
    into: &mut Vec<CallSite<'a>>,
) -> Result<(), AllocError>
    ensures { OnOk result (map site_of into.new.items ≡ map site_of into.old.items
        ++ record { caller = caller; callee = callee.now; actuals = actuals.now } ∷ []) }
{
    into.push(CallSite {
        caller,
        callee,
        actuals,
    })?;
    Ok(())
}

/// Appends the numbers of the processes that processes call, call by call.
pub(crate) fn add_numbers_of_all(
    processes: &[Process],
    into: &mut Vec<usize>,
) -> Result<(), AllocError>
    ensures { OnOk result (into.new.items ≡ into.old.items
        ++ numbers_of_all (map process_of processes.now)) }
{
    for process in processes {
        add_numbers(&process.body, into)?;
    }
    Ok(())
}

/// Appends the numbers of the processes that a behaviour calls, call by call.
pub(crate) fn add_numbers(code: &Code, into: &mut Vec<usize>) -> Result<(), AllocError>
    ensures { OnOk result (into.new.items ≡ into.old.items ++ numbers_in (flat_of code.now)) }
{
    match code {
        Code::Stop | Code::Exit => Ok(()),
        Code::Prefix { body, .. } | Code::Hide { body, .. } => add_numbers(body, into),
        Code::Choice { left, right }
        | Code::Par { left, right, .. }
        | Code::Enable { left, right }
        | Code::Disable { left, right } => {
            add_numbers(left, into)?;
            add_numbers(right, into)
        }
        Code::Call { process, .. } => {
            into.push(*process)?;
            Ok(())
        }
    }
}
