//! A resolved body, from its resolved parts: its code, its functionality, and the first `>>` whose left operand has
//! noexit.
ghost use Rattle.std.specs.Prelude.{◌≡◌, ◌++◌, List, IfOk, None, option_map};
ghost use Rattle.lotos_text.specs.AstView.{BehaviourView, SyncView, prefix, choice, par, hide, enable, disable};
ghost use Rattle.lotos_text.specs.declared.ast.Action.{Action as AnyAction};
ghost use Rattle.lotos_check.specs.NameLists.{Name as AnyName, texts};
ghost use Rattle.lotos_check.specs.Scope.{Scope};
ghost use Rattle.lotos_check.specs.Flat.{action_of};
ghost use Rattle.lotos_check.specs.Functionality as view;
ghost use Rattle.lotos_check.specs.FlatOf.{flat_of};
ghost use Rattle.lotos_check.specs.Resolution.{AreSyncGatesDeclared, IsActionDeclared, IsResolved, IsSyncSet};

use crate::name_lists::name_set;
use crate::resolved::Code;
use lotos_text::{Functionality, Name, Placed};
use std::alloc::{AllocError, Global};

/// A behaviour with calls by number, its functionality, and the offset of the first `>>` whose left operand has noexit.
#[derive(Drop)]
pub(crate) struct ResolvedBody {
    pub code: Box<Code>,
    pub functionality: Functionality,
    pub never_exits: Option<usize>,
}

/// A form without parts, and so without `>>`.
pub(crate) fn make_leaf(
    alloc: Global,
    code: Code,
    functionality: Functionality,
) -> Result<ResolvedBody, AllocError>
    ensures code { IfOk result (λ found. flat_of found.code.value ≡ flat_of code) }
    ensures functionality { IfOk result (λ found. found.functionality ≡ functionality) }
    ensures never { IfOk result (λ found. found.never_exits ≡ None) }
{
    let code = box_code(alloc, code)?;
    Ok(ResolvedBody {
        code,
        functionality,
        never_exits: None,
    })
}

/// Puts code on the heap.
pub(crate) fn box_code(alloc: Global, code: Code) -> Result<Box<Code>, AllocError>
    ensures { IfOk result (λ b. b.value ≡ code) }
{
    Ok(Box::new(alloc, code)?)
}

/// A prefix, from its resolved behaviour.
pub(crate) fn make_prefix(
    alloc: Global,
    name: Option<Name>,
    inner: ResolvedBody,
) -> Result<ResolvedBody, AllocError>
    ensures { IfOk result
        (λ found. (scope : Scope) (gates : List AnyName) (action : AnyAction) (body : BehaviourView) →
        name ≡ action_of action → IsActionDeclared gates action → IsResolved scope gates body inner →
        IsResolved scope gates (prefix action body) found) }
{
    let code = box_code(
        alloc,
        Code::Prefix {
            action: name,
            body: inner.code,
        },
    )?;
    Ok(ResolvedBody {
        code,
        functionality: inner.functionality,
        never_exits: inner.never_exits,
    })
}

/// A choice, from its resolved operands.
pub(crate) fn make_choice(
    alloc: Global,
    first: ResolvedBody,
    second: ResolvedBody,
) -> Result<ResolvedBody, AllocError>
    ensures { IfOk result (λ found. (scope : Scope) (gates : List AnyName) (left right : BehaviourView) →
        IsResolved scope gates left first → IsResolved scope gates right second →
        IsResolved scope gates (choice left right) found) }
{
    let code = box_code(
        alloc,
        Code::Choice {
            left: first.code,
            right: second.code,
        },
    )?;
    Ok(ResolvedBody {
        code,
        functionality: exits_if_either(first.functionality, second.functionality),
        never_exits: first.never_exits.or(second.never_exits),
    })
}

/// A parallel composition, from its resolved operands.
pub(crate) fn make_parallel(
    alloc: Global,
    first: ResolvedBody,
    set: Option<Vec<Name>>,
    second: ResolvedBody,
) -> Result<ResolvedBody, AllocError>
    ensures { IfOk result
        (λ found. (scope : Scope) (gates : List AnyName) (left right : BehaviourView) (sync : SyncView) →
        IsSyncSet (option_map (λ v. v.items) set) sync → AreSyncGatesDeclared gates sync →
        IsResolved scope gates left first → IsResolved scope gates right second →
        IsResolved scope gates (par left sync right) found) }
{
    let code = box_code(
        alloc,
        Code::Par {
            left: first.code,
            sync: set,
            right: second.code,
        },
    )?;
    Ok(ResolvedBody {
        code,
        functionality: exits_if_both(first.functionality, second.functionality),
        never_exits: first.never_exits.or(second.never_exits),
    })
}

/// A hide form, from its behaviour, which was resolved with the hidden gates in scope.
pub(crate) fn make_hide(
    alloc: Global,
    gates: &[Placed],
    inner: ResolvedBody,
) -> Result<ResolvedBody, AllocError>
    ensures { IfOk result (λ found. (scope : Scope) (gates_in_scope : List AnyName) (body : BehaviourView) →
        IsResolved scope (texts gates.now ++ gates_in_scope) body inner →
        IsResolved scope gates_in_scope (hide gates.now body) found) }
{
    let gates = name_set(alloc, gates)?;
    let code = box_code(
        alloc,
        Code::Hide {
            gates,
            body: inner.code,
        },
    )?;
    Ok(ResolvedBody {
        code,
        functionality: inner.functionality,
        never_exits: inner.never_exits,
    })
}

/// An enabling whose operator is at the offset, from its resolved operands.
pub(crate) fn make_enable(
    alloc: Global,
    first: ResolvedBody,
    at: usize,
    second: ResolvedBody,
) -> Result<ResolvedBody, AllocError>
    ensures { IfOk result (λ found. (scope : Scope) (gates : List AnyName) (left right : BehaviourView) →
        IsResolved scope gates left first → IsResolved scope gates right second →
        IsResolved scope gates (enable left at right) found) }
{
    let here = match first.functionality {
        Functionality::Exit => None,
        Functionality::NoExit => Some(at),
    };
    let code = box_code(
        alloc,
        Code::Enable {
            left: first.code,
            right: second.code,
        },
    )?;
    Ok(ResolvedBody {
        code,
        functionality: second.functionality,
        never_exits: first.never_exits.or(here).or(second.never_exits),
    })
}

/// A disabling, from its resolved operands.
pub(crate) fn make_disable(
    alloc: Global,
    first: ResolvedBody,
    second: ResolvedBody,
) -> Result<ResolvedBody, AllocError>
    ensures { IfOk result (λ found. (scope : Scope) (gates : List AnyName) (left right : BehaviourView) →
        IsResolved scope gates left first → IsResolved scope gates right second →
        IsResolved scope gates (disable left right) found) }
{
    let code = box_code(
        alloc,
        Code::Disable {
            left: first.code,
            right: second.code,
        },
    )?;
    Ok(ResolvedBody {
        code,
        functionality: exits_if_either(first.functionality, second.functionality),
        never_exits: first.never_exits.or(second.never_exits),
    })
}

/// Exit if either operand has exit.
fn exits_if_either(left: Functionality, right: Functionality) -> Functionality
    ensures { result ≡ view.either left right }
{
    match left {
        Functionality::Exit => Functionality::Exit,
        Functionality::NoExit => right,
    }
}

/// Exit only if both operands have exit.
fn exits_if_both(left: Functionality, right: Functionality) -> Functionality
    ensures { result ≡ view.both left right }
{
    match left {
        Functionality::Exit => right,
        Functionality::NoExit => Functionality::NoExit,
    }
}
