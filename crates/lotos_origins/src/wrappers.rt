//! Relabellings and hidings around terms, and what they make of actions of gates.
ghost use Rattle.std.specs.Prelude.{◌≡◌, ◌<◌, ℕ, IfOk, IfSome, length, map, true};
ghost use Rattle.lotos_check.specs.NameLists.{In};
ghost use Rattle.lotos_origins.specs.Contexts.{Context, bare, with_hiding, with_relabelling};
ghost use Rattle.lotos_origins.specs.Wrappers.{AgreeAt, AgreeOn, AreWrappers, IsUnwrapped, IsWrappedBy, IsWrapper};
ghost use Rattle.lotos_origins.specs.Wrappers.{image_of, with_wrapper, within};
ghost use Rattle.lotos_origins.specs.declared.wrappers.Wrapper.{Wrapper as WrapperOf};

use lotos_store::{Gate, GateListNumber, Node, PairListNumber, Term, TermStore, is_listed};
use lotos_terms::actual_gate;
use std::alloc::{AllocError, Global};

/// A relabelling or a hiding around a term.
#[derive(Clone, Copy)]
pub(crate) enum Wrapper {
    /// A relabelling by these pairs.
    Relabelling(PairListNumber),
    /// A hiding of these gates.
    Hiding(GateListNumber),
}

/// A term without the relabellings and hidings around it.
#[derive(Drop)]
pub(crate) struct Wrapped {
    /// The relabellings and hidings, the outermost first.
    pub wrappers: Vec<Wrapper>,
    /// What they are around, which is neither a relabelling nor a hiding.
    pub core: Term,
}

/// What relabellings and hidings around a term make of an action of one of its gates.
#[derive(Clone, Copy)]
pub(crate) enum GateImage {
    /// An action of this gate.
    Shown(Gate),
    /// An internal step, made by the hiding of this gate.
    MadeInternal(Gate),
}

/// Takes the relabellings and hidings off a term.
pub(crate) fn unwrapped(alloc: Global, nodes: &TermStore, term: Term) -> Result<Wrapped, AllocError>
    requires { term < length nodes.now.terms }
    ensures { IfOk result (IsUnwrapped nodes.now term) }
{
    let mut wrappers = Vec::new(alloc);
    let mut core = term;
    while let Some((wrapper, body)) = outermost(nodes, core) {
        wrappers.push(wrapper)?;
        core = body;
    }
    Ok(Wrapped { wrappers, core })
}

/// The relabelling or the hiding that the term is, and what it is around; `None` of others.
fn outermost(nodes: &TermStore, term: Term) -> Option<(Wrapper, Term)>
    requires { term < length nodes.now.terms }
    ensures { IfSome result (IsWrappedBy nodes.now term) }
{
    match nodes.node(term) {
        Node::Relabel { pairs, body } => Some((Wrapper::Relabelling(pairs), body)),
        Node::Hide { gates, body } => Some((Wrapper::Hiding(gates), body)),
        Node::Stop
        | Node::Exit
        | Node::Prefix { .. }
        | Node::Choice { .. }
        | Node::Par { .. }
        | Node::Enable { .. }
        | Node::Disable { .. }
        | Node::Call { .. } => None,
    }
}

/// What the wrappers make of an action of a gate inside. A gate that is hidden keeps the name that it has there.
pub(crate) fn image(nodes: &TermStore, wrappers: &[Wrapper], gate: Gate) -> GateImage
    requires { AreWrappers nodes.now wrappers.now }
    ensures { image_of result ≡ within nodes.now bare wrappers.now gate }
{
    let mut inner = gate;
    let mut left = wrappers.len();
    while left > 0 {
        left -= 1;
        match image_in(nodes, wrappers[left], inner) {
            GateImage::Shown(outer) => inner = outer,
            GateImage::MadeInternal(hidden) => return GateImage::MadeInternal(hidden),
        }
    }
    GateImage::Shown(inner)
}

/// What one relabelling or hiding makes of an action of a gate.
fn image_in(nodes: &TermStore, wrapper: Wrapper, gate: Gate) -> GateImage
    requires { IsWrapper nodes.now wrapper }
    ensures { image_of result ≡ with_wrapper nodes.now bare wrapper gate }
{
    match wrapper {
        Wrapper::Relabelling(pairs) => GateImage::Shown(actual_gate(nodes.pairs(pairs), gate)),
        Wrapper::Hiding(gates) => {
            if is_listed(nodes.gates(gates), gate) {
                GateImage::MadeInternal(gate)
            } else {
                GateImage::Shown(gate)
            }
        }
    }
}

/// Whether both make the same of an action of each gate. It is enough to look at the gates that a relabelling or a hiding
/// of either names, since the others stay as they are.
pub(crate) fn make_the_same(nodes: &TermStore, firsts: &[Wrapper], seconds: &[Wrapper]) -> bool
    requires firsts { AreWrappers nodes.now firsts.now }
    requires seconds { AreWrappers nodes.now seconds.now }
    ensures { result ≡ true → (g : ℕ) → AgreeAt nodes.now firsts.now seconds.now g }
{
    if are_equal(nodes, firsts, seconds) {
        return true;
    }
    agree_on_all(nodes, firsts, firsts, seconds) && agree_on_all(nodes, seconds, firsts, seconds)
}

/// Whether both are the same relabellings and hidings.
fn are_equal(nodes: &TermStore, firsts: &[Wrapper], seconds: &[Wrapper]) -> bool
    requires firsts { AreWrappers nodes.now firsts.now }
    requires seconds { AreWrappers nodes.now seconds.now }
    ensures { result ≡ true → (g : ℕ) → AgreeAt nodes.now firsts.now seconds.now g }
{
    if firsts.len() != seconds.len() {
        return false;
    }
    for index in 0..firsts.len() {
        if !is_equal(nodes, firsts[index], seconds[index]) {
            return false;
        }
    }
    true
}

/// Whether both are relabellings by the same pairs or hidings of the same gates.
fn is_equal(nodes: &TermStore, first: Wrapper, second: Wrapper) -> bool
    requires first { IsWrapper nodes.now first }
    requires second { IsWrapper nodes.now second }
    ensures { result ≡ true → (c : Context) →
        with_wrapper nodes.now c first ≡ with_wrapper nodes.now c second }
{
    match first {
        Wrapper::Relabelling(pairs) => is_relabelling_by(nodes, second, nodes.pairs(pairs)),
        Wrapper::Hiding(gates) => is_hiding_of(nodes, second, nodes.gates(gates)),
    }
}

/// Whether this is a relabelling by these pairs.
fn is_relabelling_by(nodes: &TermStore, wrapper: Wrapper, pairs: &[(Gate, Gate)]) -> bool
    requires { IsWrapper nodes.now wrapper }
    ensures { result ≡ true → (c : Context) →
        with_relabelling c pairs.now ≡ with_wrapper nodes.now c wrapper }
{
    match wrapper {
        Wrapper::Relabelling(others) => pairs == nodes.pairs(others),
        Wrapper::Hiding(_) => false,
    }
}

/// Whether this is a hiding of these gates.
fn is_hiding_of(nodes: &TermStore, wrapper: Wrapper, gates: &[Gate]) -> bool
    requires { IsWrapper nodes.now wrapper }
    ensures { result ≡ true → (c : Context) → with_hiding c gates.now ≡ with_wrapper nodes.now c wrapper }
{
    match wrapper {
        Wrapper::Relabelling(_) => false,
        Wrapper::Hiding(others) => gates == nodes.gates(others),
    }
}

/// Whether both make the same of an action of each gate that one of the wrappers names.
fn agree_on_all(
    nodes: &TermStore,
    wrappers: &[Wrapper],
    firsts: &[Wrapper],
    seconds: &[Wrapper],
) -> bool
    requires wrappers { AreWrappers nodes.now wrappers.now }
    requires firsts { AreWrappers nodes.now firsts.now }
    requires seconds { AreWrappers nodes.now seconds.now }
    ensures { result ≡ true → (w : WrapperOf) → In w wrappers.now →
        AgreeOn nodes.now firsts.now seconds.now w }
{
    for wrapper in wrappers {
        if !agree_on(nodes, *wrapper, firsts, seconds) {
            return false;
        }
    }
    true
}

/// Whether both make the same of an action of each gate that the wrapper names.
fn agree_on(nodes: &TermStore, wrapper: Wrapper, firsts: &[Wrapper], seconds: &[Wrapper]) -> bool
    requires wrapper { IsWrapper nodes.now wrapper }
    requires firsts { AreWrappers nodes.now firsts.now }
    requires seconds { AreWrappers nodes.now seconds.now }
    ensures { result ≡ true → AgreeOn nodes.now firsts.now seconds.now wrapper }
{
    match wrapper {
        Wrapper::Relabelling(pairs) => agree_on_formals(nodes, nodes.pairs(pairs), firsts, seconds),
        Wrapper::Hiding(gates) => agree_on_gates(nodes, nodes.gates(gates), firsts, seconds),
    }
}

/// Whether both make the same of an action of each formal gate of the pairs.
fn agree_on_formals(
    nodes: &TermStore,
    pairs: &[(Gate, Gate)],
    firsts: &[Wrapper],
    seconds: &[Wrapper],
) -> bool
    requires firsts { AreWrappers nodes.now firsts.now }
    requires seconds { AreWrappers nodes.now seconds.now }
    ensures { result ≡ true → (p : ℕ × ℕ) → In p pairs.now → AgreeAt nodes.now firsts.now seconds.now p.0 }
{
    for (formal, _) in pairs {
        if !agree_at(nodes, *formal, firsts, seconds) {
            return false;
        }
    }
    true
}

/// Whether both make the same of an action of each of the gates.
fn agree_on_gates(
    nodes: &TermStore,
    gates: &[Gate],
    firsts: &[Wrapper],
    seconds: &[Wrapper],
) -> bool
    requires firsts { AreWrappers nodes.now firsts.now }
    requires seconds { AreWrappers nodes.now seconds.now }
    ensures { result ≡ true → (g : ℕ) → In g gates.now → AgreeAt nodes.now firsts.now seconds.now g }
{
    for gate in gates {
        if !agree_at(nodes, *gate, firsts, seconds) {
            return false;
        }
    }
    true
}

/// Whether both make the same of an action of the gate.
fn agree_at(nodes: &TermStore, gate: Gate, firsts: &[Wrapper], seconds: &[Wrapper]) -> bool
    requires firsts { AreWrappers nodes.now firsts.now }
    requires seconds { AreWrappers nodes.now seconds.now }
    ensures { result ≡ true → AgreeAt nodes.now firsts.now seconds.now gate }
{
    let first = image(nodes, firsts, gate);
    let second = image(nodes, seconds, gate);
    is_same_image(first, second)
}

/// Whether the wrappers of either list make the same of the gates of either list, one by one.
pub(crate) fn have_the_same_images(
    nodes: &TermStore,
    firsts: &[Wrapper],
    gates: &[Gate],
    seconds: &[Wrapper],
    others: &[Gate],
) -> bool
    requires firsts { AreWrappers nodes.now firsts.now }
    requires seconds { AreWrappers nodes.now seconds.now }
    ensures { result ≡ true → map (within nodes.now bare firsts.now) gates.now ≡
        map (within nodes.now bare seconds.now) others.now }
{
    if gates.len() != others.len() {
        return false;
    }
    for index in 0..gates.len() {
        let first = image(nodes, firsts, gates[index]);
        let second = image(nodes, seconds, others[index]);
        if !is_same_image(first, second) {
            return false;
        }
    }
    true
}

/// Whether the images are the same.
fn is_same_image(first: GateImage, second: GateImage) -> bool
    ensures { result ≡ true → image_of first ≡ image_of second }
{
    match first {
        GateImage::Shown(gate) => match second {
            GateImage::Shown(other) => gate.number() == other.number(),
            GateImage::MadeInternal(_) => false,
        },
        GateImage::MadeInternal(gate) => match second {
            GateImage::Shown(_) => false,
            GateImage::MadeInternal(other) => gate.number() == other.number(),
        },
    }
}
