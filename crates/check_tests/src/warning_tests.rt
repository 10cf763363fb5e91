//! Accepted specifications with their warnings.
use super::warning_lines::{Row, assert_rows};
use std::test::Fail;

/// Gates that are used, and gates that are not.
const USED_GATES: &[Row] = &[
    (
        "no warning",
        "specification S [a] : noexit behaviour a; stop endspec",
        "",
    ),
    (
        "no gates and no processes",
        "specification S : noexit behaviour stop endspec",
        "",
    ),
    (
        "a gate that is not used",
        "specification S [a, b] : noexit behaviour a; stop endspec",
        "20 gate B of S is not used\n",
    ),
    (
        "all gates, in their order",
        "specification S [b, a] : noexit behaviour i; stop endspec",
        "17 gate B of S is not used\n20 gate A of S is not used\n",
    ),
    (
        "a hidden gate is another one",
        "specification S [a] : noexit behaviour hide a in a; stop endspec",
        "17 gate A of S is not used\n",
    ),
    (
        "a gate outside the form that hides it",
        "specification S [a] : noexit behaviour (hide a in a; stop) [] a; stop endspec",
        "",
    ),
    (
        "a gate of the form around the list",
        "specification S [a] : noexit behaviour hide a in (a; stop |[a]| a; stop) endspec",
        "17 gate A of S is not used\n",
    ),
    (
        "one of two hidden gates",
        "specification S [a, b] : noexit behaviour hide b, c in a; b; c; stop endspec",
        "20 gate B of S is not used\n",
    ),
];

/// Gates of `hide`.
const HIDDEN_GATES: &[Row] = &[
    (
        "a hidden gate that nothing inside uses",
        "specification S [a] : noexit behaviour hide b in a; stop endspec",
        "44 gate B of `hide` is not used\n",
    ),
    (
        "a hidden gate that is misspelt",
        "specification S [a, mid] : noexit behaviour hide mad in a; mid; stop endspec",
        "49 gate MAD of `hide` is not used\n",
    ),
    (
        "a hidden gate that only a list has",
        "specification S [a] : noexit behaviour hide b in (a; stop |[b]| a; stop) endspec",
        "60 gate B of `|[..]|` is never offered on the left\n60 gate B of `|[..]|` is never offered on the right\n",
    ),
    (
        "a hidden gate that only a call has",
        "specification S [a] : noexit behaviour hide b in P [a, b] where process P [x, y] : noexit := x; y; stop endproc endspec",
        "",
    ),
    (
        "a hidden gate that is hidden again",
        "specification S [a] : noexit behaviour hide b in a; (hide b in b; stop) endspec",
        "44 gate B of `hide` is not used\n",
    ),
    (
        "a gate that is used outside of what hides it",
        "specification S [a, b] : noexit behaviour b; (hide b in a; stop) endspec",
        "51 gate B of `hide` is not used\n",
    ),
    (
        "all gates of a hide, in their order",
        "specification S [a] : noexit behaviour hide c, b, d in a; b; stop endspec",
        "44 gate C of `hide` is not used\n50 gate D of `hide` is not used\n",
    ),
    (
        "a hide in a process",
        "specification S [a] : noexit behaviour P [a] where process P [x] : noexit := hide b in x; stop endproc endspec",
        "82 gate B of `hide` is not used\n",
    ),
    (
        "a hide inside a hide",
        "specification S [a] : noexit behaviour hide b in (hide c in a; b; stop) endspec",
        "55 gate C of `hide` is not used\n",
    ),
];

/// Hidden gates that both sides of a composition offer.
const APART_GATES: &[Row] = &[
    (
        "both sides of an interleaving offer it",
        "specification S [a] : noexit behaviour hide b in (a; b; stop ||| b; stop) endspec",
        "44 gate B of `hide` is offered on both sides of a parallel composition, which do not synchronize on it\n",
    ),
    (
        "it is missing in the list",
        "specification S [a] : noexit behaviour hide b, c in (a; b; c; stop |[b]| b; c; stop) endspec",
        "47 gate C of `hide` is offered on both sides of a parallel composition, which do not synchronize on it\n",
    ),
    (
        "it is in the list",
        "specification S [a] : noexit behaviour hide b, c in (a; b; c; stop |[c, b]| b; c; stop) endspec",
        "",
    ),
    (
        "full synchronization",
        "specification S [a] : noexit behaviour hide b in (b; a; stop || b; a; stop) endspec",
        "",
    ),
    (
        "one side alone offers it",
        "specification S [a] : noexit behaviour hide b in (a; stop ||| b; stop) endspec",
        "",
    ),
    (
        "both sides pass it on",
        "specification S [a] : noexit behaviour hide b in (P [a, b] ||| P [a, b]) where process P [x, y] : noexit := x; y; stop endproc endspec",
        "44 gate B of `hide` is offered on both sides of a parallel composition, which do not synchronize on it\n",
    ),
    (
        "a gate that is not hidden",
        "specification S [a] : noexit behaviour a; stop ||| a; stop endspec",
        "",
    ),
    (
        "all gates of a hide, in their order",
        "specification S [a] : noexit behaviour hide c, a, b in (a; b; c; stop ||| b; c; i; a; stop) endspec",
        "17 gate A of S is not used\n44 gate C of `hide` is offered on both sides of a parallel composition, which do not synchronize on it\n47 gate A of `hide` is offered on both sides of a parallel composition, which do not synchronize on it\n50 gate B of `hide` is offered on both sides of a parallel composition, which do not synchronize on it\n",
    ),
    (
        "a name twice in the list of the hide",
        "specification S [a] : noexit behaviour hide b, b in (b; a; stop ||| b; stop) endspec",
        "44 gate B of `hide` is offered on both sides of a parallel composition, which do not synchronize on it\n47 gate B of `hide` is offered on both sides of a parallel composition, which do not synchronize on it\n",
    ),
    (
        "one of two sides hides it itself",
        "specification S [a] : noexit behaviour hide b in (b; a; stop ||| (hide b in b; stop)) endspec",
        "",
    ),
    (
        "a gate of a list alone",
        "specification S [a] : noexit behaviour hide b in ((a; stop |[b]| a; stop) ||| b; stop) endspec",
        "61 gate B of `|[..]|` is never offered on the left\n61 gate B of `|[..]|` is never offered on the right\n",
    ),
];

/// The same among other operators.
const APART_GATES_OF_PARTS: &[Row] = &[
    (
        "two that meet a third",
        "specification S [a] : noexit behaviour hide b in ((b; a; stop ||| b; stop) |[b]| b; b; stop) endspec",
        "",
    ),
    (
        "the third on the left, with full synchronization",
        "specification S [a] : noexit behaviour hide b in (b; a; b; stop || (b; a; stop ||| b; stop)) endspec",
        "",
    ),
    (
        "a composition around that does not synchronize on it",
        "specification S [a] : noexit behaviour hide b in ((b; a; stop ||| b; stop) |[a]| a; stop) endspec",
        "44 gate B of `hide` is offered on both sides of a parallel composition, which do not synchronize on it\n",
    ),
    (
        "the same on the right",
        "specification S [a] : noexit behaviour hide b in (a; stop |[a]| (b; a; stop ||| b; stop)) endspec",
        "44 gate B of `hide` is offered on both sides of a parallel composition, which do not synchronize on it\n",
    ),
    (
        "two pairs that meet",
        "specification S [a] : noexit behaviour hide b in ((b; a; stop |[b]| b; stop) ||| (b; stop |[b]| b; stop)) endspec",
        "44 gate B of `hide` is offered on both sides of a parallel composition, which do not synchronize on it\n",
    ),
    (
        "three sides, one warning",
        "specification S [a] : noexit behaviour hide b in (b; a; stop ||| b; stop ||| b; stop) endspec",
        "44 gate B of `hide` is offered on both sides of a parallel composition, which do not synchronize on it\n",
    ),
    (
        "after an action, and on either side of a choice",
        "specification S [a] : noexit behaviour hide b, c in a; ((b; stop ||| b; stop) [] (c; stop ||| c; stop)) endspec",
        "44 gate B of `hide` is offered on both sides of a parallel composition, which do not synchronize on it\n47 gate C of `hide` is offered on both sides of a parallel composition, which do not synchronize on it\n",
    ),
    (
        "on either side of enabling and disabling",
        "specification S [a] : noexit behaviour hide b, c, d in ((b; exit ||| b; exit) >> (c; stop ||| c; a; stop)) [> (d; stop ||| d; stop) endspec",
        "44 gate B of `hide` is offered on both sides of a parallel composition, which do not synchronize on it\n47 gate C of `hide` is offered on both sides of a parallel composition, which do not synchronize on it\n50 gate D of `hide` is offered on both sides of a parallel composition, which do not synchronize on it\n",
    ),
    (
        "in the left operand of disabling and in the right one of enabling",
        "specification S [a] : noexit behaviour hide b in ((b; stop ||| b; stop) [> a; stop) endspec",
        "44 gate B of `hide` is offered on both sides of a parallel composition, which do not synchronize on it\n",
    ),
    (
        "a hide between",
        "specification S [a] : noexit behaviour hide b in (b; stop [] (hide b in (b; a; stop ||| b; stop))) endspec",
        "67 gate B of `hide` is offered on both sides of a parallel composition, which do not synchronize on it\n",
    ),
    (
        "a hide of another gate between",
        "specification S [a] : noexit behaviour hide b in (hide c in (b; c; a; stop ||| b; stop)) endspec",
        "44 gate B of `hide` is offered on both sides of a parallel composition, which do not synchronize on it\n",
    ),
    (
        "a hide in a process",
        "specification S [a] : noexit behaviour P [a] where process P [x] : noexit := hide b in (b; x; stop ||| b; stop) endproc endspec",
        "82 gate B of `hide` is offered on both sides of a parallel composition, which do not synchronize on it\n",
    ),
    (
        "a composition inside a process, and the hide outside",
        "specification S [a] : noexit behaviour hide b in P [a, b] where process P [x, y] : noexit := x; y; stop ||| y; stop endproc endspec",
        "",
    ),
];

/// Gates that a side of a composition offers, or does not.
const OFFERED_GATES: &[Row] = &[
    (
        "a gate in a list only is used, and neither side offers it",
        "specification S [a] : noexit behaviour stop |[a]| stop endspec",
        "14 the behaviour of S can do nothing: no action, no internal step, no termination\n46 gate A of `|[..]|` is never offered on the left\n46 gate A of `|[..]|` is never offered on the right\n",
    ),
    (
        "a gate that one side offers",
        "specification S [a] : noexit behaviour a; stop |[a]| stop endspec",
        "14 the behaviour of S can do nothing: no action, no internal step, no termination\n49 gate A of `|[..]|` is never offered on the right\n",
    ),
    (
        "a gate that the other side offers",
        "specification S [a] : noexit behaviour stop |[a]| a; stop endspec",
        "14 the behaviour of S can do nothing: no action, no internal step, no termination\n46 gate A of `|[..]|` is never offered on the left\n",
    ),
    (
        "a gate that both sides offer",
        "specification S [a] : noexit behaviour a; stop |[a]| a; stop endspec",
        "",
    ),
    (
        "a hidden gate that a list has too",
        "specification S [a] : noexit behaviour (hide a in a; stop) |[a]| a; stop endspec",
        "61 gate A of `|[..]|` is never offered on the left\n",
    ),
    (
        "a gate that is passed on is used and offered",
        "specification S [a] : noexit behaviour P[a] |[a]| a; stop where process P[x] : noexit := x; stop endproc endspec",
        "",
    ),
    (
        "a gate in the list of an inner composition is not offered by it",
        "specification S [a] : noexit behaviour (stop |[a]| stop) |[a]| a; stop endspec",
        "14 the behaviour of S can do nothing: no action, no internal step, no termination\n47 gate A of `|[..]|` is never offered on the left\n47 gate A of `|[..]|` is never offered on the right\n59 gate A of `|[..]|` is never offered on the left\n",
    ),
    (
        "a gate that an operand of an operand offers",
        "specification S [a, b] : noexit behaviour (b; stop |[b]| (b; a; stop)) |[a]| (i; stop [] i; a; stop) endspec",
        "",
    ),
];

/// The same among other operators, and lists in other forms.
const COMPOSITIONS: &[Row] = &[
    (
        "a gate that is offered before the composition, and not by its sides",
        "specification S [a] : noexit behaviour a; (stop |[a]| a; stop) endspec",
        "50 gate A of `|[..]|` is never offered on the left\n",
    ),
    (
        "a gate that the other operand of a choice offers",
        "specification S [a] : noexit behaviour a; stop [] (stop |[a]| a; stop) [] a; stop endspec",
        "58 gate A of `|[..]|` is never offered on the left\n",
    ),
    (
        "operands of enabling and disabling",
        "specification S [a, b, c] : noexit behaviour ((a; exit >> b; stop) [> c; stop) |[a, b, c]| (a; b; c; stop) endspec",
        "",
    ),
    (
        "interleaving and full synchronization have no list",
        "specification S [a, b] : noexit behaviour (a; stop ||| b; stop) || (a; stop ||| b; stop) endspec",
        "",
    ),
    (
        "the empty list",
        "specification S [a] : noexit behaviour a; stop |[]| stop endspec",
        "",
    ),
    (
        "a gate twice in a list",
        "specification S [a] : noexit behaviour a; stop |[a, a]| stop endspec",
        "14 the behaviour of S can do nothing: no action, no internal step, no termination\n49 gate A of `|[..]|` is never offered on the right\n",
    ),
    (
        "a gate three times in a list, with another between",
        "specification S [a, b] : noexit behaviour stop |[a, b, A, a]| b; stop endspec",
        "14 the behaviour of S can do nothing: no action, no internal step, no termination\n49 gate A of `|[..]|` is never offered on the left\n49 gate A of `|[..]|` is never offered on the right\n52 gate B of `|[..]|` is never offered on the left\n",
    ),
    (
        "a gate in three lists",
        "specification S [a] : noexit behaviour (stop |[a]| a; stop) |[a]| (stop |[a]| a; stop) endspec",
        "14 the behaviour of S can do nothing: no action, no internal step, no termination\n47 gate A of `|[..]|` is never offered on the left\n74 gate A of `|[..]|` is never offered on the left\n",
    ),
    (
        "two gates, each side with another",
        "specification S [a, b] : noexit behaviour a; stop |[b, a]| b; stop endspec",
        "14 the behaviour of S can do nothing: no action, no internal step, no termination\n52 gate B of `|[..]|` is never offered on the left\n55 gate A of `|[..]|` is never offered on the right\n",
    ),
    (
        "names in other letter case",
        "specification s [Ab] : noexit behaviour aB; stop |[AB]| stop endspec",
        "14 the behaviour of S can do nothing: no action, no internal step, no termination\n51 gate AB of `|[..]|` is never offered on the right\n",
    ),
];

/// Processes that are called, and processes that are not.
const PROCESSES: &[Row] = &[
    (
        "a process that is not called",
        "specification S : noexit behaviour stop where process P : noexit := stop endproc endspec",
        "54 process P is never called\n",
    ),
    (
        "a process that is called",
        "specification S : noexit behaviour P where process P : noexit := stop endproc endspec",
        "14 the behaviour of S can do nothing: no action, no internal step, no termination\n",
    ),
    (
        "of two processes of one name the inner one is called",
        "specification S : noexit behaviour Q where process P : noexit := stop endproc process Q : noexit := P where process P : noexit := stop endproc endproc endspec",
        "14 the behaviour of S can do nothing: no action, no internal step, no termination\n51 process P is never called\n",
    ),
    (
        "of two processes of one name the outer one is called",
        "specification S : noexit behaviour P ||| Q where process P : noexit := stop endproc process Q : noexit := stop where process P : noexit := stop endproc endproc endspec",
        "14 the behaviour of S can do nothing: no action, no internal step, no termination\n125 process P is never called\n",
    ),
    (
        "a process with the name of the specification",
        "specification P : noexit behaviour stop where process P : noexit := stop endproc endspec",
        "54 process P is never called\n",
    ),
    (
        "a call under each operator",
        "specification S [a] : noexit behaviour (a; A [] B) ||| (hide h in h; C) ||| (D >> E) ||| (F [> G) where process A : noexit := stop endproc process B : noexit := stop endproc process C : noexit := stop endproc process D : exit := exit endproc process E : noexit := stop endproc process F : noexit := stop endproc process G : noexit := stop endproc process H : noexit := stop endproc endspec",
        "355 process H is never called\n",
    ),
    (
        "a process sees its own gates alone",
        "specification S [a] : noexit behaviour stop where process P [a, b] : noexit := a; stop endproc endspec",
        "17 gate A of S is not used\n58 process P is never called\n64 gate B of P is not used\n",
    ),
    (
        "the gates of inner processes",
        "specification S [a] : noexit behaviour P[a] where process P [x] : noexit := i; stop where process Q [y, z] : noexit := y; stop endproc endproc endspec",
        "61 gate X of P is not used\n98 process Q is never called\n104 gate Z of Q is not used\n",
    ),
    (
        "several warnings in the order of the text",
        "specification S [a, b] : noexit behaviour P[a] |[a]| stop where process P [x] : noexit := x; (stop |[x]| x; stop) endproc process Q [y] : noexit := stop endproc endspec",
        "14 the behaviour of S can do nothing: no action, no internal step, no termination\n20 gate B of S is not used\n49 gate A of `|[..]|` is never offered on the right\n101 gate X of `|[..]|` is never offered on the left\n130 process Q is never called\n133 gate Y of Q is not used\n",
    ),
];

/// Processes that the behaviour of the specification reaches, and processes that it does not reach.
const REACHED_PROCESSES: &[Row] = &[
    (
        "a process that only itself calls",
        "specification S : noexit behaviour stop where process P : noexit := i; P endproc endspec",
        "54 process P is never reached from the behaviour of the specification\n",
    ),
    (
        "a process that calls itself and is called",
        "specification S : noexit behaviour P where process P : noexit := i; P endproc endspec",
        "",
    ),
    (
        "a process that only one that is not called calls",
        "specification S : noexit behaviour stop where process P : noexit := Q endproc process Q : noexit := stop endproc endspec",
        "54 process P is never called\n86 process Q is never reached from the behaviour of the specification\n",
    ),
    (
        "two processes that call each other",
        "specification S : noexit behaviour stop where process P : noexit := i; Q endproc process Q : noexit := i; P endproc endspec",
        "54 process P is never reached from the behaviour of the specification\n89 process Q is never reached from the behaviour of the specification\n",
    ),
    (
        "two processes that call each other, one of which is called",
        "specification S : noexit behaviour i; Q where process P : noexit := i; Q endproc process Q : noexit := i; P endproc endspec",
        "",
    ),
    (
        "a process that is reached only through others, which are defined after it",
        "specification S : noexit behaviour R where process P : noexit := stop endproc process Q : noexit := P endproc process R : noexit := i; Q endproc endspec",
        "",
    ),
    (
        "a process that calls one that is reached",
        "specification S : noexit behaviour P where process P : noexit := stop endproc process Q : noexit := i; (P [] Q) endproc endspec",
        "14 the behaviour of S can do nothing: no action, no internal step, no termination\n86 process Q is never reached from the behaviour of the specification\n",
    ),
    (
        "an inner process that only its own process calls, which is not called",
        "specification S : noexit behaviour stop where process P : noexit := Q where process Q : noexit := stop endproc endproc endspec",
        "54 process P is never called\n84 process Q is never reached from the behaviour of the specification\n",
    ),
    (
        "an inner process and its own that call each other",
        "specification S : noexit behaviour stop where process P : noexit := i; Q where process Q : noexit := i; P endproc endproc endspec",
        "54 process P is never reached from the behaviour of the specification\n87 process Q is never reached from the behaviour of the specification\n",
    ),
    (
        "an inner process of one that is reached",
        "specification S : noexit behaviour P where process P : noexit := i; Q where process Q : noexit := i; P endproc endproc endspec",
        "",
    ),
    (
        "of two processes of one name the outer one calls itself",
        "specification S : noexit behaviour Q where process P : noexit := i; P endproc process Q : noexit := P where process P : noexit := stop endproc endproc endspec",
        "14 the behaviour of S can do nothing: no action, no internal step, no termination\n51 process P is never reached from the behaviour of the specification\n",
    ),
    (
        "of two processes of one name the inner one calls itself",
        "specification S : noexit behaviour P ||| Q where process P : noexit := i; P endproc process Q : noexit := stop where process P : noexit := i; P endproc endproc endspec",
        "125 process P is never reached from the behaviour of the specification\n",
    ),
    (
        "after a behaviour that never terminates",
        "specification S : noexit behaviour P >> Q where process P : exit := i; P endproc process Q : noexit := i; Q endproc endspec",
        "56 P is declared exit, but can never terminate\n",
    ),
    (
        "reached under each operator of a process",
        "specification S : noexit behaviour P where process P : noexit := (i; A [] B) ||| (hide h in h; C) ||| (D >> E) ||| (F [> G) endproc process A : noexit := i; A endproc process B : noexit := i; B endproc process C : noexit := i; C endproc process D : exit := exit endproc process E : noexit := i; E endproc process F : noexit := i; F endproc process G : noexit := i; G endproc process H : noexit := i; H endproc endspec",
        "383 process H is never reached from the behaviour of the specification\n",
    ),
];

/// Names of more than 64 bytes, which are cut, and names that are not.
const LONG_NAMES: &[Row] = &[
    (
        "processes with names of 64 and of 65 bytes",
        "specification S : noexit behaviour stop where process p012345678901234567890123456789012345678901234567890123456789123 : noexit := stop endproc process p0123456789012345678901234567890123456789012345678901234567891234 : noexit := stop endproc endspec",
        "54 process P012345678901234567890123456789012345678901234567890123456789123 is never called\n152 process P012345678901234567890123456789012345678901234567890123456789123... is never called\n",
    ),
    (
        "a process with a long name that is not reached",
        "specification S : noexit behaviour stop where process p0123456789012345678901234567890123456789012345678901234567891234 : noexit := i; p0123456789012345678901234567890123456789012345678901234567891234 endproc endspec",
        "54 process P012345678901234567890123456789012345678901234567890123456789123... is never reached from the behaviour of the specification\n",
    ),
    (
        "gates and a specification with long names",
        "specification p0123456789012345678901234567890123456789012345678901234567891234 [p012345678901234567890123456789012345678901234567890123456789123, p0123456789012345678901234567890123456789012345678901234567891234a] : noexit behaviour stop endspec",
        "81 gate P012345678901234567890123456789012345678901234567890123456789123 of P012345678901234567890123456789012345678901234567890123456789123... is not used\n147 gate P012345678901234567890123456789012345678901234567890123456789123... of P012345678901234567890123456789012345678901234567890123456789123... is not used\n",
    ),
    (
        "a gate with a long name in a list",
        "specification p012345678901234567890123456789012345678901234567890123456789123 [p0123456789012345678901234567890123456789012345678901234567891235] : noexit behaviour p0123456789012345678901234567890123456789012345678901234567891235; stop |[p0123456789012345678901234567890123456789012345678901234567891235]| stop endspec",
        "14 the behaviour of P012345678901234567890123456789012345678901234567890123456789123 can do nothing: no action, no internal step, no termination\n240 gate P012345678901234567890123456789012345678901234567890123456789123... of `|[..]|` is never offered on the right\n",
    ),
    (
        "a specification with a name of 64 bytes",
        "specification p012345678901234567890123456789012345678901234567890123456789123 [a] : noexit behaviour stop endspec",
        "80 gate A of P012345678901234567890123456789012345678901234567890123456789123 is not used\n",
    ),
];

/// Definitions that are declared `exit`, and that may terminate or never do.
const TERMINATION: &[Row] = &[
    (
        "a process that calls itself after an action",
        "specification S [a] : noexit behaviour P[a] >> stop where process P [a] : exit := a; P[a] endproc endspec",
        "66 P is declared exit, but can never terminate\n",
    ),
    (
        "a process that may also exit",
        "specification S [a] : noexit behaviour P[a] >> stop where process P [a] : exit := a; P[a] [] exit endproc endspec",
        "",
    ),
    (
        "a specification that calls it",
        "specification S : exit behaviour P where process P : exit := i; P endproc endspec",
        "14 S is declared exit, but can never terminate\n49 P is declared exit, but can never terminate\n",
    ),
    (
        "a specification that exits",
        "specification S : exit behaviour i; exit endspec",
        "",
    ),
    (
        "a specification that is declared noexit",
        "specification S : noexit behaviour i; stop endspec",
        "",
    ),
    (
        "two processes that call each other",
        "specification S : exit behaviour P where process P : exit := i; Q endproc process Q : exit := i; P endproc endspec",
        "14 S is declared exit, but can never terminate\n49 P is declared exit, but can never terminate\n82 Q is declared exit, but can never terminate\n",
    ),
    (
        "two processes that call each other, one of which may exit",
        "specification S : exit behaviour P where process P : exit := i; Q endproc process Q : exit := i; P [] i; exit endproc endspec",
        "",
    ),
    (
        "processes that each call the next one, the last of which exits",
        "specification S : exit behaviour P where process P : exit := i; Q endproc process Q : exit := i; R endproc process R : exit := exit endproc endspec",
        "",
    ),
    (
        "one side of a choice",
        "specification S : exit behaviour P [] exit where process P : exit := i; P endproc endspec",
        "57 P is declared exit, but can never terminate\n",
    ),
    (
        "the other side of a choice",
        "specification S : exit behaviour exit [] P where process P : exit := i; P endproc endspec",
        "57 P is declared exit, but can never terminate\n",
    ),
    (
        "one side of a parallel composition",
        "specification S : exit behaviour exit ||| P where process P : exit := i; P endproc endspec",
        "14 S is declared exit, but can never terminate\n58 P is declared exit, but can never terminate\n",
    ),
    (
        "the other side of a parallel composition",
        "specification S : exit behaviour P ||| exit where process P : exit := i; P endproc endspec",
        "14 S is declared exit, but can never terminate\n58 P is declared exit, but can never terminate\n",
    ),
];

/// The same under the other operators, and with other warnings.
const TERMINATION_OF_PARTS: &[Row] = &[
    (
        "both sides of a parallel composition",
        "specification S : exit behaviour exit || i; exit endspec",
        "",
    ),
    (
        "the left side of `>>`",
        "specification S : exit behaviour P >> exit where process P : exit := i; P endproc endspec",
        "14 S is declared exit, but can never terminate\n57 P is declared exit, but can never terminate\n",
    ),
    (
        "the right side of `>>`",
        "specification S : exit behaviour exit >> P where process P : exit := i; P endproc endspec",
        "14 S is declared exit, but can never terminate\n57 P is declared exit, but can never terminate\n",
    ),
    (
        "both sides of `>>`",
        "specification S : exit behaviour exit >> i; exit endspec",
        "",
    ),
    (
        "the left side of `[>`",
        "specification S : exit behaviour P [> exit where process P : exit := i; P endproc endspec",
        "57 P is declared exit, but can never terminate\n",
    ),
    (
        "the right side of `[>`",
        "specification S : exit behaviour exit [> P where process P : exit := i; P endproc endspec",
        "57 P is declared exit, but can never terminate\n",
    ),
    (
        "inside a hiding",
        "specification S : exit behaviour hide a in a; P where process P : exit := i; P endproc endspec",
        "14 S is declared exit, but can never terminate\n62 P is declared exit, but can never terminate\n",
    ),
    (
        "an exit inside a hiding",
        "specification S : exit behaviour hide a in a; exit endspec",
        "",
    ),
    (
        "a process that is not reached either",
        "specification S : noexit behaviour stop where process P : exit := i; P endproc endspec",
        "54 process P is never reached from the behaviour of the specification\n54 P is declared exit, but can never terminate\n",
    ),
    (
        "a process that is not called either",
        "specification S : noexit behaviour stop where process Q : exit := P where process P : exit := i; P endproc endproc endspec",
        "54 process Q is never called\n54 Q is declared exit, but can never terminate\n82 process P is never reached from the behaviour of the specification\n82 P is declared exit, but can never terminate\n",
    ),
    (
        "of two processes of one name the inner one is called, which never terminates",
        "specification S : exit behaviour Q where process P : exit := exit endproc process Q : exit := P where process P : exit := i; P endproc endproc endspec",
        "14 S is declared exit, but can never terminate\n49 process P is never called\n82 Q is declared exit, but can never terminate\n110 P is declared exit, but can never terminate\n",
    ),
    (
        "of two processes of one name the inner one is called, which terminates",
        "specification S : exit behaviour Q where process P : exit := i; P endproc process Q : exit := P where process P : exit := exit endproc endproc endspec",
        "49 process P is never reached from the behaviour of the specification\n49 P is declared exit, but can never terminate\n",
    ),
    (
        "a long name",
        "specification S : exit behaviour exit [] p0123456789012345678901234567890123456789012345678901234567891234 where process p0123456789012345678901234567890123456789012345678901234567891234 : exit := i; p0123456789012345678901234567890123456789012345678901234567891234 endproc endspec",
        "121 P012345678901234567890123456789012345678901234567890123456789123... is declared exit, but can never terminate\n",
    ),
];

/// Calls whose gates have changed places.
const EXCHANGED_GATES: &[Row] = &[
    (
        "a call from outside",
        "specification S [a, b] : noexit behaviour P [b, a] where process P [a, b] : noexit := a; b; P [a, b] endproc endspec",
        "42 the gates of P have changed places: its own are A, B\n",
    ),
    (
        "the same list",
        "specification S [a, b] : noexit behaviour P [a, b] where process P [a, b] : noexit := a; b; P [a, b] endproc endspec",
        "",
    ),
    (
        "other names",
        "specification S [x, y] : noexit behaviour P [y, x] where process P [a, b] : noexit := a; b; P [a, b] endproc endspec",
        "",
    ),
    (
        "one name of two",
        "specification S [a, b] : noexit behaviour P [a, a] ||| P [b, b] where process P [a, b] : noexit := a; b; P [a, b] endproc endspec",
        "",
    ),
    (
        "one formal gate and another one",
        "specification S [b, c] : noexit behaviour P [b, c] where process P [a, b] : noexit := a; b; P [a, b] endproc endspec",
        "",
    ),
    (
        "formal gates that are written in another case",
        "specification S [A, b] : noexit behaviour P [B, A] where process p [a, B] : noexit := a; b; p [A, b] endproc endspec",
        "42 the gates of P have changed places: its own are A, B\n",
    ),
    (
        "three gates",
        "specification S [a, b, c] : noexit behaviour P [b, c, a] where process P [a, b, c] : noexit := a; b; c; stop endproc endspec",
        "45 the gates of P have changed places: its own are A, B, C\n",
    ),
    (
        "two of three gates",
        "specification S [a, b, c] : noexit behaviour P [a, c, b] where process P [a, b, c] : noexit := a; b; c; stop endproc endspec",
        "45 the gates of P have changed places: its own are A, B, C\n",
    ),
    (
        "each of two calls",
        "specification S [a, b] : noexit behaviour P [b, a] ||| P [b, a] where process P [a, b] : noexit := a; b; P [a, b] endproc endspec",
        "42 the gates of P have changed places: its own are A, B\n55 the gates of P have changed places: its own are A, B\n",
    ),
    (
        "peers",
        "specification S [a, b] : noexit behaviour P [a, b] ||| P [b, a] where process P [a, b] : noexit := a; b; P [a, b] endproc endspec",
        "",
    ),
    (
        "a peer in another process",
        "specification S [a, b] : noexit behaviour P [b, a] ||| Q [a, b] where process P [a, b] : noexit := a; b; P [a, b] endproc process Q [a, b] : noexit := P [a, b] endproc endspec",
        "",
    ),
    (
        "the gates of a call that are those of a process around it",
        "specification S [a, b] : noexit behaviour Q [a, b] where process P [a, b] : noexit := a; b; P [a, b] endproc process Q [a, b] : noexit := P [b, a] endproc endspec",
        "138 the gates of P have changed places: its own are A, B\n",
    ),
    (
        "under each operator",
        "specification S [a, b] : exit behaviour a; P [b, a] [] (P [b, a] |[a]| P [b, a]) [] ((hide c in c; P [b, a]) >> (P [b, a] [> P [b, a])) where process P [a, b] : exit := a; b; exit endproc endspec",
        "43 the gates of P have changed places: its own are A, B\n56 the gates of P have changed places: its own are A, B\n71 the gates of P have changed places: its own are A, B\n99 the gates of P have changed places: its own are A, B\n113 the gates of P have changed places: its own are A, B\n125 the gates of P have changed places: its own are A, B\n",
    ),
];

/// The same among processes that call one another, and inside others.
const EXCHANGED_GATES_OF_PROCESSES: &[Row] = &[
    (
        "inside the process itself",
        "specification S [x, y] : noexit behaviour P [x, y] where process P [a, b] : noexit := a; P [b, a] endproc endspec",
        "",
    ),
    (
        "a call from outside, and one inside",
        "specification S [a, b] : noexit behaviour P [b, a] where process P [a, b] : noexit := a; P [b, a] endproc endspec",
        "42 the gates of P have changed places: its own are A, B\n",
    ),
    (
        "in its own order only inside",
        "specification S [a, b] : noexit behaviour P [b, a] where process P [a, b] : noexit := a; P [a, b] endproc endspec",
        "42 the gates of P have changed places: its own are A, B\n",
    ),
    (
        "in a process that it calls, and that calls it",
        "specification S [x, y] : noexit behaviour P [x, y] where process P [a, b] : noexit := a; Q [a, b] endproc process Q [a, b] : noexit := b; P [b, a] endproc endspec",
        "",
    ),
    (
        "in a process that one that it calls calls",
        "specification S [x, y] : noexit behaviour P [x, y] where process P [a, b] : noexit := a; Q [a, b] endproc process Q [a, b] : noexit := b; R [a, b] endproc process R [a, b] : noexit := a; P [b, a] endproc endspec",
        "",
    ),
    (
        "in its own order only in a process that it calls",
        "specification S [a, b] : noexit behaviour P [b, a] where process P [a, b] : noexit := a; Q [a, b] endproc process Q [a, b] : noexit := b; P [a, b] endproc endspec",
        "42 the gates of P have changed places: its own are A, B\n",
    ),
    (
        "in a process that calls it, and that it does not call",
        "specification S [a, b] : noexit behaviour Q [a, b] where process P [a, b] : noexit := a; b; stop endproc process Q [a, b] : noexit := a; P [b, a] [] b; Q [b, a] endproc endspec",
        "137 the gates of P have changed places: its own are A, B\n",
    ),
    (
        "a process inside another",
        "specification S [a, b] : noexit behaviour Q [a, b] where process Q [a, b] : noexit := P [b, a] where process P [a, b] : noexit := a; b; stop endproc endproc endspec",
        "86 the gates of P have changed places: its own are A, B\n",
    ),
    (
        "in a process inside its own",
        "specification S [a, b] : noexit behaviour P [a, b] where process P [a, b] : noexit := Q [a, b] where process Q [a, b] : noexit := a; b; P [b, a] endproc endproc endspec",
        "",
    ),
];

#[test]
fn warns_about_gates_that_are_not_used(rt: HostRuntime) -> Result<(), Fail> {
    Ok(assert_rows(&rt, rt.alloc(), USED_GATES)?)
}

#[test]
fn warns_about_hidden_gates_that_are_not_used(rt: HostRuntime) -> Result<(), Fail> {
    Ok(assert_rows(&rt, rt.alloc(), HIDDEN_GATES)?)
}

#[test]
fn warns_about_hidden_gates_that_both_sides_offer(rt: HostRuntime) -> Result<(), Fail> {
    Ok(assert_rows(&rt, rt.alloc(), APART_GATES)?)
}

#[test]
fn warns_about_hidden_gates_of_parts(rt: HostRuntime) -> Result<(), Fail> {
    Ok(assert_rows(&rt, rt.alloc(), APART_GATES_OF_PARTS)?)
}

#[test]
fn warns_about_gates_that_are_not_offered(rt: HostRuntime) -> Result<(), Fail> {
    Ok(assert_rows(&rt, rt.alloc(), OFFERED_GATES)?)
}

#[test]
fn warns_about_lists_of_compositions(rt: HostRuntime) -> Result<(), Fail> {
    Ok(assert_rows(&rt, rt.alloc(), COMPOSITIONS)?)
}

#[test]
fn warns_about_processes_that_are_not_called(rt: HostRuntime) -> Result<(), Fail> {
    Ok(assert_rows(&rt, rt.alloc(), PROCESSES)?)
}

#[test]
fn warns_about_processes_that_are_not_reached(rt: HostRuntime) -> Result<(), Fail> {
    Ok(assert_rows(&rt, rt.alloc(), REACHED_PROCESSES)?)
}

#[test]
fn cuts_names_that_are_long(rt: HostRuntime) -> Result<(), Fail> {
    Ok(assert_rows(&rt, rt.alloc(), LONG_NAMES)?)
}

#[test]
fn warns_about_definitions_that_never_terminate(rt: HostRuntime) -> Result<(), Fail> {
    Ok(assert_rows(&rt, rt.alloc(), TERMINATION)?)
}

#[test]
fn warns_about_parts_that_never_terminate(rt: HostRuntime) -> Result<(), Fail> {
    Ok(assert_rows(&rt, rt.alloc(), TERMINATION_OF_PARTS)?)
}

#[test]
fn warns_about_gates_that_have_changed_places(rt: HostRuntime) -> Result<(), Fail> {
    Ok(assert_rows(&rt, rt.alloc(), EXCHANGED_GATES)?)
}

#[test]
fn warns_about_gates_that_have_changed_places_in_processes(rt: HostRuntime) -> Result<(), Fail> {
    Ok(assert_rows(&rt, rt.alloc(), EXCHANGED_GATES_OF_PROCESSES)?)
}
