//! The specifications of the tests of sets, and what follows their sequences as text.
use super::set_walk::SetWalk;
use super::set_walk_error::WalkError;
use lotos_sets::SetNumber;
use std::alloc::Global;

/// A choice between the gates that a hidden step offers again or not.
pub const HIDDEN_LOOP: &str =
    "specification V [a,b] : noexit behaviour hide h in P [a,b,h] where process P [a,b,h] : noexit := a; (h; P [a,b,h] [] b; Q [h]) endproc process Q [h] : noexit := h; Q [h] endproc endspec";

/// A server that answers, or refuses after an internal step.
pub const SERVER: &str =
    "specification D [req,rsp,nak] : noexit behaviour S [req,rsp,nak] where process S [req,rsp,nak] : noexit := req; (rsp; S [req,rsp,nak] [] i; nak; S [req,rsp,nak]) endproc endspec";

/// Two processes that meet at a hidden gate, and what is enabled when both have terminated.
pub const MEETING: &str =
    "specification G [a,b,c] : exit behaviour hide s in ((a; s; exit) |[s]| (s; b; exit)) >> c; exit endspec";

/// A choice between two prefixes of the same gate.
pub const SAME_PREFIX: &str =
    "specification N [a,b,c] : noexit behaviour a; b; stop [] a; c; stop endspec";

/// An internal step to inaction beside a gate.
pub const HIDDEN_STOP: &str =
    "specification K [a,b] : noexit behaviour a; (i; stop [] b; stop) endspec";

/// A sender repeats a message until it is acknowledged; the media may lose what they carry.
pub const LINK: &str = "specification Link [put,get] : noexit behaviour
hide send, frame, reply, ack in (Sender [put,send,ack] ||| Receiver [get,frame,reply])
|[send,frame,reply,ack]| (Medium [send,frame] ||| Medium [reply,ack])
where process Sender [put,send,ack] : noexit := put; Sending [put,send,ack]
where process Sending [put,send,ack] : noexit
:= send; (ack; Sender [put,send,ack] [] i; Sending [put,send,ack]) endproc endproc
process Receiver [get,frame,reply] : noexit := frame; get; reply; Receiver [get,frame,reply] endproc
process Medium [take,give] : noexit := take; (give; Medium [take,give] [] i; Medium [take,give]) endproc endspec";

pub const INACTION: &str = "specification S : noexit behaviour stop endspec";

pub const INTERNAL_LOOP: &str =
    "specification S : noexit behaviour P where process P : noexit := i; P endproc endspec";

pub const TWO_ACTIONS: &str = "specification S [a,b] : noexit behaviour a; b; stop endspec";

/// After `b` one normal form that is reached by `a` too, and one that has `a`.
pub const BRANCHES: &str =
    "specification S [a,b] : noexit behaviour a; stop [] b; stop [] b; a; stop endspec";

/// Two labels that lead to the same set.
pub const TWO_WAYS: &str =
    "specification S [a,b,c] : noexit behaviour b; c; a; stop [] a; c; a; stop endspec";

/// A set that comes up after a longer sequence than others.
pub const LATE: &str =
    "specification S [a,b] : noexit behaviour P [a,b] where process P [a,b] : noexit := b; a; (b; P [a,b] [] a; stop) [] a; P [a,b] endproc endspec";

/// Two sets after which the same can be observed: of inaction, and of internal steps for ever.
pub const SAME_FUTURE: &str =
    "specification S [a,b] : noexit behaviour a; stop [] b; P where process P : noexit := i; P endproc endspec";

/// The labels that follow the set, each followed by a blank, and `<deadlock>` if it has one.
fn describe_set(alloc: Global, walk: &mut SetWalk, set: SetNumber) -> Result<String, WalkError> {
    let mut out = String::new(alloc);
    let mut after = None;
    for _ in 0..9 {
        match walk.next_label(set, after)? {
            None => break,
            Some(label) => {
                out.push_str(walk.label_text(label)?)?;
                out.push_str(" ")?;
                after = Some(label);
            }
        }
    }
    let can_stop = walk.has_deadlock(set)?;
    if can_stop {
        out.push_str("<deadlock>")?;
    }
    // All labels are refused, so a term of the set refuses them exactly if it is a deadlock.
    if walk.can_refuse(set)? != can_stop {
        out.push_str("<refuses>")?;
    }
    Ok(out)
}

/// The set of a sequence, whose labels are given as texts; `None` if it cannot be observed.
fn set_of(walk: &mut SetWalk, sequence: &[&str]) -> Result<Option<SetNumber>, WalkError> {
    let mut set = walk.first()?;
    for text in sequence {
        let label = walk.label_of(text)?;
        match walk.after(set, label)? {
            None => return Ok(None),
            Some(next) => set = next,
        }
    }
    Ok(Some(set))
}

fn describe_sequence(
    alloc: Global,
    walk: &mut SetWalk,
    sequence: &[&str],
) -> Result<String, WalkError> {
    match set_of(walk, sequence)? {
        None => Ok(String::from_str(alloc, "<none>")?),
        Some(set) => describe_set(alloc, walk, set),
    }
}

/// What follows a sequence: the labels, each followed by a blank, and `<deadlock>` if it can end in one; `<none>` if it
/// cannot be observed, `<too many>` if it or one of its prefixes reaches more terms than the bound.
pub fn describe(alloc: Global, walk: &mut SetWalk, sequence: &[&str]) -> Result<String, WalkError> {
    match describe_sequence(alloc, walk, sequence) {
        Ok(text) => Ok(text),
        Err(error) => match error {
            WalkError::TooManyTerms => Ok(String::from_str(alloc, "<too many>")?),
            _ => Err(error),
        },
    }
}
