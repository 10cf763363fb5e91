//! Specifications that several commands are run on.

/// A link that repeats a message until it is acknowledged, over media that may lose what they carry.
pub const LINK: &[u8] = b"specification Link [put, get] : noexit behaviour
hide send, frame, reply, ack in (Sender [put, send, ack] ||| Receiver [get, frame, reply])
|[send, frame, reply, ack]| (Medium [send, frame] ||| Medium [reply, ack])
where process Sender [put, send, ack] : noexit := put; Sending [put, send, ack]
where process Sending [put, send, ack] : noexit
:= send; (ack; Sender [put, send, ack] [] i; Sending [put, send, ack]) endproc endproc
process Receiver [get, frame, reply] : noexit := frame; get; reply; Receiver [get, frame, reply] endproc
process Medium [take, give] : noexit := take; (give; Medium [take, give] [] i; Medium [take, give]) endproc endspec";

/// A request has its response, or is refused after an internal step.
pub const SERVER: &[u8] = b"specification D [req, rsp, nak] : noexit behaviour S [req, rsp, nak]
where process S [req, rsp, nak] : noexit
:= req; (rsp; S [req, rsp, nak] [] i; nak; S [req, rsp, nak]) endproc endspec";

/// Two sides that end together, and then C.
pub const MEETING: &[u8] = b"specification G [a, b, c] : exit
behaviour hide s in ((a; s; exit) |[s]| (s; b; exit)) >> c; exit endspec";

/// After A it may be silent for ever, and it may take B and then be so.
pub const VANISHING: &[u8] = b"specification V [a, b] : noexit behaviour hide h in P [a, b, h]
where process P [a, b, h] : noexit := a; (h; P [a, b, h] [] b; Q [h]) endproc
process Q [h] : noexit := h; Q [h] endproc endspec";

/// It grows for ever by internal steps.
pub const GROWING: &[u8] = b"specification S [a] : noexit behaviour hide b in P [b]
where process P [b] : noexit := b; (P [b] ||| P [b]) endproc endspec";

/// A writer, and after a bell a reader, come in again and again.
pub const TURNS: &[u8] =
    b"specification T [win, wout, bell, rin, rout] : noexit behaviour R [win, wout, bell, rin, rout]
where process R [win, wout, bell, rin, rout] : noexit
:= win; bell; rin; rout; wout; R [win, wout, bell, rin, rout] endproc endspec";

/// A buffer for one item: filled by `a` and emptied by `b`, forever.
pub const BUFFER: &[u8] =
    b"specification S [a,b] : noexit behaviour P[a,b] where process P [x,y] : noexit := x; y; P[x,y] endproc endspec";

/// A reader that comes in while the writer is in: a bell between them, forever.
pub const BELL: &[u8] =
    b"specification T [win,bell,rin,rout,wout] : noexit behaviour R[win,bell,rin,rout,wout] where process R [win,bell,rin,rout,wout] : noexit := win; bell; rin; rout; wout; R[win,bell,rin,rout,wout] endproc endspec";

/// `a` and then termination, either of which `b` may come before.
pub const DISABLED: &[u8] = b"specification S [a,b] : exit behaviour a; exit [> b; stop endspec";

/// `a` alone.
pub const ONE_STEP: &[u8] = b"specification S [a] : noexit behaviour a; stop endspec";

/// `a` after an internal step.
pub const DELAYED: &[u8] = b"specification S [a] : noexit behaviour i; a; stop endspec";

/// Its gate is not declared.
pub const UNDECLARED: &[u8] = b"specification S [a] : noexit behaviour b; stop endspec";

/// `a` alone, `b` alone, or `b` and then `a`.
pub const BRANCHES: &[u8] =
    b"specification S [a,b] : noexit behaviour a; stop [] b; stop [] b; a; stop endspec";

/// `a`, `b` and termination, in this order.
pub const TWO_STEPS: &[u8] = b"specification S [a,b] : exit behaviour a; b; exit endspec";

/// `a` after an internal step, and no `b`.
pub const DELAYED_WITHOUT_B: &[u8] = b"specification S [a,b] : noexit behaviour i; a; stop endspec";

/// `a` over and over.
pub const ONE_GATE: &[u8] =
    b"specification S [a] : noexit behaviour P[a] where process P [x] : noexit := x; P[x] endproc endspec";

/// `a` after two internal steps, and no `b`.
pub const SLOW_WITHOUT_B: &[u8] = b"specification S [a,b] : noexit behaviour i; i; a; stop endspec";

/// `a` after an internal step, or `a` and then `b`.
pub const DELAYED_OR_LONGER: &[u8] =
    b"specification S [a,b] : noexit behaviour i; a; stop [] a; b; stop endspec";

/// `a` after two internal steps.
pub const SLOW: &[u8] = b"specification S [a] : noexit behaviour i; i; a; stop endspec";

/// `a` after an internal step, or `b`.
pub const DELAYED_OR_B: &[u8] =
    b"specification S [a,b] : noexit behaviour i; a; stop [] b; stop endspec";

/// `a` alone, or `a` and then `b`.
pub const SHORT_OR_LONGER: &[u8] =
    b"specification S [a,b] : noexit behaviour a; stop [] a; b; stop endspec";

/// A hidden step over and over.
pub const SILENT: &[u8] =
    b"specification S [a] : noexit behaviour hide h in P [h] where process P [h] : noexit := h; P [h] endproc endspec";
