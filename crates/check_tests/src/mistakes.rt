//! Mistakes of people who are new to the language, and the lines that explain them.
use lotos_check::check;
use lotos_explain::{explain_check_fault, explain_text_fault};
use lotos_text::{Specification, TextFault, parse};
use std::alloc::{AllocError, Global};
use std::process::Abort;

/// What is tested, a text, and the lines.
type Row = (&'static str, &'static [u8], &'static [u8]);

/// Tokens that are missing, or too many.
const MISSING: &[Row] = &[
    (
        "no semicolon after a gate",
        b"specification S [a] : noexit\nbehaviour a stop\nendspec\n",
        b"  behaviour a stop\n              ^\n  `stop` is a reserved word\n  a `;` may be missing between `a` and it\n  Put `;` after `a` if it is a gate, or an operator as `[]` if it is a process.\n",
    ),
    (
        "no semicolon before another gate",
        b"specification S [a, bell] : noexit\nbehaviour a; bell (* no sign *) a; stop\nendspec\n",
        b"  behaviour a; bell (* no sign *) a; stop\n                                  ^\n  `a` is an identifier\n  a `;` may be missing between `bell` and it\n  Put `;` after `bell` if it is a gate, or an operator as `[]` if it is a process.\n",
    ),
    (
        "no semicolon before a parenthesis",
        b"specification S [a] : noexit\nbehaviour a (a; stop)\nendspec\n",
        b"  behaviour a (a; stop)\n              ^\n  `(` is a sign\n  a `;` may be missing between `a` and it\n  Put `;` after `a` if it is a gate, or an operator as `[]` if it is a process.\n",
    ),
    (
        "no operator after a call with gates",
        b"specification S [a] : noexit\nbehaviour P[a] stop\nendspec\n",
        b"  behaviour P[a] stop\n                 ^\n  `stop` is a reserved word\n  could be here, among others: `[]` `|[` `||` `|||` `[>` `>>` `where` `endspec`\n  Put an operator before it: `[]` for a choice, `|||` for both side by side, `>>` for one after the other.\n",
    ),
    (
        "no semicolon after the internal action",
        b"specification S : noexit\nbehaviour i stop\nendspec\n",
        b"  behaviour i stop\n              ^\n  `stop` is a reserved word\n  could be here, among others: `;`\n  Put `;` before it.\n",
    ),
    (
        "an equals sign for a definition",
        b"specification S [a] : noexit behaviour P[a]\nwhere process P [x] : noexit = x; stop endproc\nendspec",
        b"  where process P [x] : noexit = x; stop endproc\n                               ^\n  `=` begins no word and no sign\n  could be here, among others: `:=`\n  Write `:=` after the functionality of a process.\n",
    ),
    (
        "a gate called in",
        b"specification S [in, out] : noexit\nbehaviour in; out; stop endspec",
        b"  specification S [in, out] : noexit\n                   ^\n  `in` is a reserved word\n  could be here, among others: a name\n  Choose another name if it is meant as one, or put what is missing before it.\n",
    ),
    (
        "a byte order mark",
        b"\xef\xbb\xbfspecification S : noexit behaviour stop endspec",
        b"  ?specification S : noexit behaviour stop endspec\n  ^\n  a byte order mark\n  could be here, among others: `specification`\n  Save the text without a byte order mark.\n",
    ),
    (
        "no endproc",
        b"specification S [a] : noexit\nbehaviour P[a]\nwhere\nprocess P [x] : noexit := x; stop\nendspec\n",
        b"  endspec\n  ^\n  `endspec` is a reserved word\n  could be here, among others: `[]` `|[` `||` `|||` `[>` `>>` `where` `endproc`\n  `process` `P`, which begins at 4:1, has no `endproc` before it\n  Put what is missing before it, or remove it.\n",
    ),
    (
        "no endproc before another process",
        b"specification S [a] : noexit\nbehaviour P[a]\nwhere\nprocess P [x] : noexit := x; stop\nprocess (* the other *) Q [x] : noexit := x; stop endproc\nendspec\n",
        b"  process (* the other *) Q [x] : noexit := x; stop endproc\n  ^\n  `process` is a reserved word\n  could be here, among others: `[]` `|[` `||` `|||` `[>` `>>` `where` `endproc`\n  `process` `P`, which begins at 4:1, has no `endproc` before it\n  Put what is missing before it, or remove it.\n",
    ),
    (
        "no endproc of an inner process",
        b"specification S [a] : noexit\nbehaviour P[a]\nwhere\nprocess P [x] : noexit := Q[x] where\nprocess Q [x] : noexit := x; stop\nendproc\nendspec\n",
        b"  endspec\n  ^\n  `endspec` is a reserved word\n  could be here, among others: `process` `endproc`\n  `process` `P`, which begins at 4:1, has no `endproc` before it\n  Put what is missing before it, or remove it.\n",
    ),
    (
        "an endproc too many",
        b"specification S [a] : noexit\nbehaviour a; stop\nendproc\nendspec\n",
        b"  endproc\n  ^\n  `endproc` is a reserved word\n  could be here, among others: `[]` `|[` `||` `|||` `[>` `>>` `where` `endspec`\n  Remove it: no process is open here.\n",
    ),
    (
        "no endspec",
        b"specification S [a] : noexit\nbehaviour a; stop",
        b"  behaviour a; stop\n                   ^\n  the text ends here\n  could be here, among others: `[]` `|[` `||` `|||` `[>` `>>` `where` `endspec`\n  `specification` `S`, which begins at 1:1, has no `endspec`\n  Put what is missing at the end: close each parenthesis, each process and the specification.\n",
    ),
    (
        "nothing after a sign",
        b"specification S [a] : noexit\nbehaviour a;",
        b"  behaviour a;\n              ^\n  the text ends here\n  could be here, among others: a name `stop` `exit` `i` `hide` `(`\n  Put what is missing at the end: close each parenthesis, each process and the specification.\n",
    ),
    (
        "a parenthesis that the text does not close",
        b"specification S [a] : noexit\nbehaviour stop [] (a; (stop)",
        b"  behaviour stop [] (a; (stop)\n                              ^\n  the text ends here\n  could be here, among others: `)` `[]` `|[` `||` `|||` `[>` `>>`\n  `(` at 2:19 is not closed\n  Put what is missing at the end: close each parenthesis, each process and the specification.\n",
    ),
    (
        "a misspelt word",
        b"specification S [a] : noexit behavoir a; stop endspec",
        b"  specification S [a] : noexit behavoir a; stop endspec\n                               ^\n  `behavoir` is an identifier\n  could be here, among others: `behaviour`\n  Did you mean `behaviour`? If not, put what is missing before it.\n",
    ),
    (
        "a misspelt process",
        b"specification S [a] : noexit behaviour P[a]\nwhere PROCES P [x] : noexit := x; stop endproc\nendspec",
        b"  where PROCES P [x] : noexit := x; stop endproc\n        ^\n  `PROCES` is an identifier\n  could be here, among others: `process`\n  Did you mean `process`? If not, put what is missing before it.\n",
    ),
    (
        "a misspelt specification",
        b"specificaton S : noexit behaviour stop endspec",
        b"  specificaton S : noexit behaviour stop endspec\n  ^\n  `specificaton` is an identifier\n  could be here, among others: `specification`\n  Did you mean `specification`? If not, put what is missing before it.\n",
    ),
    (
        "end for endspec",
        b"specification S [a] : noexit\nbehaviour a; stop\nend",
        b"  end\n  ^\n  `end` is an identifier\n  could be here, among others: `[]` `|[` `||` `|||` `[>` `>>` `where` `endspec`\n  Did you mean `endspec`? If not, put what is missing before it.\n",
    ),
    (
        "a misspelt where after a call",
        b"specification S : noexit behaviour P\nwehre process P : noexit := stop endproc\nendspec",
        b"  wehre process P : noexit := stop endproc\n  ^\n  `wehre` is an identifier\n  could be here, among others: `;` `[` `[]` `|[` `||` `|||` `[>` `>>` `where` `endspec`\n  Did you mean `where`? If not, put what is missing before it.\n",
    ),
    (
        "a name where none is expected",
        b"specification S [a] : noexit\nbehaviour a; stop en",
        b"  behaviour a; stop en\n                    ^\n  `en` is an identifier\n  could be here, among others: `[]` `|[` `||` `|||` `[>` `>>` `where` `endspec`\n  Correct it if it is misspelt, or put what is missing before it.\n",
    ),
    (
        "no functionality",
        b"specification S [a]\nbehaviour a; stop endspec",
        b"  behaviour a; stop endspec\n  ^\n  `behaviour` is a reserved word\n  could be here, among others: `:`\n  Put `: noexit` before it, or `: exit` if the behaviour can end with `exit`.\n",
    ),
    (
        "a semicolon after exit",
        b"specification S [a,b] : noexit\nbehaviour a; exit; b; stop\nendspec",
        b"  behaviour a; exit; b; stop\n                   ^\n  `;` is a sign\n  could be here, among others: `[]` `|[` `||` `|||` `[>` `>>` `where` `endspec`\n  Write `;` only after a gate or `i`: remove it, or write `>>` after `exit` or a call.\n",
    ),
    (
        "no comma between gates",
        b"specification S [a b] : noexit behaviour stop endspec",
        b"  specification S [a b] : noexit behaviour stop endspec\n                     ^\n  `b` is an identifier\n  a `,` may be missing between `a` and it\n  Put `,` between the gates of a list.\n",
    ),
    (
        "an empty list of gates",
        b"specification S [] : noexit behaviour stop endspec",
        b"  specification S [] : noexit behaviour stop endspec\n                  ^\n  `[]` is a sign\n  could be here, among others: `:` `[`\n  Remove it: a list without gates is left out.\n",
    ),
    (
        "a parenthesis that is not closed",
        b"specification S [a] : noexit\nbehaviour (a; stop\nendspec",
        b"  endspec\n  ^\n  `endspec` is a reserved word\n  could be here, among others: `)` `[]` `|[` `||` `|||` `[>` `>>`\n  `(` at 2:11 is not closed before it\n  Put what is missing before it, or remove it.\n",
    ),
    (
        "a parenthesis that is not closed in a process",
        b"specification S [a] : noexit\nbehaviour P[a]\nwhere process P [x] : noexit := ((x; stop) [] x; stop\nendproc\nendspec",
        b"  endproc\n  ^\n  `endproc` is a reserved word\n  could be here, among others: `)` `[]` `|[` `||` `|||` `[>` `>>`\n  `(` at 3:33 is not closed before it\n  Put what is missing before it, or remove it.\n",
    ),
    (
        "a parenthesis too many",
        b"specification S [a] : noexit\nbehaviour a; stop)\nendspec",
        b"  behaviour a; stop)\n                   ^\n  `)` is a sign\n  could be here, among others: `[]` `|[` `||` `|||` `[>` `>>` `where` `endspec`\n  Remove it, or put `(` where the group begins: no `(` is open here.\n",
    ),
    (
        "no comma in the list of a hiding",
        b"specification S [a, b] : noexit\nbehaviour hide c d in c; d; stop\nendspec",
        b"  behaviour hide c d in c; d; stop\n                   ^\n  `d` is an identifier\n  a `,` may be missing between `c` and it\n  Put `,` between the gates of a list.\n",
    ),
    (
        "no comma in the list of a parallel composition",
        b"specification S [a, b] : noexit\nbehaviour a; stop |[a b]| b; stop\nendspec",
        b"  behaviour a; stop |[a b]| b; stop\n                        ^\n  `b` is an identifier\n  a `,` may be missing between `a` and it\n  Put `,` between the gates of a list.\n",
    ),
    (
        "no operator after exit",
        b"specification S [a, b] : noexit\nbehaviour a; exit b; stop\nendspec",
        b"  behaviour a; exit b; stop\n                    ^\n  `b` is an identifier\n  could be here, among others: `[]` `|[` `||` `|||` `[>` `>>` `where` `endspec`\n  Put an operator before it: `[]` for a choice, `|||` for both side by side, `>>` for one after the other.\n",
    ),
    (
        "no operator after a parenthesis",
        b"specification S [a, b] : noexit\nbehaviour (a; stop) (b; stop)\nendspec",
        b"  behaviour (a; stop) (b; stop)\n                      ^\n  `(` is a sign\n  could be here, among others: `[]` `|[` `||` `|||` `[>` `>>` `where` `endspec`\n  Put an operator before it: `[]` for a choice, `|||` for both side by side, `>>` for one after the other.\n",
    ),
    (
        "no operator before a call",
        b"specification S [a, b] : noexit\nbehaviour a; stop P[b]\nwhere process P [x] : noexit := x; stop endproc\nendspec",
        b"  behaviour a; stop P[b]\n                    ^\n  `P` is an identifier\n  could be here, among others: `[]` `|[` `||` `|||` `[>` `>>` `where` `endspec`\n  Put an operator before it: `[]` for a choice, `|||` for both side by side, `>>` for one after the other.\n",
    ),
    (
        "no functionality after a colon",
        b"specification S [a] :\nbehaviour a; stop endspec",
        b"  behaviour a; stop endspec\n  ^\n  `behaviour` is a reserved word\n  could be here, among others: `exit` `noexit`\n  Put `noexit` before it, or `exit` if the behaviour can end with `exit`.\n",
    ),
    (
        "no functionality of a process",
        b"specification S [a, b] : noexit\nbehaviour P[a]\nwhere process P [x] := x; stop endproc\nendspec",
        b"  where process P [x] := x; stop endproc\n                      ^\n  `:=` is a sign\n  could be here, among others: `:`\n  Put `: noexit` before it, or `: exit` if the behaviour can end with `exit`.\n",
    ),
    (
        "a list of gates in parentheses",
        b"specification S [a, b] : noexit\nbehaviour P[a]\nwhere process P (x) : noexit := x; stop endproc\nendspec",
        b"  where process P (x) : noexit := x; stop endproc\n                  ^\n  `(` is a sign\n  could be here, among others: `:` `[`\n  Write the gates between `[` and `]`, with `,` between them.\n",
    ),
    (
        "a list of gates without brackets",
        b"specification S [a, b] : noexit\nbehaviour P[a]\nwhere process P x : noexit := x; stop endproc\nendspec",
        b"  where process P x : noexit := x; stop endproc\n                  ^\n  `x` is an identifier\n  could be here, among others: `:` `[`\n  Write the gates between `[` and `]`, with `,` between them.\n",
    ),
    (
        "the gates of a call in parentheses",
        b"specification S [a, b] : noexit\nbehaviour P(a)\nwhere process P [x] : noexit := x; stop endproc\nendspec",
        b"  behaviour P(a)\n             ^\n  `(` is a sign\n  a `;` may be missing between `P` and it\n  Put `;` after `P` if it is a gate; write the gates of a process between `[` and `]`.\n",
    ),
    (
        "an empty list of gates in a call",
        b"specification S [a, b] : noexit\nbehaviour P[]\nwhere process P : noexit := stop endproc\nendspec",
        b"  where process P : noexit := stop endproc\n  ^\n  `where` is a reserved word\n  could be here, among others: a name `stop` `exit` `i` `hide` `(`\n  Remove `[]` before it if it is meant as a list without gates: such a call is a name alone. `[]` is a choice.\n",
    ),
    (
        "brackets around the gates of a hiding",
        b"specification S [a, b] : noexit\nbehaviour hide [c] in c; stop\nendspec",
        b"  behaviour hide [c] in c; stop\n                 ^\n  `[` is a sign\n  could be here, among others: a name\n  Write the gates of `hide` without brackets, as in `hide a, b in`.\n",
    ),
    (
        "a word after the end",
        b"specification S [a, b] : noexit\nbehaviour a; stop\nendspec endspec",
        b"  endspec endspec\n          ^\n  `endspec` is a reserved word\n  Remove it: the specification has ended before it.\n",
    ),
    (
        "no behaviour after an operator",
        b"specification S [a, b] : noexit\nbehaviour a; stop []\nendspec",
        b"  endspec\n  ^\n  `endspec` is a reserved word\n  could be here, among others: a name `stop` `exit` `i` `hide` `(`\n  Put a behaviour before it, as `stop`, `a; stop` or the call of a process.\n",
    ),
    (
        "no behaviour in parentheses",
        b"specification S [a, b] : noexit\nbehaviour a; ()\nendspec",
        b"  behaviour a; ()\n                ^\n  `)` is a sign\n  could be here, among others: a name `stop` `exit` `i` `hide` `(`\n  Put a behaviour before it, as `stop`, `a; stop` or the call of a process.\n",
    ),
    (
        "two operators",
        b"specification S [a, b] : noexit\nbehaviour a; stop ||| [] b; stop\nendspec",
        b"  behaviour a; stop ||| [] b; stop\n                        ^\n  `[]` is a sign\n  could be here, among others: a name `stop` `exit` `i` `hide` `(`\n  Remove it, or put a behaviour before it: an operator is between two.\n",
    ),
    (
        "four bars",
        b"specification S [a, b] : noexit\nbehaviour a; stop |||| b; stop\nendspec",
        b"  behaviour a; stop |||| b; stop\n                       ^\n  `|` is a sign\n  could be here, among others: a name `stop` `exit` `i` `hide` `(`\n  Remove it, or put a behaviour before it: an operator is between two.\n",
    ),
    (
        "no bracket after the gates of a call",
        b"specification S [a, b] : noexit\nbehaviour P[a where process P [x] : noexit := x; stop endproc\nendspec",
        b"  behaviour P[a where process P [x] : noexit := x; stop endproc\n                ^\n  `where` is a reserved word\n  could be here, among others: `,` `]`\n  Put `]` before it, after the last gate of the list.\n",
    ),
    (
        "a second where",
        b"specification S [a, b] : noexit\nbehaviour P[a]\nwhere process P [x] : noexit := x; stop endproc\nwhere process Q : noexit := stop endproc\nendspec",
        b"  where process Q : noexit := stop endproc\n  ^\n  `where` is a reserved word\n  could be here, among others: `process` `endspec`\n  Remove it: one `where` has all the processes.\n",
    ),
];

/// Comments, names, and words and signs of other languages.
const SPELLINGS: &[Row] = &[
    (
        "a comment that is not closed",
        b"specification S (* a link\n: noexit behaviour stop endspec",
        b"  specification S (* a link\n                  ^\n  a comment that is not closed\n  Close the comment with `*)`; comments do not nest.\n",
    ),
    (
        "a comment in a comment",
        b"(* a (* b *) c *)\nspecification S : noexit behaviour stop endspec",
        b"  (* a (* b *) c *)\n                 ^\n  `*` begins no word and no sign\n  Remove it: no comment is open here, as comments do not nest.\n",
    ),
    (
        "a comment as in C",
        b"// a link\nspecification S : noexit behaviour stop endspec",
        b"  // a link\n  ^\n  `/` begins no word and no sign\n  could be here, among others: `specification`\n  Write a comment between `(*` and `*)`.\n",
    ),
    (
        "a hyphen in a name",
        b"specification My-Link : noexit behaviour stop endspec",
        b"  specification My-Link : noexit behaviour stop endspec\n                  ^\n  `-` begins no word and no sign\n  could be here, among others: `:` `[`\n  Write an underscore in a name; a comment is written between `(*` and `*)`.\n",
    ),
    (
        "a comment of two hyphens",
        b"specification S : noexit -- a link\nbehaviour stop endspec",
        b"  specification S : noexit -- a link\n                           ^\n  `-` begins no word and no sign\n  could be here, among others: `behaviour`\n  Write an underscore in a name; a comment is written between `(*` and `*)`.\n",
    ),
    (
        "a guard",
        b"specification S [a] : noexit\nbehaviour a; [a] -> stop\nendspec",
        b"  behaviour a; [a] -> stop\n                   ^\n  `-` begins no word and no sign\n  Guards of full LOTOS are not read here: write a choice, with a gate for each case.\n",
    ),
    (
        "a guard with an equation",
        b"specification S [a] : noexit\nbehaviour a; [x = y] -> stop\nendspec",
        b"  behaviour a; [x = y] -> stop\n                  ^\n  `=` begins no word and no sign\n  Write `:=` in a definition; values and guards of full LOTOS are not read here.\n",
    ),
    (
        "a letter that is not in ASCII",
        b"specification S [\xc3\xa9nter] : noexit\nbehaviour stop endspec",
        b"  specification S [\xc3\xa9nter] : noexit\n                   ^\n  the byte 195, which is not ASCII, begins no word and no sign\n  could be here, among others: a name\n  Write a name in letters of ASCII, digits and underscores; only comments have other characters.\n",
    ),
    (
        "letters that are not in ASCII, in a comment before the place",
        b"specification S : noexit (* \xd0\xb1\xd1\x83\xe2\x86\x92\xe4\xb8\xad *) 2\nbehaviour stop endspec",
        b"  specification S : noexit (* \xd0\xb1\xd1\x83\xe2\x86\x92? *) 2\n                                      ^\n  `2` begins no word and no sign\n  could be here, among others: `behaviour`\n  Begin the name with a letter.\n",
    ),
    (
        "a letter of Latin 1",
        b"specification S [\xe9] : noexit\nbehaviour stop endspec",
        b"  specification S [?] : noexit\n                   ^\n  the byte 233, which is not ASCII, begins no word and no sign\n  could be here, among others: a name\n  Write a name in letters of ASCII, digits and underscores; only comments have other characters.\n",
    ),
    (
        "a name that begins with a digit",
        b"specification S : noexit behaviour stop where\nprocess 2P : noexit := stop endproc endspec",
        b"  process 2P : noexit := stop endproc endspec\n          ^\n  `2` begins no word and no sign\n  could be here, among others: a name\n  Begin the name with a letter.\n",
    ),
    (
        "a choice of full LOTOS",
        b"specification S [a] : noexit\nbehaviour choice g in [a] [] g; stop\nendspec",
        b"  behaviour choice g in [a] [] g; stop\n            ^\n  `choice` is a reserved word\n  could be here, among others: a name `stop` `exit` `i` `hide` `(`\n  Choose another name, or write the behaviour without it: this word of full LOTOS is not read here.\n",
    ),
    (
        "a gate called accept",
        b"specification S [accept] : noexit behaviour stop endspec",
        b"  specification S [accept] : noexit behaviour stop endspec\n                   ^\n  `accept` is a reserved word\n  could be here, among others: a name\n  Choose another name, or write the behaviour without it: this word of full LOTOS is not read here.\n",
    ),
    (
        "a value of full LOTOS",
        b"specification S [a] : noexit\nbehaviour a?x; stop\nendspec",
        b"  behaviour a?x; stop\n             ^\n  `?` begins no word and no sign\n  could be here, among others: `;` `[` `[]` `|[` `||` `|||` `[>` `>>` `where` `endspec`\n  Values of full LOTOS are not read here: have a gate for each value.\n",
    ),
    (
        "a semicolon after endproc",
        b"specification S : noexit behaviour P where\nprocess P : noexit := stop endproc;\nendspec",
        b"  process P : noexit := stop endproc;\n                                    ^\n  `;` is a sign\n  could be here, among others: `process` `endspec`\n  Write `;` only after a gate or `i`: remove it, or write `>>` after `exit` or a call.\n",
    ),
    (
        "a definition sign in a specification",
        b"specification S [a] : noexit := a; stop endspec",
        b"  specification S [a] : noexit := a; stop endspec\n                               ^\n  `:=` is a sign\n  could be here, among others: `behaviour`\n  Write `behaviour` in a specification; `:=` is for processes.\n",
    ),
    (
        "no where",
        b"specification S [a] : noexit\nbehaviour P[a]\nprocess P [x] : noexit := x; stop endproc\nendspec",
        b"  process P [x] : noexit := x; stop endproc\n  ^\n  `process` is a reserved word\n  could be here, among others: `[]` `|[` `||` `|||` `[>` `>>` `where` `endspec`\n  Put `where` before the first process.\n",
    ),
    (
        "no bar after the gates of a parallel composition",
        b"specification S [a] : noexit\nbehaviour a; stop |[a] a; stop\nendspec",
        b"  behaviour a; stop |[a] a; stop\n                         ^\n  `a` is an identifier\n  could be here, among others: `|`\n  Put `|` before it.\n",
    ),
    (
        "one sign of enabling",
        b"specification S [a,b] : noexit\nbehaviour a; exit > b; stop\nendspec",
        b"  behaviour a; exit > b; stop\n                    ^\n  `>` begins no word and no sign\n  could be here, among others: `[]` `|[` `||` `|||` `[>` `>>` `where` `endspec`\n  Write `>>` for enabling, or `[>` for disabling.\n",
    ),
    (
        "bars around a gate",
        b"specification S [a, b] : noexit\nbehaviour a; stop |a| b; stop\nendspec",
        b"  behaviour a; stop |a| b; stop\n                    ^\n  `|` is a sign\n  could be here, among others: `[]` `|[` `||` `|||` `[>` `>>` `where` `endspec`\n  Write the gates at which both sides meet between `|[` and `]|`, as in `|[a, b]|`, or `|||` if there are none.\n",
    ),
    (
        "a list of gates without bars",
        b"specification S [a, b] : noexit\nbehaviour a; stop [a] a; b; stop\nendspec",
        b"  behaviour a; stop [a] a; b; stop\n                    ^\n  `[` is a sign\n  could be here, among others: `[]` `|[` `||` `|||` `[>` `>>` `where` `endspec`\n  Write the gates at which both sides meet between `|[` and `]|`, as in `|[a, b]|`, or `|||` if there are none.\n",
    ),
    (
        "a list of gates after bars",
        b"specification S [a, b] : noexit\nbehaviour a; stop |||[a] a; b; stop\nendspec",
        b"  behaviour a; stop |||[a] a; b; stop\n                       ^\n  `[` is a sign\n  could be here, among others: a name `stop` `exit` `i` `hide` `(`\n  Write the gates at which both sides meet between `|[` and `]|`, as in `|[a, b]|`, or `|||` if there are none.\n",
    ),
    (
        "a blank in the sign of a choice",
        b"specification S [a, b] : noexit\nbehaviour a; stop [ ] b; stop\nendspec",
        b"  behaviour a; stop [ ] b; stop\n                    ^\n  `[` is a sign\n  could be here, among others: `[]` `|[` `||` `|||` `[>` `>>` `where` `endspec`\n  Write `[]` for a choice, with nothing between its two signs.\n",
    ),
    (
        "two bars after the gates of a parallel composition",
        b"specification S [a, b] : noexit\nbehaviour a; stop |[a]|| a; stop\nendspec",
        b"  behaviour a; stop |[a]|| a; stop\n                        ^\n  `||` is a sign\n  could be here, among others: `|`\n  Write one `|` after the list of gates, as in `|[a]|`.\n",
    ),
    (
        "a plus sign for a choice",
        b"specification S [a, b] : noexit\nbehaviour a; stop + b; stop\nendspec",
        b"  behaviour a; stop + b; stop\n                    ^\n  `+` begins no word and no sign\n  could be here, among others: `[]` `|[` `||` `|||` `[>` `>>` `where` `endspec`\n  Write `[]` for a choice.\n",
    ),
    (
        "an ampersand",
        b"specification S [a, b] : noexit\nbehaviour a; stop & b; stop\nendspec",
        b"  behaviour a; stop & b; stop\n                    ^\n  `&` begins no word and no sign\n  could be here, among others: `[]` `|[` `||` `|||` `[>` `>>` `where` `endspec`\n  Write `|||` for both side by side, or `|[a]|` for two that meet at the gate `a`.\n",
    ),
    (
        "an arrow after a gate",
        b"specification S [a, b] : noexit\nbehaviour a -> stop\nendspec",
        b"  behaviour a -> stop\n              ^\n  `-` begins no word and no sign\n  could be here, among others: `;` `[` `[]` `|[` `||` `|||` `[>` `>>` `where` `endspec`\n  Write `;` after a gate, as in `a; stop`.\n",
    ),
    (
        "a comma between alternatives",
        b"specification S [a, b] : noexit\nbehaviour a, b; stop\nendspec",
        b"  behaviour a, b; stop\n             ^\n  `,` is a sign\n  could be here, among others: `;` `[` `[]` `|[` `||` `|||` `[>` `>>` `where` `endspec`\n  Write `;` after a gate that is an action; `,` is for lists of gates.\n",
    ),
    (
        "behaviour in a process",
        b"specification S [a, b] : noexit\nbehaviour P[a]\nwhere process P [x] : noexit behaviour x; stop endproc\nendspec",
        b"  where process P [x] : noexit behaviour x; stop endproc\n                               ^\n  `behaviour` is a reserved word\n  could be here, among others: `:=`\n  Write `:=` in a process; `behaviour` is for the specification.\n",
    ),
];

/// Two hundred constructs that are open.
const DEEP: &[(&str, &[u8], &[u8])] = &[
    (
        "a long sequence",
        b"a; ",
        b"  Each `;` opens a construct: divide a long sequence among processes, each of which calls the next.\n",
    ),
    (
        "many parentheses",
        b"(",
        b"  Make an inner part a process of its own.\n",
    ),
];

/// Static rules.
const RULES: &[Row] = &[
    (
        "a gate of the specification in a process",
        b"specification S [a] : noexit\nbehaviour P[a]\nwhere process P [x] : noexit := a; P[x] endproc\nendspec",
        b"  where process P [x] : noexit := a; P[x] endproc\n                                  ^\n  A is a gate of the specification, at 1:18, and not of the process here\n  Hand it on: add it to the gates of the process and to those of its calls.\n",
    ),
    (
        "a gate of the specification in the call of an inner process",
        b"specification S [put, get] : noexit\nbehaviour P[put]\nwhere process P [x] : noexit := x; Q[x, Get]\nwhere process Q [y, z] : noexit := y; z; stop endproc endproc\nendspec",
        b"  where process P [x] : noexit := x; Q[x, Get]\n                                          ^\n  GET is a gate of the specification, at 1:23, and not of the process here\n  Hand it on: add it to the gates of the process and to those of its calls.\n",
    ),
    (
        "a gate of another process in a process",
        b"specification S [a] : noexit\nbehaviour P[a]\nwhere process P [x] : noexit := x; y; stop endproc\nprocess Q [y] : noexit := y; stop endproc\nendspec",
        b"  where process P [x] : noexit := x; y; stop endproc\n                                     ^\n  Correct the name, or add the gate to the definition and to its calls: a process sees its own gates alone.\n",
    ),
    (
        "a gate without a semicolon before a choice",
        b"specification S [a] : noexit\nbehaviour a [] stop\nendspec",
        b"  behaviour a [] stop\n            ^\n  A is a gate here\n  Put `;` after it, and then what comes next; a name without `;` is a call of a process.\n",
    ),
    (
        "a hidden gate without a semicolon",
        b"specification S [a] : noexit\nbehaviour hide frame in a; (Frame ||| stop)\nendspec",
        b"  behaviour hide frame in a; (Frame ||| stop)\n                              ^\n  FRAME is a gate here\n  Put `;` after it, and then what comes next; a name without `;` is a call of a process.\n",
    ),
    (
        "a gate without a semicolon, and a process with a similar name",
        b"specification S [send] : noexit\nbehaviour send\nwhere process Sends [x] : noexit := x; stop endproc\nendspec",
        b"  behaviour send\n            ^\n  a process that is visible here has a similar name: SENDS\n  SEND is a gate here\n  Put `;` after it, and then what comes next; a name without `;` is a call of a process.\n",
    ),
    (
        "a gate that is hidden elsewhere, without a semicolon",
        b"specification S [a] : noexit\nbehaviour (hide frame in frame; stop) [] frame\nendspec",
        b"  behaviour (hide frame in frame; stop) [] frame\n                                           ^\n  Correct the name, or define the process in a `where` around the call; if it is a gate, put `;` after it.\n",
    ),
    (
        "a misspelt gate without a semicolon",
        b"specification S [frame] : noexit\nbehaviour fram\nendspec",
        b"  behaviour fram\n            ^\n  Correct the name, or define the process in a `where` around the call; if it is a gate, put `;` after it.\n",
    ),
    (
        "a process inside another",
        b"specification S [a] : noexit\nbehaviour P[a] ||| Q[a]\nwhere process P [x] : noexit := x; Q[x] where\nprocess Q [y] : noexit := y; stop endproc endproc\nendspec",
        b"  behaviour P[a] ||| Q[a]\n                     ^\n  Q is defined at 4:9, in the `where` of P, and is not visible here\n  Move its definition out, into a `where` that is around the call too, or give the call its right name.\n",
    ),
    (
        "a process inside another one, which is inside a third",
        b"specification S [a] : noexit\nbehaviour P[a]\nwhere process P [x] : noexit := R[x] where\nprocess Q [y] : noexit := R[y] where\nprocess R [z] : noexit := z; stop endproc endproc endproc\nendspec",
        b"  where process P [x] : noexit := R[x] where\n                                  ^\n  R is defined at 5:9, in the `where` of Q, and is not visible here\n  Move its definition out, into a `where` that is around the call too, or give the call its right name.\n",
    ),
    (
        "the specification called",
        b"specification S [a] : noexit\nbehaviour a; S[a]\nendspec",
        b"  behaviour a; S[a]\n               ^\n  It is the name of the specification, which is not called: make a process of its behaviour.\n",
    ),
    (
        "a call with too few gates",
        b"specification S [a] : noexit\nbehaviour P[a]\nwhere process P [x,y] : noexit := x; y; stop endproc\nendspec",
        b"  behaviour P[a]\n            ^\n  it is defined at 3:15 with the gates X Y\n  Give as many gates as the definition has, in its order.\n",
    ),
    (
        "a call with gates of a process without gates",
        b"specification S [a] : noexit\nbehaviour P[a]\nwhere process P : noexit := stop endproc\nendspec",
        b"  behaviour P[a]\n            ^\n  it is defined at 3:15 without gates\n  Give as many gates as the definition has, in its order.\n",
    ),
    (
        "a call with too many gates, and two processes of the name",
        b"specification S [a] : noexit\nbehaviour P[a]\nwhere process P [x] : noexit := x; Q[x,x] where\nprocess Q [y] : noexit := y; stop endproc endproc\nprocess Q [u,v,w] : noexit := u; v; w; stop endproc\nendspec",
        b"  where process P [x] : noexit := x; Q[x,x] where\n                                     ^\n  it is defined at 4:9 with the gates Y\n  Give as many gates as the definition has, in its order.\n",
    ),
    (
        "a call with too few of many gates",
        b"specification S [a] : noexit\nbehaviour P[a]\nwhere process P [b,c,d,e,f,g,h,j,k,l,m,n,o] : noexit := b; stop endproc\nendspec",
        b"  behaviour P[a]\n            ^\n  it is defined at 3:15 with the gates B C D E F G H J K L M N ..\n  Give as many gates as the definition has, in its order.\n",
    ),
    (
        "a gate that is declared twice",
        b"specification S [a,b,a] : noexit behaviour stop endspec",
        b"  specification S [a,b,a] : noexit behaviour stop endspec\n                       ^\n  it is declared first at 1:18\n  Rename one of the two gates, here and in the behaviour.\n",
    ),
    (
        "a gate that is declared twice in an inner process",
        b"specification S [a] : noexit behaviour stop\nwhere process P [b] : noexit := stop where\nprocess Q [a,b,\nB] : noexit := stop endproc endproc\nendspec",
        b"  B] : noexit := stop endproc endproc\n  ^\n  it is declared first at 3:14\n  Rename one of the two gates, here and in the behaviour.\n",
    ),
    (
        "a process that is declared twice",
        b"specification S : noexit behaviour stop where\nprocess P : noexit := stop endproc\nprocess P : noexit := stop endproc\nendspec",
        b"  process P : noexit := stop endproc\n          ^\n  it is declared first at 2:9\n  Rename one of the two processes, here and in its calls.\n",
    ),
    (
        "a process that is declared twice inside another of the name",
        b"specification S : noexit behaviour stop where\nprocess P : noexit := stop where\nprocess Q : noexit := stop endproc\nprocess P : noexit := stop endproc\nprocess p : noexit := stop endproc endproc\nendspec",
        b"  process p : noexit := stop endproc endproc\n          ^\n  it is declared first at 4:9\n  Rename one of the two processes, here and in its calls.\n",
    ),
    (
        "a left side that never exits",
        b"specification S [a,b] : noexit\nbehaviour a; stop >> b; stop\nendspec",
        b"  behaviour a; stop >> b; stop\n                    ^\n  End the behaviour to the left of `>>` with `exit`.\n",
    ),
    (
        "a process that calls itself at once",
        b"specification S [a] : noexit\nbehaviour P[a]\nwhere process P [x] : noexit := P[x] [] x; stop endproc\nendspec",
        b"  where process P [x] : noexit := P[x] [] x; stop endproc\n                ^\n  P calls itself at 3:33\n  Put an action before one of the calls, as in `a; P[a]`, or the call to the right of `>>`.\n",
    ),
    (
        "three processes that call each other at once",
        b"specification S [a] : noexit\nbehaviour P[a] where\nprocess P [x] : noexit := x; R[x] [] Q[x] endproc\nprocess Q [x] : noexit := x; stop ||| (hide y in R[x]) endproc\nprocess R [x] : noexit := P[x] [> x; P[x] endproc\nendspec",
        b"  process P [x] : noexit := x; R[x] [] Q[x] endproc\n          ^\n  P calls Q at 3:38\n  Q calls R at 4:50\n  R calls P at 5:27\n  Put an action before one of the calls, as in `a; P[a]`, or the call to the right of `>>`.\n",
    ),
    (
        "a process that calls another one, which goes round",
        b"specification S [a] : noexit\nbehaviour P[a] where\nprocess P [x] : noexit := T[x] [] Q[x] endproc\nprocess Q [x] : noexit := Q[x] >> P[x] where\nprocess Q [x] : exit := T[x] >> Q[x] where\nprocess T [x] : exit := x; exit endproc endproc endproc\nprocess T [x] : noexit := T[x] endproc\nendspec",
        b"  process P [x] : noexit := T[x] [] Q[x] endproc\n          ^\n  T calls itself at 7:27\n  Put an action before one of the calls, as in `a; P[a]`, or the call to the right of `>>`.\n",
    ),
];

/// Names that are misspelt.
const SIMILAR_NAMES: &[Row] = &[
    (
        "a misspelt gate",
        b"specification S [send, receive] : noexit\nbehaviour sned; receive; stop\nendspec",
        b"  behaviour sned; receive; stop\n            ^\n  a gate in scope has a similar name: SEND\n  Correct the name, or add the gate to the definition and to its calls: a process sees its own gates alone.\n",
    ),
    (
        "a misspelt gate of a call, and a similar one that is hidden there",
        b"specification S [put] : noexit\nbehaviour hide frame in put; P[fram]\nwhere process P [x] : noexit := x; stop endproc\nendspec",
        b"  behaviour hide frame in put; P[fram]\n                                 ^\n  a gate in scope has a similar name: FRAME\n  Correct the name, or add the gate to the definition and to its calls: a process sees its own gates alone.\n",
    ),
    (
        "a misspelt gate in the list of a parallel composition",
        b"specification S [put, get] : noexit\nbehaviour put; stop |[pet]| get; stop\nendspec",
        b"  behaviour put; stop |[pet]| get; stop\n                        ^\n  a gate in scope has a similar name: PUT\n  Correct the name, or add the gate to the definition and to its calls: a process sees its own gates alone.\n",
    ),
    (
        "a gate with no similar one",
        b"specification S [send] : noexit\nbehaviour receive; stop\nendspec",
        b"  behaviour receive; stop\n            ^\n  Correct the name, or add the gate to the definition and to its calls: a process sees its own gates alone.\n",
    ),
    (
        "a gate of one letter",
        b"specification S [a] : noexit\nbehaviour b; stop\nendspec",
        b"  behaviour b; stop\n            ^\n  Correct the name, or add the gate to the definition and to its calls: a process sees its own gates alone.\n",
    ),
    (
        "a gate that is similar to one of another process",
        b"specification S [frame] : noexit\nbehaviour P[frame]\nwhere process P [x] : noexit := fram; P[x] endproc\nendspec",
        b"  where process P [x] : noexit := fram; P[x] endproc\n                                  ^\n  Correct the name, or add the gate to the definition and to its calls: a process sees its own gates alone.\n",
    ),
    (
        "the most similar gate of a list",
        b"specification S [ford, work, word] : noexit\nbehaviour wort; stop\nendspec",
        b"  behaviour wort; stop\n            ^\n  a gate in scope has a similar name: WORK\n  Correct the name, or add the gate to the definition and to its calls: a process sees its own gates alone.\n",
    ),
    (
        "a gate that is similar to one that is hidden elsewhere",
        b"specification S [a] : noexit\nbehaviour (hide frame in frame; stop) [] fram; stop\nendspec",
        b"  behaviour (hide frame in frame; stop) [] fram; stop\n                                           ^\n  Correct the name, or add the gate to the definition and to its calls: a process sees its own gates alone.\n",
    ),
    (
        "a misspelt process",
        b"specification S [a] : noexit\nbehaviour Sendr[a]\nwhere process Sender [x] : noexit := x; stop endproc\nendspec",
        b"  behaviour Sendr[a]\n            ^\n  a process that is visible here has a similar name: SENDER\n  Correct the name, or define the process in a `where` around the call; if it is a gate, put `;` after it.\n",
    ),
    (
        "a misspelt process of an outer where",
        b"specification S [a] : noexit\nbehaviour P[a]\nwhere process P [x] : noexit := Q[x] where\nprocess Q [y] : noexit := y; Sendr[y] endproc endproc\nprocess Sender [z] : noexit := z; stop endproc\nendspec",
        b"  process Q [y] : noexit := y; Sendr[y] endproc endproc\n                               ^\n  a process that is visible here has a similar name: SENDER\n  Correct the name, or define the process in a `where` around the call; if it is a gate, put `;` after it.\n",
    ),
    (
        "a process that is similar to one inside another",
        b"specification S [a] : noexit\nbehaviour Sendr[a]\nwhere process P [x] : noexit := Sender[x] where\nprocess Sender [y] : noexit := y; stop endproc endproc\nendspec",
        b"  behaviour Sendr[a]\n            ^\n  Correct the name, or define the process in a `where` around the call; if it is a gate, put `;` after it.\n",
    ),
];

/// Functionalities that are not the declared ones.
const FUNCTIONALITIES: &[Row] = &[
    (
        "exit declared for a behaviour that never exits",
        b"specification S [a] : exit\nbehaviour a; stop endspec",
        b"  specification S [a] : exit\n                ^\n  it is `noexit` because of a `stop`\n  Declare it `noexit`, or end the behaviour with `exit`; a call has what its process declares.\n",
    ),
    (
        "noexit declared for a behaviour that exits",
        b"specification S [a] : noexit\nbehaviour a; exit endspec",
        b"  specification S [a] : noexit\n                ^\n  it is `exit` because of an `exit`\n  Declare it `exit`, or end the behaviour with `stop`; a call has what its process declares.\n",
    ),
    (
        "a call that makes it noexit",
        b"specification S [a] : exit\nbehaviour a; P[a]\nwhere process P [x] : noexit := x; P[x] endproc\nendspec",
        b"  specification S [a] : exit\n                ^\n  it is `noexit` because of the call of P at 2:14\n  Declare it `noexit`, or end the behaviour with `exit`; a call has what its process declares.\n",
    ),
    (
        "a right side of a parallel composition that never exits",
        b"specification S [a,b] : exit\nbehaviour a; exit ||| b; stop\nendspec",
        b"  specification S [a,b] : exit\n                ^\n  it is `noexit` because of the `stop` at 2:26\n  Declare it `noexit`, or end the behaviour with `exit`; a call has what its process declares.\n",
    ),
    (
        "a left side of a parallel composition that never exits",
        b"specification S [a,b] : exit\nbehaviour a; P[a] ||| b; exit\nwhere process P [x] : noexit := x; P[x] endproc\nendspec",
        b"  specification S [a,b] : exit\n                ^\n  it is `noexit` because of the call of P at 2:14\n  Declare it `noexit`, or end the behaviour with `exit`; a call has what its process declares.\n",
    ),
    (
        "a choice that may exit",
        b"specification S [a,b] : noexit\nbehaviour b; stop [] a; exit\nendspec",
        b"  specification S [a,b] : noexit\n                ^\n  it is `exit` because of the `exit` at 2:25\n  Declare it `exit`, or end the behaviour with `stop`; a call has what its process declares.\n",
    ),
    (
        "a call of an inner process that makes it exit",
        b"specification S [a] : noexit\nbehaviour P[a]\nwhere process P [x] : noexit := x; Q[x] where\nprocess Q [y] : exit := y; exit endproc endproc\nendspec",
        b"  where process P [x] : noexit := x; Q[x] where\n                ^\n  it is `exit` because of the call of Q at 3:36\n  Declare it `exit`, or end the behaviour with `stop`; a call has what its process declares.\n",
    ),
    (
        "an enabling with a right side that never exits",
        b"specification S [a] : exit\nbehaviour hide b in b; exit >> a; stop\nendspec",
        b"  specification S [a] : exit\n                ^\n  it is `noexit` because of the `stop` at 2:35\n  Declare it `noexit`, or end the behaviour with `exit`; a call has what its process declares.\n",
    ),
    (
        "one exit of several",
        b"specification S [a,b] : noexit\nbehaviour P[a]\nwhere process P [x] : noexit := x; stop [] (x; exit >> stop) [] x;\nexit [] x; exit where\nprocess Q : exit := exit endproc endproc endspec",
        b"  where process P [x] : noexit := x; stop [] (x; exit >> stop) [] x;\n                ^\n  it is `exit` because of the `exit` at 4:1\n  Declare it `exit`, or end the behaviour with `stop`; a call has what its process declares.\n",
    ),
    (
        "an exit after a call",
        b"specification S [a,b] : noexit\nbehaviour P[a]\nwhere process P [x] : noexit := Q\n[] x; stop [] x; exit where\nprocess Q : noexit := stop endproc endproc endspec",
        b"  where process P [x] : noexit := Q\n                ^\n  it is `exit` because of the `exit` at 4:18\n  Declare it `exit`, or end the behaviour with `stop`; a call has what its process declares.\n",
    ),
    (
        "an exit in both operands",
        b"specification S [a,b] : noexit\nbehaviour P[a]\nwhere process P [x] : noexit := x; exit ||| (x; x;\n exit)\nendproc endspec",
        b"  where process P [x] : noexit := x; exit ||| (x; x;\n                ^\n  it is `exit` because of the `exit` at 4:2\n  Declare it `exit`, or end the behaviour with `stop`; a call has what its process declares.\n",
    ),
    (
        "an exit in a disabling under a hiding",
        b"specification S [a,b] : noexit\nbehaviour P[a]\nwhere process P [x] : noexit := hide y in y; stop [>\nx; exit endproc endspec",
        b"  where process P [x] : noexit := hide y in y; stop [>\n                ^\n  it is `exit` because of the `exit` at 4:4\n  Declare it `exit`, or end the behaviour with `stop`; a call has what its process declares.\n",
    ),
];

/// The lines that explain why a text is refused; none if it is accepted.
fn explained(alloc: Global, text: &[u8]) -> Vec<u8> {
    let mut lines = Vec::new(alloc);
    let answer = parse(alloc, text);
    explain_answer(alloc, text, &answer, &mut lines);
    lines
}

/// Explains what the parser returned, if it is a fault or breaks a static rule.
fn explain_answer(
    alloc: Global,
    text: &[u8],
    answer: &Result<Specification, TextFault>,
    lines: &mut Vec<u8>,
) {
    match answer {
        Ok(specification) => explain_broken(alloc, text, specification, lines),
        Err(fault) => explain_text_fault(alloc, text, fault, lines),
    }
}

/// Explains the static rule that a specification breaks, if it breaks one.
fn explain_broken(alloc: Global, text: &[u8], specification: &Specification, lines: &mut Vec<u8>) {
    let answer = check(alloc, specification);
    if let Err(fault) = &answer {
        explain_check_fault(alloc, text, specification, fault, lines);
    }
}

pub fn assert_explained(rt: &impl Abort, alloc: Global, row: &str, text: &[u8], want: &[u8]) {
    let lines = explained(alloc, text);
    assert!(rt;
        lines.as_slice() == want,
        "{row}: {:?}",
        str::from_utf8(lines.as_slice())
    );
}

fn assert_each_explained(rt: &impl Abort, alloc: Global, rows: &[Row]) {
    for (row, text, want) in rows {
        assert_explained(rt, alloc, row, text, want);
    }
}

/// The text of a specification with 201 times the beginning of a behaviour.
fn deep_text(alloc: Global, front: &[u8]) -> Result<Vec<u8>, AllocError> {
    let mut text = Vec::new(alloc);
    text.extend_from_slice(b"specification S [a] : noexit behaviour\n")?;
    for _ in 0..201 {
        text.extend_from_slice(front)?;
    }
    text.extend_from_slice(b"stop")?;
    Ok(text)
}

/// Asserts the last line that explains a text in which 201 constructs are open.
fn assert_deep(rt: &impl Abort, alloc: Global, row: &str, front: &[u8], want: &[u8]) {
    if let Ok(text) = deep_text(alloc, front) {
        let lines = explained(alloc, text.as_slice());
        assert!(rt;
            lines.as_slice().ends_with(want),
            "{row}: {:?}",
            str::from_utf8(lines.as_slice())
        );
    }
}

#[test]
fn explains_deep_nesting(rt: HostRuntime) {
    for (row, front, want) in DEEP {
        assert_deep(&rt, rt.alloc(), *row, *front, *want);
    }
}

#[test]
fn explains_what_is_missing(rt: HostRuntime) {
    assert_each_explained(&rt, rt.alloc(), MISSING);
}

#[test]
fn explains_spellings(rt: HostRuntime) {
    assert_each_explained(&rt, rt.alloc(), SPELLINGS);
}

#[test]
fn explains_rules(rt: HostRuntime) {
    assert_each_explained(&rt, rt.alloc(), RULES);
}

#[test]
fn explains_names_by_similar_ones(rt: HostRuntime) {
    assert_each_explained(&rt, rt.alloc(), SIMILAR_NAMES);
}

#[test]
fn explains_functionalities(rt: HostRuntime) {
    assert_each_explained(&rt, rt.alloc(), FUNCTIONALITIES);
}
